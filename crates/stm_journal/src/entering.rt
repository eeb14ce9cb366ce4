ghost use Rattle.std.specs.Prelude.{◌≡◌, ◌<◌, ◌++◌, ◌∷◌, [], length, vec_capacity};

/// Enters last what there is room for.
pub(crate) fn enter<E: Copy>(entries: &mut Vec<E>, entry: E)
    requires { length entries.old.items < vec_capacity entries.old }
    ensures { entries.new.items ≡ entries.old.items ++ entry ∷ [] }
{
    entries.push_reserved(entry);
}
