ghost use Rattle.std.specs.Prelude.{◌≡◌, ◌∷◌, ◌++◌, [], OnOk};

use std::alloc::AllocError;

/// Appends a copy of an item. Memory can run out.
pub(crate) fn push_copy<T: Copy>(items: &mut Vec<T>, item: &T) -> Result<(), AllocError>
    ensures { OnOk result (items.new.items ≡ items.old.items ++ item.now ∷ []) }
{
    items.reserve(1)?;
    items.push_reserved(*item);
    Ok(())
}
