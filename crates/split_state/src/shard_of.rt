ghost use Rattle.std.specs.Prelude.{◌<◌};

use issuer_rows::RowKey;

// How many characters of a key are looked at.
const LAST: usize = 4;

// Which of the 64 shards holds a row: determined by its kind and the last characters of its key, in which keys differ most. Any choice is
// right.
pub(crate) fn shard_of(key: &RowKey) -> usize
    ensures { result < 64 }
{
    match key {
        RowKey::Card(pan) => shard_of_text(0, pan.as_str()),
        RowKey::Velocity(pan, _) => shard_of_text(1, pan.as_str()),
        RowKey::Budget(prefix) => shard_of_text(2, prefix.as_str()),
        RowKey::Original(identity) => shard_of_text(3, identity.stan.as_str()),
        RowKey::Account(id) => shard_of_text(4, id.as_str()),
    }
}

// The shard of a row of this kind, whose key is this text.
fn shard_of_text(kind: u32, text: &str) -> usize
    ensures { result < 64 }
{
    let mut number = kind;
    for byte in text.as_bytes().iter().rev().take(LAST) {
        number = number.wrapping_mul(31).wrapping_add(u32::from(*byte));
    }
    (number % 64) as usize
}
