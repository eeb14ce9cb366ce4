ghost use Rattle.std.specs.Prelude.{ℕ, List, [], ◌∷◌, ◌++◌};
ghost use Rattle.file_devices.specs.Appending.{Begins};
ghost use Rattle.link_frames.specs.Ahead.{IsLast};

use crate::last::Last;
use rtrb::Protocol;
use std::marker::{Brand, PhantomData};

/// What is known of a link before its first byte is read. Who reads one ahead names it so.
pub trait Link {
    // Whether it is known which bytes come.
    ghost is_known: { Type 0 };
    // The bytes that come, where they are known.
    ghost bytes: { List ℕ };
    // A call of its source may fail.
    ghost may_fail: { Type 0 };
}

impl Link for Brand {
    ghost is_known = { ⊥ };

    ghost bytes = { [] };

    ghost may_fail = { ⊥ };
}

/// The bytes of this link are handed over in their order, each once, and behind all of them what its source said.
#[derive(Clone, Copy)]
pub struct InOrder<L> {
    of: PhantomData<L>,
}

impl<L: Link> Protocol<u8> for InOrder<L> {
    ghost allows = { λ before byte. L.is_known → Begins (before ++ byte ∷ []) L.bytes };
}

impl<L: Link> Protocol<Last> for InOrder<L> {
    ghost allows = { λ _ last. IsLast L.is_known L.bytes L.may_fail last };
}
