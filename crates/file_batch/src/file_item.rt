ghost use Rattle.std.specs.Prelude.{◌≡◌, ◌++◌, ℕ, List, OnOk};
ghost use Rattle.file_laws.specs.Files.{framed};

use std::alloc::AllocError;

/// What a file has many of, each behind its length.
pub(crate) trait FileItem {
    // Its text.
    ghost text: { Self → List ℕ };
    // Whether a file can have it.
    ghost fits: { Self → Type 0 };
    // What is known of each by its type.
    ghost holds: { Self → Type 0 };

    /// Appends its text behind its length, two bytes. `memory` is for its text. Memory can run out.
    fn add(&self, out: &mut Vec<u8>, memory: &mut Vec<u8>) -> Result<(), AllocError>
        requires { fits self.now }
        ensures text { OnOk result (out.new.items ≡ out.old.items ++ framed (text self.now)) }
        ensures holds { OnOk result (holds self.now) };
}
