ghost use Rattle.std.specs.Prelude.{◌≡◌, ◌≢◌, ◌↔◌, ℕ, List, [], false, Err, IfOk, IfSome, OnOk, OnErr, OnSome, IsTrue};
ghost use Rattle.file_devices.specs.Failing.{Failing};
ghost use Rattle.file_devices.specs.Holding.{AreAsTheyWere, ArePlaced, HasOneNamed, IsAsItWas, IsNoneNamed, IsThere};

use crate::claim_fault::ClaimFault;
use crate::host_reason::HostReason;
use crate::read_fault::ReadFault;
use crate::sink::Sink;
use crate::source::Source;
use crate::write_fault::WriteFault;
use crate::written::Written;
use std::alloc::AllocError;

/// Files by name. What is written is seen under no name until it is put in place. Where it is known what files hold, what is read of
/// them and put in their place is known too.
pub trait Files {
    /// A file that is read from its beginning.
    type Input: Source + Drop;
    /// A file that is written, and isn't yet in its place. One that is dropped is gone.
    type Output: Sink + Drop;
    /// The right to write a file, or to read it while nobody writes it, until it is dropped.
    type Claim: Drop;

    // It is known what files hold.
    ghost is_known: { Self → Type 0 };
    // The file of this name holds these bytes.
    ghost holds: { Self → List ℕ → List ℕ → Type 0 };
    // What may fail of the file of a name.
    ghost failing: { Self → Failing };
    // The claim is the right to write the file of this name alone.
    ghost is_alone_on: { Self.Claim → List ℕ → Type 0 };
    // The claim is the right to read the file of this name while nobody writes it.
    ghost is_to_read: { Self.Claim → List ℕ → Type 0 };

    /// Opens a file to read it. One that holds known bytes is opened, unless memory runs out; where it is known what files hold, no
    /// other is.
    fn open(&self, name: &str) -> Result<Self::Input, ReadFault>
        ensures fresh { IfOk result (λ input. Self.Input.has_failed input ≡ false) }
        ensures device { IfOk result (λ input. Self.Input.may_fail input → (failing self.now).reading name.now) }
        ensures bytes { (bytes : List ℕ) → holds self.now name.now bytes → IfOk result (λ input. Self.Input.is_known input × (Self.Input.remaining input ≡ bytes)) }
        ensures there { OnOk result (is_known self.now → IsThere (holds self.now) name.now) }
        ensures absent { result ≡ Err ReadFault.Unreadable → (bytes : List ℕ) → ¬ holds self.now name.now bytes };

    /// Makes a file that can be put in the place of this name. Until it is, all files stay as they are.
    fn create(&self, name: &str) -> Result<Self::Output, WriteFault>
        ensures fresh { IfOk result (λ output. Self.Output.has_failed output ≡ false) }
        ensures device { IfOk result (λ output. Self.Output.may_fail output → (failing self.now).writing name.now) }
        ensures empty { IfOk result (λ output. is_known self.now → Self.Output.is_known output × (Self.Output.written output ≡ [])) }
        ensures refused { result ≡ Err WriteFault.Unwritable → (failing self.now).refused name.now };

    /// Puts what was written in place, in this order: all files or, after a fault, none. Each is on the disk before the first is put in
    /// place. Other files stay.
    fn put_in_place(&mut self, files: Vec<Written<Self::Output>>) -> Result<(), WriteFault>
        ensures placed { OnOk result (is_known self.old → ArePlaced Self.Output.is_known Self.Output.written (holds self.new) files.items) }
        ensures kept { OnErr result (AreAsTheyWere (holds self.old) (holds self.new)) }
        ensures refused { result ≡ Err WriteFault.Unwritable → HasOneNamed (failing self.old).refused files.items }
        ensures known { is_known self.old → is_known self.new }
        ensures others { (other : List ℕ) → IsNoneNamed other files.items → IsAsItWas (holds self.old) (holds self.new) other };

    /// Claims a file, to write it alone.
    fn claim(&self, name: &str) -> Result<Self::Claim, ClaimFault>
        ensures claimed { IfOk result (λ claim. is_alone_on claim name.now) }
        ensures in_use { result ≡ Err ClaimFault.InUse → (failing self.now).in_use name.now };

    /// Claims a file, to read it with others while nobody writes it.
    fn claim_to_read(&self, name: &str) -> Result<Self::Claim, ClaimFault>
        ensures claimed { IfOk result (λ claim. is_to_read claim name.now) }
        ensures in_use { result ≡ Err ClaimFault.InUse → (failing self.now).in_use name.now };

    /// Whether both names are one file's: by equal words or, on a host, by links.
    fn is_one_file(&self, first: &str, second: &str) -> Result<bool, AllocError>
        ensures { IfOk result (λ one. is_known self.now → (IsTrue one ↔ (first.now ≡ second.now))) };

    /// Opens a file once more, to say where the fault of what it holds is. `None` where that could wait for a device or take something
    /// from it, or memory runs out. It fails where the file can't be opened, for this reason.
    fn open_again(&self, name: &str) -> Result<Option<Self::Input>, HostReason>
        ensures bytes { IfOk result (λ again. IfSome again (λ input. (bytes : List ℕ) → holds self.now name.now bytes
            → Self.Input.is_known input × (Self.Input.remaining input ≡ bytes))) }
        ensures absent { OnErr result ((bytes : List ℕ) → ¬ holds self.now name.now bytes) };

    /// Why no file can be made that could be put in the place of this name; `None` where one can, or the reason isn't found.
    fn why_not_made(&self, name: &str) -> Option<HostReason>
        ensures { OnSome result ((failing self.now).refused name.now) };
}
