//! Files of which one is opened, and each call that reads it fails.

ghost use Rattle.std.specs.Prelude.{◌≡◌, ◌⊎◌, ℕ, List, Err, IsTrue, OnOk, OnErr, string_bytes};
ghost use Rattle.file_devices.specs.Failing.{Failing};
ghost use Rattle.file_devices.specs.Holding.{AreAsTheyWere, ArePlaced, HasOneNamed, IsAsItWas, IsNoneNamed};

use crate::script::{Stage, play_on};
use file_devices::{
    Broken, ClaimFault, Files, HostReason, MemoryFiles, ReadFault, Source, WriteFault, Written,
};
use std::alloc::{AllocError, Global};

// A file that is read; where it is broken, each call fails.
#[derive(Drop)]
struct BrokenInput<S> {
    input: S,
    is_broken: bool,
    has_failed: bool,
}

impl<S: Source> Source for BrokenInput<S> {
    ghost is_known = { λ file. S.is_known file.input };

    ghost remaining = { λ file. S.remaining file.input };

    ghost has_failed = { λ file. file.has_failed };

    ghost may_fail = { λ file. S.may_fail file.input ⊎ IsTrue file.is_broken };

    fn take(&mut self, buffer: &mut [u8]) -> Result<usize, Broken> {
        if self.is_broken {
            self.has_failed = true;
            return Err(Broken);
        }
        match self.input.take(buffer) {
            Ok(count) => Ok(count),
            Err(Broken) => {
                self.has_failed = true;
                Err(Broken)
            }
        }
    }
}

// These files, of which the one of this name is broken.
#[derive(Drop)]
struct BrokenFiles<F> {
    files: F,
    broken: &'static str,
}

impl<F: Files> Files for BrokenFiles<F> {
    type Input = BrokenInput<F::Input>;

    type Output = F::Output;

    type Claim = F::Claim;

    ghost is_known = { λ all. F.is_known all.files };

    ghost holds = { λ all. F.holds all.files };

    ghost failing = { λ all. record {
      reading = λ name. (F.failing all.files).reading name ⊎ (name ≡ all.broken.now);
      writing = (F.failing all.files).writing;
      refused = (F.failing all.files).refused;
      in_use = (F.failing all.files).in_use;
    } };

    ghost is_alone_on = { F.is_alone_on };

    ghost is_to_read = { F.is_to_read };

    fn open(&self, name: &str) -> Result<BrokenInput<F::Input>, ReadFault> {
        Ok(BrokenInput {
            input: self.files.open(name)?,
            is_broken: name == self.broken,
            has_failed: false,
        })
    }

    fn open_again(&self, name: &str) -> Result<Option<BrokenInput<F::Input>>, HostReason> {
        match self.files.open_again(name) {
            Ok(Some(input)) => Ok(Some(BrokenInput {
                input,
                is_broken: name == self.broken,
                has_failed: false,
            })),
            Ok(None) => Ok(None),
            Err(reason) => Err(reason),
        }
    }

    fn create(&self, name: &str) -> Result<F::Output, WriteFault> {
        self.files.create(name)
    }

    fn why_not_made(&self, name: &str) -> Option<HostReason> {
        self.files.why_not_made(name)
    }

    fn put_in_place(&mut self, files: Vec<Written<F::Output>>) -> Result<(), WriteFault>
        ensures placed { OnOk result (F.is_known self.old.files → ArePlaced F.Output.is_known F.Output.written (F.holds self.new.files) files.items) }
        ensures kept { OnErr result (AreAsTheyWere (F.holds self.old.files) (F.holds self.new.files)) }
        ensures refused { result ≡ Err WriteFault.Unwritable → HasOneNamed (F.failing self.old.files).refused files.items }
        ensures known { F.is_known self.old.files → F.is_known self.new.files }
        ensures others { (other : List ℕ) → IsNoneNamed other files.items → IsAsItWas (F.holds self.old.files) (F.holds self.new.files) other }
    {
        self.files.put_in_place(files)
    }

    fn claim(&self, name: &str) -> Result<F::Claim, ClaimFault> {
        self.files.claim(name)
    }

    fn claim_to_read(&self, name: &str) -> Result<F::Claim, ClaimFault> {
        self.files.claim_to_read(name)
    }

    fn is_one_file(&self, first: &str, second: &str) -> Result<bool, AllocError> {
        self.files.is_one_file(first, second)
    }
}

impl Stage for BrokenFiles<MemoryFiles> {
    type Files = BrokenFiles<MemoryFiles>;

    fn files(&mut self) -> &mut BrokenFiles<MemoryFiles> {
        self
    }

    fn get(&self, alloc: Global, name: &str) -> Option<Vec<u8>> {
        Stage::get(&self.files, alloc, name)
    }

    fn put(&mut self, name: &str, bytes: Vec<u8>) -> Option<()> {
        Stage::put(&mut self.files, name, bytes)
    }

    fn clear(&mut self) -> bool {
        Stage::clear(&mut self.files)
    }

    fn does(&mut self, _verb: &str, _rest: &str) -> Option<bool> {
        None
    }
}

const BROKEN: &str =
    r#"# A book, replies and a new book that can't be read are unreadable files, and so is what is shown.
put broken BOOK
put batch BATCH
put replies 'older
1 switch serial broken batch replies after
! file 1
! broken: input or output failed
is replies 'older
none after
put book BOOK
put broken REPLIES
put after AFTER
1 switch audit book batch broken after
! file 1
! broken: input or output failed
put replies REPLIES
put broken AFTER
1 switch audit book batch replies broken
! file 1
! broken: input or output failed
1 switch show broken
! file 1
! broken: input or output failed
put broken TEXT
1 switch pack broken packed
! file 1
! broken: input or output failed
none packed

# A batch is one whose device failed, by every engine, and all files are as they were.
put book BOOK
put broken BATCH
put replies 'older
1 switch serial book broken replies after
! batch 7
! broken: input or output failed
1 switch run book broken replies after
! batch 7
! broken: input or output failed
1 switch run book broken replies after --engine split
! batch 7
! broken: input or output failed
1 switch run book broken replies after --journal journal
! batch 7
! broken: input or output failed
is replies 'older
none after
none journal
put replies REPLIES
put after AFTER
1 switch audit book broken replies after
! batch 7
! broken: input or output failed

# Of blocks none is kept, and the new book is the one before them.
put book BOOK
put broken TWO_BLOCKS
1 switch blocks book broken replies after
! batch 7
! kept 0
! broken: input or output failed
is replies
is after BOOK

# A file that is written, or that nobody reads, may have that name.
put book BOOK
put batch BATCH
0 switch serial book batch broken after
> decided 1
is broken REPLIES
is after AFTER
"#;

#[test]
fn a_device_that_fails_is_told_of_its_file(rt: HostRuntime) {
    let files = BrokenFiles {
        files: MemoryFiles::new(rt.alloc()),
        broken: "broken",
    };
    play_on(&rt, rt.alloc(), files, BROKEN);
}
