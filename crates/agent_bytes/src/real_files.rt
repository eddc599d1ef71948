//! The runtime's files.
ghost use Rattle.std.specs.Prelude.{◌≡◌, None};

use crate::count::counted_up;
use crate::failed::FileRefusal;
use crate::file_source::FileSource;
use crate::files::Files;
use crate::reading::read_up_to;
use std::alloc::Global;
use std::marker::Model;
use std::{fs, rt};

/// The files of the runtime. They tell no bytes.
#[derive(Drop)]
pub struct RealFiles<'a, R: rt::Files> {
    rt: &'a R,
    faults: u64,
}

impl<'a, R: rt::Files> Model for RealFiles<'a, R> {
    ghost use Rattle.std.specs.Prelude.{ℕ};

    // The count of faults is all that callers see.
    ghost Value = { ℕ };

    ghost view = { λ s. s.faults };
}

impl<'a, R: rt::Files> RealFiles<'a, R> {
    /// The files of `rt`, with no fault so far.
    pub fn new(rt: &'a R) -> RealFiles<'a, R>
        ensures { result ≡ 0 }
    {
        RealFiles { rt, faults: 0 }
    }

    /// How many calls have failed.
    pub fn faults(&self) -> u64
        ensures { result ≡ self.now }
    {
        self.faults
    }
}

impl<'a, R: rt::Files> Files for RealFiles<'a, R> {
    ghost files = { λ _. None };

    ghost faults = { λ count. count };

    fn read_file(&mut self, alloc: Global, name: &str, limit: u64) -> Result<Vec<u8>, FileRefusal> {
        let answer = match fs::open(self.rt, name) {
            Ok(file) => read_up_to(&mut FileSource::new(file), alloc, limit),
            Err(_) => Err(FileRefusal::Failed),
        };
        if let Err(FileRefusal::Failed) = answer {
            self.faults = counted_up(self.faults);
        }
        answer
    }
}
