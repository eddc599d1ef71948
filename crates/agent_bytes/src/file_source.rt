//! An input of the runtime as a source.
ghost use Rattle.std.specs.Prelude.{◌≡◌, None};

use crate::count::counted_up;
use crate::failed::Failed;
use crate::source::Source;
use std::io::Read;
use std::marker::Model;

/// The most bytes that one call gives.
const MOST: usize = 8192;

/// A file of the runtime, or another of its inputs. It tells no bytes.
#[derive(Drop)]
pub struct FileSource<I: Read + Drop> {
    input: I,
    faults: u64,
}

impl<I: Read + Drop> Model for FileSource<I> {
    ghost use Rattle.std.specs.Prelude.{ℕ};

    // The count of faults is all that callers see.
    ghost Value = { ℕ };

    ghost view = { λ s. s.faults };
}

impl<I: Read + Drop> FileSource<I> {
    /// The source of what `input` has left, with no fault so far.
    pub fn new(input: I) -> FileSource<I>
        ensures { result ≡ 0 }
    {
        FileSource { input, faults: 0 }
    }

    /// How many calls have failed.
    pub fn faults(&self) -> u64
        ensures { result ≡ self.now }
    {
        self.faults
    }
}

impl<I: Read + Drop> Source for FileSource<I> {
    ghost left = { λ _. None };

    ghost faults = { λ count. count };

    // A failed read of the runtime may have written to its slice, so that it gets one of its own.
    fn read(&mut self, into: &mut [u8]) -> Result<usize, Failed> {
        let mut turn = [0u8; MOST];
        let most = into.len().min(MOST);
        match self.input.read(&mut turn[..most]) {
            Ok(count) => {
                into[..count].copy_from_slice(&turn[..count]);
                Ok(count)
            }
            Err(_) => {
                self.faults = counted_up(self.faults);
                Err(Failed)
            }
        }
    }
}
