//! Files in memory, for tests.
ghost use Rattle.std.specs.Prelude.{◌≡◌, ◌≢◌, ◌↔◌, ◌≤◌, [], ◌∷◌, ◌++◌, Err, Some, IfOk, OnOk, OnErr, vec_len};
ghost use Rattle.std.specs.Option.{option_copied};
ghost use Rattle.agent_bytes.specs.Faults.{Rose, one_more};
ghost use Rattle.agent_bytes.specs.Memory.{bytes_named, ReadFails, FindsTooLarge};

use crate::count::counted_up;
use crate::failed::FileRefusal;
use crate::files::Files;
use std::alloc::{AllocError, Global};
use std::marker::Model;

#[derive(Drop)]
struct MemFile {
    name: String,
    bytes: Vec<u8>,
}

impl Model for MemFile {
    ghost use Rattle.std.specs.Prelude.{ℕ, List, string_bytes};

    ghost Value = { List ℕ × List ℕ };

    ghost view = { λ file. (string_bytes file.name, file.bytes.items) };
}

/// Files that are kept in memory, with a list of the calls that are to fail.
#[derive(Drop)]
pub struct MemFiles {
    files: Vec<MemFile>,
    failing: Vec<u64>,
    calls: u64,
    faults: u64,
}

impl Model for MemFiles {
    ghost use Rattle.agent_bytes.specs.Memory.{FilesState};

    ghost Value = { FilesState };

    ghost view = { λ s. record {
      files = s.files.items;
      failing = s.failing.items;
      calls = s.calls;
      faults = s.faults;
    } };
}

impl MemFiles {
    /// No files. The calls of `read_file` whose numbers are in `failing` are to fail; the first
    /// call has the number 0.
    pub fn new(alloc: Global, failing: Vec<u64>) -> MemFiles
        ensures { result ≡ record { files = []; failing = failing.items; calls = 0; faults = 0 } }
    {
        MemFiles {
            files: Vec::new(alloc),
            failing,
            calls: 0,
            faults: 0,
        }
    }

    /// Adds a file. Of several with one name the first counts. `Err`: there is no memory.
    pub fn add(&mut self, alloc: Global, name: &str, bytes: &[u8]) -> Result<(), AllocError>
        ensures added { OnOk result (self.new ≡ record self.old {
          files = self.old.files ++ (name.now, bytes.now) ∷ [];
        }) }
        ensures kept { OnErr result (self.new ≡ self.old) }
    {
        let name = String::from_str(alloc, name)?;
        let bytes = bytes.to_vec(alloc)?;
        self.files.push(MemFile { name, bytes })?;
        Ok(())
    }

    /// How many calls there were.
    pub fn calls(&self) -> u64
        ensures { result ≡ self.now.calls }
    {
        self.calls
    }

    /// How many calls have failed.
    pub fn faults(&self) -> u64
        ensures { result ≡ self.now.faults }
    {
        self.faults
    }

    fn find(&self, name: &str) -> Option<&[u8]>
        ensures { option_copied result ≡ bytes_named self.now.files name.now }
    {
        for file in &self.files {
            if file.name.as_str() == name {
                return Some(file.bytes.as_slice());
            }
        }
        None
    }

    // The answer of the next call, before it is counted.
    fn answer(&self, alloc: Global, name: &str, limit: u64) -> Result<Vec<u8>, FileRefusal>
        ensures read { IfOk result (λ bytes.
            bytes_named self.now.files name.now ≡ Some bytes.items) }
        ensures within { IfOk result (λ bytes. vec_len bytes ≤ limit) }
        ensures fails { (result ≡ Err FileRefusal.Failed) ↔ ReadFails self.now name.now }
        ensures too_large { (result ≡ Err FileRefusal.TooLarge) ↔
            FindsTooLarge self.now name.now limit }
    {
        if self.failing.contains(&self.calls) {
            return Err(FileRefusal::Failed);
        }
        match self.find(name) {
            None => Err(FileRefusal::Failed),
            Some(bytes) => {
                if bytes.len() as u64 > limit {
                    return Err(FileRefusal::TooLarge);
                }
                match bytes.to_vec(alloc) {
                    Ok(copy) => Ok(copy),
                    Err(_) => Err(FileRefusal::Memory),
                }
            }
        }
    }
}

impl Files for MemFiles {
    ghost files = { λ state. Some (bytes_named state.files) };

    ghost faults = { λ state. state.faults };

    fn read_file(&mut self, alloc: Global, name: &str, limit: u64) -> Result<Vec<u8>, FileRefusal>
        // It fails exactly where `ReadFails` says, and finds too much as `FindsTooLarge` says.
        // Otherwise it gives the file's bytes, if there is memory.
        ensures fails { (result ≡ Err FileRefusal.Failed) ↔ ReadFails self.old name.now }
        ensures longer { (result ≡ Err FileRefusal.TooLarge) ↔
            FindsTooLarge self.old name.now limit }
        ensures read { IfOk result (λ bytes.
            bytes_named self.old.files name.now ≡ Some bytes.items) }
        ensures within { IfOk result (λ bytes. vec_len bytes ≤ limit) }

        // Each call is counted, and nothing else changes.
        ensures called { result ≢ Err FileRefusal.Failed →
            self.new ≡ record self.old { calls = one_more self.old.calls } }
        ensures refused { result ≡ Err FileRefusal.Failed → self.new ≡ record self.old {
          calls = one_more self.old.calls;
          faults = one_more self.old.faults;
        } }

        // As all files.
        ensures failed { result ≡ Err FileRefusal.Failed → Rose self.old.faults self.new.faults }
        ensures counted { self.old.faults ≤ self.new.faults }
    {
        let answer = self.answer(alloc, name, limit);
        self.calls = counted_up(self.calls);
        if let Err(FileRefusal::Failed) = answer {
            self.faults = counted_up(self.faults);
        }
        answer
    }
}
