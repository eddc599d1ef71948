//! The files of a table: each row that runs or reads one finds those that earlier rows stored.

use crate::texts::{add_numbered, add_text, changed, first_number, first_word};
use agent_bytes::{Files, MemFiles, RealFiles};
use std::alloc::{AllocError, Global};

/// The most octets of a file of the system that is stored.
const MOST: u64 = 65_536;

/// A file of the table.
#[derive(Drop)]
struct StoredFile {
    name: String,
    text: String,
}

/// The files of a table, in the order in which they were stored.
#[derive(Drop)]
pub(crate) struct StoredFiles {
    items: Vec<StoredFile>,
}

impl StoredFiles {
    /// No files.
    pub(crate) fn new(alloc: Global) -> StoredFiles {
        StoredFiles {
            items: Vec::new(alloc),
        }
    }

    /// `clear`: forgets all files.
    pub(crate) fn clear(&mut self) {
        self.items.clear();
    }

    /// `file NAME TEXT`: stores a file.
    pub(crate) fn store(&mut self, alloc: Global, row: &str) -> Result<(), AllocError> {
        let (name, text) = first_word(row);
        let name = String::from_str(alloc, name)?;
        let text = self.whole_text(alloc, text)?;
        self.items.push(StoredFile { name, text })?;
        Ok(())
    }

    /// The text that a row's text stands for, where a word `$NAME` stands for the text of the file of this name.
    pub(crate) fn whole_text(&self, alloc: Global, text: &str) -> Result<String, AllocError> {
        let mut whole = String::new(alloc);
        let mut is_first = true;
        for word in text.split(' ') {
            if !is_first {
                whole.push(' ')?;
            }
            self.add_word(word, &mut whole)?;
            is_first = false;
        }
        Ok(whole)
    }

    /// Appends what a word of a row's text stands for.
    fn add_word(&self, word: &str, into: &mut String) -> Result<(), AllocError> {
        match word.strip_prefix("$") {
            Some(name) => into.push_str(self.text(name)),
            None => add_text(word, into),
        }
    }

    /// `load NAME FILE`: stores a file of the system, which is named from the folder in which the program runs; an
    /// empty text where it can't be read.
    pub(crate) fn load(&mut self, rt: &HostRuntime, row: &str) -> Result<(), AllocError> {
        let alloc = rt.alloc();
        let (name, file) = first_word(row);
        let name = String::from_str(alloc, name)?;
        let text = match RealFiles::new(rt).read_file(alloc, file, MOST) {
            Ok(bytes) => text_in(alloc, &bytes)?,
            Err(_) => String::new(alloc),
        };
        self.items.push(StoredFile { name, text })?;
        Ok(())
    }

    /// `each FIRST LAST TEXT`: appends a text to the file stored last, once for each number, which stands for `#` in
    /// it.
    pub(crate) fn store_each(&mut self, row: &str) -> Result<(), AllocError> {
        let (first, row) = first_number(row);
        let (last, text) = first_number(row);
        match self.items.last_mut() {
            Some(file) => add_each(first, last, text, &mut file.text),
            None => Ok(()),
        }
    }

    /// `double COUNT`: writes the file stored last twice, so many times.
    pub(crate) fn double(&mut self, alloc: Global, row: &str) -> Result<(), AllocError> {
        let (count, _rest) = first_number(row);
        match self.items.last_mut() {
            Some(file) => add_doubles(alloc, count, &mut file.text),
            None => Ok(()),
        }
    }

    /// The text of the first file of a name; empty where there is none.
    pub(crate) fn text(&self, name: &str) -> &str {
        for file in &self.items {
            if file.name.as_str() == name {
                return file.text.as_str();
            }
        }
        ""
    }

    /// The files in memory, of which the calls that are listed fail.
    pub(crate) fn in_memory(
        &self,
        alloc: Global,
        failing: Vec<u64>,
    ) -> Result<MemFiles, AllocError> {
        let mut files = MemFiles::new(alloc, failing);
        for file in &self.items {
            files.add(alloc, file.name.as_str(), file.text.as_bytes())?;
        }
        Ok(files)
    }

    /// The same files in memory, with a piece of the file of a name replaced by another.
    pub(crate) fn with_change(
        &self,
        alloc: Global,
        name: &str,
        old: &str,
        new: &str,
    ) -> Result<MemFiles, AllocError> {
        let mut files = MemFiles::new(alloc, Vec::new(alloc));
        let text = changed(alloc, self.text(name), old, new)?;
        files.add(alloc, name, text.as_bytes())?;
        for file in &self.items {
            files.add(alloc, file.name.as_str(), file.text.as_bytes())?;
        }
        Ok(files)
    }
}

/// The text that octets are; empty where they are none.
fn text_in(alloc: Global, octets: &[u8]) -> Result<String, AllocError> {
    match std::str::from_utf8(octets) {
        Ok(text) => String::from_str(alloc, text),
        Err(_) => Ok(String::new(alloc)),
    }
}

/// Appends a text once for each number.
fn add_each(first: u64, last: u64, text: &str, into: &mut String) -> Result<(), AllocError> {
    for number in first..=last {
        add_numbered(number, text, into)?;
    }
    Ok(())
}

/// Appends a text to itself, so many times.
fn add_doubles(alloc: Global, count: u64, text: &mut String) -> Result<(), AllocError> {
    for _ in 0..count {
        let copy = String::from_str(alloc, text.as_str())?;
        text.push_str(copy.as_str())?;
    }
    Ok(())
}
