//! The files that the words of a command name, read in their order (docs/OPERATING.md, Limits).

ghost use Rattle.std.specs.Prelude.{◌≡◌, ◌≤◌, [], ◌∷◌, length, map, string_bytes, IfErr, IfOk, OnOk};
ghost use Rattle.agent_bytes.specs.Told.{IsFile};
ghost use Rattle.agent_run.specs.Files.{AreDocuments, IsDocumentIn, document_files, most_document};
ghost use Rattle.agent_run.specs.Refusing.{HasFileCause, KeepsCount};

use crate::refusal::Refusal;
use agent_bytes::{FileRefusal, Files};
use set_commands::Doc;
use std::alloc::Global;

/// The most bytes of a document.
const MOST_DOCUMENT: u64 = 4_194_304;

/// The bytes of a file, of which there may be so many.
pub(crate) fn read_file<'a, F: Files>(
    alloc: Global,
    files: &mut F,
    name: &'a str,
    limit: u64,
) -> Result<Vec<u8>, Refusal<'a>>
    ensures told { IfOk result (λ bytes. IsFile (F.files files.old) name.now bytes.items) }
    ensures within { IfOk result (λ bytes. length bytes.items ≤ limit) }
    ensures same { F.files files.new ≡ F.files files.old }
    ensures quiet { OnOk result (F.faults files.new ≡ F.faults files.old) }
    ensures kept { IfErr result (KeepsCount (F.faults files.old) (F.faults files.new)) }
    ensures cause { IfErr result (HasFileCause (F.files files.old) (record { name = name.now; limit = limit } ∷ [])
        (F.faults files.old) (F.faults files.new)) }
    ensures counted { F.faults files.old ≤ F.faults files.new }
{
    match files.read_file(alloc, name, limit) {
        Ok(bytes) => Ok(bytes),
        Err(FileRefusal::Failed) => Err(Refusal::FileFault(name)),
        Err(FileRefusal::TooLarge) => Err(Refusal::FileTooLarge(name)),
        Err(FileRefusal::Memory) => Err(Refusal::OutOfMemory),
    }
}

/// The document in a file.
fn read_document<'a, F: Files>(
    alloc: Global,
    files: &mut F,
    name: &'a str,
) -> Result<Doc, Refusal<'a>>
    ensures told { IfOk result (IsDocumentIn (F.files files.old) name.now) }
    ensures same { F.files files.new ≡ F.files files.old }
    ensures quiet { OnOk result (F.faults files.new ≡ F.faults files.old) }
    ensures kept { IfErr result (KeepsCount (F.faults files.old) (F.faults files.new)) }
    ensures cause { IfErr result (HasFileCause (F.files files.old) (document_files (name.now ∷ []))
        (F.faults files.old) (F.faults files.new)) }
    ensures counted { F.faults files.old ≤ F.faults files.new }
{
    let bytes = read_file(alloc, files, name, MOST_DOCUMENT)?;
    match String::from_str(alloc, name) {
        Ok(called) => Ok(Doc {
            name: called,
            bytes,
        }),
        Err(_) => Err(Refusal::OutOfMemory),
    }
}

/// The documents in files, in their order.
pub(crate) fn read_documents<'a, F: Files>(
    alloc: Global,
    files: &mut F,
    names: &'a [String],
) -> Result<Vec<Doc>, Refusal<'a>>
    ensures told { IfOk result (λ docs. AreDocuments (F.files files.old) (map string_bytes names.now) docs.items) }
    ensures same { F.files files.new ≡ F.files files.old }
    ensures quiet { OnOk result (F.faults files.new ≡ F.faults files.old) }
    ensures kept { IfErr result (KeepsCount (F.faults files.old) (F.faults files.new)) }
    ensures cause { IfErr result (HasFileCause (F.files files.old) (document_files (map string_bytes names.now))
        (F.faults files.old) (F.faults files.new)) }
    ensures counted { F.faults files.old ≤ F.faults files.new }
{
    let mut documents = Vec::new(alloc);
    for name in names {
        let document = read_document(alloc, files, name.as_str())?;
        if documents.push(document).is_err() {
            return Err(Refusal::OutOfMemory);
        }
    }
    Ok(documents)
}
