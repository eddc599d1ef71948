//! Documents compiled, their objects opened, and what is printed of them (X.722; docs/PROFILE.md, sections 2, 16 and
//! 19).

ghost use Rattle.std.specs.Prelude.{◌≡◌, ◌≤◌, ◌<◌, length, true, IfErr, IfOk, OnOk};
ghost use Rattle.set_commands.specs.CommandTexts.{AreAccepted, AreOpened, HasCause, HasObjects, HasOpeningCause};
ghost use Rattle.set_commands.specs.CommandTexts.{IsChecked, IsReported};
ghost use Rattle.set_commands.specs.CountLines.{count_lines};
ghost use Rattle.template_compile.specs.Counting.{IsCompiled};

use crate::count_lines::write_count_lines;
use crate::refusal::{SetRefusal, of_compiling, of_opening};
use mib_opening::opening;
use object_maps::ObjectMap;
use set_report::report_text;
use std::alloc::{AllocError, Global};
use std::marker::Brand;
use std::sync::ledger::{Blank, Ledger};
use template_compile::{Compiled, Counts, Doc, compile_documents};
use term_model::{Set, Steps, Tally};

/// The compiled documents.
fn compiled(alloc: Global, documents: &[Doc]) -> Result<Compiled, SetRefusal>
    requires few { length documents.now ≤ 64 }
    ensures compiled { IfOk result (λ x. IsCompiled documents.now x.schema x.counts x.has_instances) }
    ensures cause { IfErr result (HasCause documents.now) }
{
    match compile_documents(alloc, documents) {
        Ok(compiled) => Ok(compiled),
        Err(refusal) => Err(of_compiling(&refusal)),
    }
}

/// How many objects a schema has at the opening. The looks into their map are counted on a ledger of their own.
fn opened_count<N: Ledger>(alloc: Global, schema: &Set, blank: Blank) -> Result<u64, SetRefusal>
    requires name { blank.name ≡ N.name }
    requires parts { blank.parts ≡ N.parts }
    requires some { 0 < blank.parts }
    ensures count { IfOk result (HasObjects schema.now true) }
    ensures cause { IfErr result (HasOpeningCause schema.now) }
{
    let mut steps = Steps::start(Tally::<N>::open(blank));
    match opening(alloc, schema, &mut steps) {
        Ok(objects) => Ok(objects.len()),
        Err(refusal) => Err(of_opening(&refusal)),
    }
}

/// How many objects there are at the opening: none where no section INSTANCES stands.
fn object_count(alloc: Global, compiled: &Compiled) -> Result<u64, SetRefusal>
    ensures count { IfOk result (HasObjects compiled.now.schema compiled.now.has_instances) }
    ensures cause { IfErr result (λ refusal. (compiled.now.has_instances ≡ true)
        × HasOpeningCause compiled.now.schema refusal) }
{
    if compiled.has_instances {
        opened_count::<Brand>(alloc, &compiled.schema, Blank::new(1))
    } else {
        Ok(0)
    }
}

/// The compiled documents, and how many objects they have.
fn opened(alloc: Global, documents: &[Doc]) -> Result<(Compiled, u64), SetRefusal>
    requires few { length documents.now ≤ 64 }
    ensures opened { IfOk result (λ x. AreOpened documents.now x.0.schema x.0.counts x.1) }
    ensures cause { IfErr result (HasCause documents.now) }
{
    let compiled = compiled(alloc, documents)?;
    match object_count(alloc, &compiled) {
        Ok(objects) => Ok((compiled, objects)),
        Err(refusal) => {
            drop(compiled);
            Err(refusal)
        }
    }
}

fn text_of_counts(alloc: Global, counts: &Counts, objects: u64) -> Result<Vec<u8>, AllocError>
    ensures { IfOk result (λ text. text.items ≡ count_lines counts.now objects) }
{
    let mut text = Vec::new(alloc);
    write_count_lines(counts, objects, &mut text)?;
    Ok(text)
}

/// What `check` prints of 1 to 64 documents: how many documents, templates of each kind, types, and objects at the
/// opening there are, a line for each. Objects are opened where a section INSTANCES stands.
///
/// `BadDocument` has the first fault of the documents, `BadInstance` the first instance that can't be opened.
pub fn check_text(alloc: Global, documents: &[Doc]) -> Result<Vec<u8>, SetRefusal>
    requires few { length documents.now ≤ 64 }
    ensures text { IfOk result (λ text. IsChecked documents.now text.items) }
    ensures cause { IfErr result (HasCause documents.now) }
{
    let (compiled, objects) = opened(alloc, documents)?;
    let text = text_of_counts(alloc, &compiled.counts, objects);
    drop(compiled);
    Ok(text?)
}

/// What `report` prints of 1 to 64 documents: the text of the schema to which they are compiled. Objects are opened as
/// for `check`, and the refusals are the same.
pub fn schema_text(alloc: Global, documents: &[Doc]) -> Result<Vec<u8>, SetRefusal>
    requires few { length documents.now ≤ 64 }
    ensures text { IfOk result (λ text. IsReported documents.now text.items) }
    ensures cause { IfErr result (HasCause documents.now) }
{
    let (compiled, _) = opened(alloc, documents)?;
    let text = report_text(alloc, &compiled.schema);
    drop(compiled);
    Ok(text?)
}

/// Says whether 1 to 64 documents are accepted, with the refusals of `check`.
pub fn judge(alloc: Global, documents: &[Doc]) -> Result<(), SetRefusal>
    requires few { length documents.now ≤ 64 }
    ensures accepted { OnOk result (AreAccepted documents.now) }
    ensures cause { IfErr result (HasCause documents.now) }
{
    let _ = opened(alloc, documents)?;
    Ok(())
}
