//! The phases one after the other: lexing, syntax, modules, labels, classes (X.722; docs/PROFILE.md, section 2).

ghost use Rattle.std.specs.Prelude.{◌≡◌, ◌≤◌, length, IfErr, IfOk, List};
ghost use Rattle.std.specs.List.{list_any};
ghost use Rattle.asn1_names.specs.ModuleTerms.{ModuleTerm};
ghost use Rattle.class_closure.specs.ClosedRecords.{AreClosedRecords};
ghost use Rattle.document_parts.specs.ReadDocuments.{AreLexed};
ghost use Rattle.instance_records.specs.RegisteredInstances.{AreRegisteredInstances};
ghost use Rattle.template_compile.specs.Acceptance.{AreAccepted, AreAcceptedAs, AreResolved, IsSchemaOf, SayParts};
ghost use Rattle.template_compile.specs.Counting.{IsCompiled, is_instances};
ghost use Rattle.template_compile.specs.DocumentFaults.{HasCause};

use crate::counts::Counts;
use crate::fault_lines::{
    refusal_of_classes, refusal_of_labels, refusal_of_modules, refusal_of_octets, refusal_of_tokens,
};
use crate::refusal::CompileRefusal;
use crate::template_counts::counts_of;
use asn1_resolve::resolve_modules;
use asn1_types::Types;
use class_closure::{Classes, close_classes};
use document_parts::{Doc, lex_documents, read_documents};
use extra_syntax::Section;
use gdmo_names::Parsed;
use gdmo_resolve::resolve_labels;
use instance_records::instance_records;
use linked_parts::Linked;
use std::alloc::{AllocError, Global};
use term_model::Set;
use text_lex::Token;

/// A compiled set of documents.
#[derive(Drop)]
pub struct Compiled {
    /// The records that the documents define.
    pub schema: Set,
    /// How many documents, templates of each kind and types there are.
    pub counts: Counts,
    /// A section INSTANCES stands among them.
    pub has_instances: bool,
}

/// The tokens of documents, or the fault of the first phase.
fn lexed(alloc: Global, documents: &[Doc]) -> Result<Vec<Vec<Token>>, CompileRefusal>
    requires few { length documents.now ≤ 64 }
    ensures lexed { IfOk result (λ lists. AreLexed documents.now lists.items) }
    ensures cause { IfErr result (HasCause documents.now) }
{
    match lex_documents(alloc, documents) {
        Ok(lists) => Ok(lists),
        Err(refusal) => Err(refusal_of_octets(documents, &refusal)),
    }
}

/// What documents say, or the fault of the second phase.
fn parsed(alloc: Global, documents: &[Doc], lists: &[Vec<Token>]) -> Result<Parsed, CompileRefusal>
    requires few { length lists.now ≤ 64 }
    requires lexed { AreLexed documents.now lists.now }
    ensures said { IfOk result (SayParts documents.now) }
    ensures cause { IfErr result (HasCause documents.now) }
{
    match read_documents(alloc, lists) {
        Ok(parts) => Ok(parts),
        Err(refusal) => Err(refusal_of_tokens(documents, lists, &refusal)),
    }
}

/// The records of closed classes and of instances.
fn schema_of(alloc: Global, linked: &Linked, classes: Classes) -> Result<Set, AllocError>
    ensures { IfOk result (λ schema. (ms : List ModuleTerm) → AreClosedRecords ms linked.now classes →
        AreRegisteredInstances linked.now → IsSchemaOf ms linked.now schema) }
{
    let (instances, system) = instance_records(
        alloc,
        linked,
        &classes.attributes,
        classes.instances.as_slice(),
    )?;
    Ok(Set {
        classes: classes.classes,
        attributes: classes.attributes,
        groups: classes.groups,
        bindings: classes.bindings,
        actions: classes.actions,
        notifications: classes.notifications,
        rules: classes.rules,
        instances,
        system,
    })
}

/// The schema of parts with these types, or the fault of the fourth or the fifth phase.
fn closed(
    alloc: Global,
    documents: &[Doc],
    parts: &Parsed,
    types: &Types,
) -> Result<Set, CompileRefusal>
    requires resolved { AreResolved documents.now parts.now }
    requires modules { types.now ≡ parts.now.modules.items }
    ensures accepted { IfOk result (AreAcceptedAs documents.now parts.now) }
    ensures cause { IfErr result (HasCause documents.now) }
{
    let linked = match resolve_labels(alloc, parts, types) {
        Ok(linked) => linked,
        Err(refusal) => return Err(refusal_of_labels(documents, &refusal)),
    };
    match close_classes(alloc, &linked, types, parts.modules.as_slice()) {
        Ok(classes) => Ok(schema_of(alloc, &linked, classes)?),
        Err(refusal) => Err(refusal_of_classes(documents, &refusal)),
    }
}

/// The schema of parts, or the fault of the third phase or of a later one.
fn resolved(alloc: Global, documents: &[Doc], parts: &Parsed) -> Result<Set, CompileRefusal>
    requires said { SayParts documents.now parts.now }
    ensures accepted { IfOk result (AreAcceptedAs documents.now parts.now) }
    ensures cause { IfErr result (HasCause documents.now) }
{
    match resolve_modules(alloc, parts.modules.as_slice()) {
        Ok(types) => closed(alloc, documents, parts, &types),
        Err(refusal) => Err(refusal_of_modules(documents, parts, &refusal)),
    }
}

/// Whether a section INSTANCES stands among sections.
fn has_instances(sections: &[Section]) -> bool
    ensures { result ≡ list_any is_instances sections.now }
{
    for section in sections.iter() {
        if let Section::Instances(_) = section {
            return true;
        }
    }
    false
}

/// Compiles 1 to 64 documents, and tells how many parts of each kind they have.
///
/// `BadDocument` has the first fault: by phase, by document, by place, and at one place in the order of `Kind`.
/// `Memory` comes where there is no memory for the records.
pub fn compile_documents(alloc: Global, documents: &[Doc]) -> Result<Compiled, CompileRefusal>
    requires few { length documents.now ≤ 64 }

    // the documents say some parts, of which nothing is wrong in the modules, with the references and with the
    // classes; the schema has their records, and they are counted
    ensures compiled { IfOk result (λ x. IsCompiled documents.now x.schema x.counts x.has_instances) }

    // the fault that is told is the one by which the documents are refused
    ensures cause { IfErr result (HasCause documents.now) }
{
    let lists = lexed(alloc, documents)?;
    let parts = parsed(alloc, documents, lists.as_slice())?;
    let schema = resolved(alloc, documents, &parts)?;
    let counts = counts_of(alloc, documents, &parts)?;
    Ok(Compiled {
        schema,
        counts,
        has_instances: has_instances(parts.sections.as_slice()),
    })
}

/// Compiles 1 to 64 documents to the records that they define.
///
/// `BadDocument` has the first fault: by phase, by document, by place, and at one place in the order of `Kind`.
/// `Memory` comes where there is no memory for the records.
pub fn compile(alloc: Global, documents: &[Doc]) -> Result<Set, CompileRefusal>
    requires few { length documents.now ≤ 64 }
    ensures accepted { IfOk result (AreAccepted documents.now) }
    ensures cause { IfErr result (HasCause documents.now) }
{
    let compiled = compile_documents(alloc, documents)?;
    Ok(compiled.schema)
}
