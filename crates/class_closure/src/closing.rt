//! The call that closes the classes of linked parts, or tells the first fault (X.722, sections 5.2 and 8; docs/PROFILE.md,
//! section 18).

ghost use Rattle.std.specs.Prelude.{◌≡◌, IfErr, IfOk, List, None, OnOk};
ghost use Rattle.asn1_names.specs.ModuleTerms.{ModuleTerm};
ghost use Rattle.asn1_names.specs.TermViews.{module_terms};
ghost use Rattle.linked_parts.specs.declared.linked.Linked.{Linked as LinkedTerm};
ghost use Rattle.filled_syntaxes.specs.AssignedValues.{AreAssignedValues};
ghost use Rattle.filled_syntaxes.specs.BadAssignments.{BadOfAssignments};
ghost use Rattle.filled_syntaxes.specs.KnownThings.{AreNamedThings};
ghost use Rattle.filled_syntaxes.specs.NotedTexts.{NotesTexts};
ghost use Rattle.class_faults.specs.CyclicFaults.{CyclicAttributeFaults};
ghost use Rattle.class_faults.specs.FaultSets.{Notes};
ghost use Rattle.class_faults.specs.FirstClassFault.{AreFaultless};
ghost use Rattle.class_faults.specs.NotedFaults.{TellsFirstFault};
ghost use Rattle.closing_laws.specs.NotedSteps.{AreClassFaults, AreCyclicFaults, AreNamedTexts, AreNotedTexts};
ghost use Rattle.schema_records.specs.ApartParts.{AreNoneUnequal};
ghost use Rattle.class_closure.specs.ClosedRecords.{AreClosedRecords, AreTemplateRecords, CanHaveRecords, IsClosed};
ghost use Rattle.class_closure.specs.ClosingStates.{AreStatedParts, HaveJoined};

use asn1_syntax::module::Module;
use asn1_types::Types;
use class_faults::{ClassRefusal, Faults, refusal_of};
use filled_syntaxes::{BadTexts, NamedThings};
use joined_properties::{Inheriting, Statement};
use joined_statements::AssignedValues;
use linked_parts::Linked;
use linked_types::{ClosingParts, TypeTable, types_of_parts};
use package_statements::{all_statements, note_packages};
use property_faults::note_classes;
use schema_records::class_records::{JoinedClasses, class_records};
use schema_records::member_records::{
    action_records, attribute_records, binding_records, group_records, notification_records,
};
use section_values::InstanceValues;
use section_values::instances::instance_values;
use section_values::rules::rule_records;
use std::alloc::{AllocError, Global};
use term_model::{ActRecs, AttrRecs, BindRecs, ClassRecs, GroupRecs, NoteRecs, RuleRecs};
use term_values::Value;

/// The records of a schema, but for its instances and the name of its system, which are made of the values of instances.
#[derive(Drop)]
pub struct Classes {
    /// The managed object classes, each with its packages and with its joined properties.
    pub classes: ClassRecs,
    /// The attributes that are registered.
    pub attributes: AttrRecs,
    /// The attribute groups.
    pub groups: GroupRecs,
    /// The name bindings.
    pub bindings: BindRecs,
    /// The actions.
    pub actions: ActRecs,
    /// The notifications.
    pub notifications: NoteRecs,
    /// The rules.
    pub rules: RuleRecs,
    /// The values of each instance of the linked parts, in their order.
    pub instances: Vec<InstanceValues>,
}

/// No records yet but those of sections.
fn section_records(alloc: Global, rules: RuleRecs, instances: Vec<InstanceValues>) -> Classes
    ensures rules { result.rules ≡ rules }
    ensures instances { result.instances ≡ instances }
{
    Classes {
        classes: ClassRecs::new(alloc),
        attributes: AttrRecs::new(alloc),
        groups: GroupRecs {
            items: Vec::new(alloc),
        },
        bindings: BindRecs {
            items: Vec::new(alloc),
        },
        actions: ActRecs {
            items: Vec::new(alloc),
        },
        notifications: NoteRecs {
            items: Vec::new(alloc),
        },
        rules,
        instances,
    }
}

/// Puts the records of templates in their places.
fn keep_records(
    parts: &ClosingParts,
    joined: &JoinedClasses,
    into: &mut Classes,
) -> Result<(), AllocError>
    ensures told { OnOk result ((ms : List ModuleTerm) → HaveJoined ms parts.now joined.now →
        CanHaveRecords ms parts.now.linked.now → AreNoneUnequal joined.now.properties.now →
        AreTemplateRecords ms parts.now.linked.now into.new) }
    ensures rules { into.new.rules ≡ into.old.rules }
    ensures instances { into.new.instances ≡ into.old.instances }
{
    into.classes = class_records(parts, joined)?;
    into.attributes = attribute_records(parts)?;
    into.groups = group_records(parts)?;
    into.bindings = binding_records(parts)?;
    into.actions = action_records(parts)?;
    into.notifications = notification_records(parts)?;
    Ok(())
}

/// The records, where there is no fault.
fn records_of(
    parts: &ClosingParts,
    joined: &JoinedClasses,
    rules: RuleRecs,
    instances: Vec<InstanceValues>,
) -> Result<Classes, AllocError>
    ensures told { IfOk result (λ x. (ms : List ModuleTerm) → HaveJoined ms parts.now joined.now →
        CanHaveRecords ms parts.now.linked.now → AreNoneUnequal joined.now.properties.now →
        AreTemplateRecords ms parts.now.linked.now x) }
    ensures rules { IfOk result (λ x. x.rules ≡ rules) }
    ensures instances { IfOk result (λ x. x.instances ≡ instances) }
{
    let mut records = section_records(parts.alloc, rules, instances);
    keep_records(parts, joined, &mut records)?;
    Ok(records)
}

/// Tells the first fault, where there is one.
fn tell_fault(bad: &BadTexts, faults: &mut Faults) -> Result<(), ClassRefusal>
    ensures faultless { OnOk result ((ms : List ModuleTerm) (linked : LinkedTerm) → AreNotedTexts ms linked bad.now.first →
        AreClassFaults ms linked faults.old.first → AreFaultless ms linked) }
    ensures cause { IfErr result (λ refusal. (ms : List ModuleTerm) (linked : LinkedTerm) →
        AreNotedTexts ms linked bad.now.first → AreClassFaults ms linked faults.old.first →
        TellsFirstFault ms linked refusal) }
{
    faults.note_texts(bad);
    match faults.first {
        Some(fault) => Err(refusal_of(fault)),
        None => Ok(()),
    }
}

/// Judges what is joined and the values of sections.
fn close_joined(
    parts: &ClosingParts,
    joined: &JoinedClasses,
    bad: &mut BadTexts,
    faults: &mut Faults,
) -> Result<Classes, ClassRefusal>
    ensures closed { IfOk result (λ x. (ms : List ModuleTerm) → HaveJoined ms parts.now joined.now →
        AreNamedTexts ms parts.now.linked.now bad.old.first → AreCyclicFaults parts.now.linked.now faults.old.first →
        IsClosed ms parts.now.linked.now x) }
    ensures cause { IfErr result (λ refusal. (ms : List ModuleTerm) → HaveJoined ms parts.now joined.now →
        AreNamedTexts ms parts.now.linked.now bad.old.first → AreCyclicFaults parts.now.linked.now faults.old.first →
        TellsFirstFault ms parts.now.linked.now refusal) }
{
    note_classes(parts, joined.properties, faults)?;
    note_packages(parts, faults)?;
    let rules = rule_records(parts, bad)?;
    let instances = instance_values(parts, bad)?;
    tell_fault(bad, faults)?;
    Ok(records_of(parts, joined, rules, instances)?)
}

/// Joins the properties of classes.
fn close_parts(
    parts: &ClosingParts,
    stated: &[Vec<Statement>],
    bad: &mut BadTexts,
    faults: &mut Faults,
) -> Result<Classes, ClassRefusal>
    ensures closed { IfOk result (λ x. (ms : List ModuleTerm) → AreStatedParts ms parts.now stated.now →
        AreNamedTexts ms parts.now.linked.now bad.old.first →
        Notes (CyclicAttributeFaults parts.now.linked.now.attributes.items) None faults.old.first →
        IsClosed ms parts.now.linked.now x) }
    ensures cause { IfErr result (λ refusal. (ms : List ModuleTerm) → AreStatedParts ms parts.now stated.now →
        AreNamedTexts ms parts.now.linked.now bad.old.first →
        Notes (CyclicAttributeFaults parts.now.linked.now.attributes.items) None faults.old.first →
        TellsFirstFault ms parts.now.linked.now refusal) }
{
    let inheriting = Inheriting {
        alloc: parts.alloc,
        classes: parts.linked.classes.as_slice(),
        stated,
        values: AssignedValues {
            items: parts.values,
        },
    };
    let properties = inheriting.properties(faults)?;
    let joined = JoinedClasses {
        stated,
        properties: properties.as_slice(),
    };
    close_joined(parts, &joined, bad, faults)
}

/// Closes the classes of linked parts, whose assignments have these values.
fn close_named(
    things: &NamedThings,
    linked: &Linked,
    values: &[Option<Value>],
    bad: &mut BadTexts,
) -> Result<Classes, ClassRefusal>
    ensures closed { IfOk result (λ x. (ms : List ModuleTerm) → AreNamedThings ms linked.now things.now →
        AreAssignedValues ms linked.now values.now → NotesTexts (BadOfAssignments ms linked.now) None bad.old.first →
        IsClosed ms linked.now x) }
    ensures cause { IfErr result (λ refusal. (ms : List ModuleTerm) → AreNamedThings ms linked.now things.now →
        AreAssignedValues ms linked.now values.now → NotesTexts (BadOfAssignments ms linked.now) None bad.old.first →
        TellsFirstFault ms linked.now refusal) }
{
    let mut faults = Faults { first: None };
    let mut table = TypeTable::new(things.alloc, values.len())?;
    let types = types_of_parts(things, linked, &mut table, bad, &mut faults)?;
    let stated = all_statements(things, values, &mut table, linked.packages.as_slice(), bad)?;
    let parts = ClosingParts {
        alloc: things.alloc,
        linked,
        things,
        table: &table,
        types: &types,
        values,
    };
    close_parts(&parts, stated.as_slice(), bad, &mut faults)
}

/// Closes the classes of linked parts: each class has what it states and what the classes state from which it derives,
/// and DEFAULTs and values stand evaluated; or tells the first fault, by document, by token and in the order of
/// [`ClassRefusal`]. `types` are the types of `modules`, of which the linked parts are. `Memory` comes where there is no
/// memory for the records. What is lent stays as it is.
pub fn close_classes<'a, 't>(
    alloc: Global,
    linked: &'t Linked,
    types: &'t Types<'a>,
    modules: &'a [Module],
) -> Result<Classes, ClassRefusal>
    // nothing is wrong with the classes
    ensures faultless { OnOk result (module_terms types.now ≡ module_terms modules.now →
        AreFaultless (module_terms modules.now) linked.now) }

    // the records are those of the linked parts, where these can have some
    ensures records { IfOk result (λ x. module_terms types.now ≡ module_terms modules.now →
        CanHaveRecords (module_terms modules.now) linked.now →
        AreClosedRecords (module_terms modules.now) linked.now x) }

    // the first fault
    ensures cause { IfErr result (λ refusal. module_terms types.now ≡ module_terms modules.now →
        TellsFirstFault (module_terms modules.now) linked.now refusal) }
{
    let things = NamedThings::new(alloc, modules, types, linked)?;
    let mut bad = BadTexts::none();
    let values = things.assigned_values(&mut bad)?;
    close_named(&things, &*linked, values.as_slice(), &mut bad)
}
