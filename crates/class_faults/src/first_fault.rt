//! Which fault of classes is told: the least by document, then by token, then in the order of the faults
//! (docs/PROFILE.md, section 18).

ghost use Rattle.std.specs.Prelude.{◌≡◌, ◌⊎◌, List, IsTrue, IsFalse, IfSome, Some, true, false, slice_get, unwrap_or};
ghost use Rattle.asn1_names.specs.ModuleTerms.{ModuleTerm};
ghost use Rattle.linked_parts.specs.declared.linked.Linked.{Linked};
ghost use Rattle.class_faults.specs.FaultSets.{FirstText, Notes, OneFault, ThisFault};
ghost use Rattle.class_faults.specs.FirstClassFault.{IsFirstFault, fault_rank};
ghost use Rattle.class_faults.specs.FirstClassFault.ClassFault.{ClassCyclic};
ghost use Rattle.class_faults.specs.NotedFaults.{IsNotLater, TellsFirstFault, kind_of};

use crate::refusal::ClassRefusal;
use filled_syntaxes::BadTexts;
use token_grammar::Token;

/// What is wrong with a class, an attribute, a package or a value.
#[derive(Clone, Copy)]
pub enum FaultKind {
    /// It derives from itself.
    CyclicClass,
    /// Two defaults are unequal.
    UnequalDefault,
    /// No value is permitted.
    EmptyPermitted,
    /// It is no set.
    NotSetValued,
    /// The value doesn't fit.
    BadValue,
}

/// A fault.
#[derive(Clone, Copy)]
pub struct ClassFault {
    /// The document's number.
    pub document: u32,
    /// The place of the token in the document, in octets.
    pub token: u64,
    /// What is wrong.
    pub kind: FaultKind,
}

fn rank(kind: FaultKind) -> u8
    ensures { result ≡ fault_rank (kind_of kind) }
{
    match kind {
        FaultKind::CyclicClass => 0,
        FaultKind::UnequalDefault => 1,
        FaultKind::EmptyPermitted => 2,
        FaultKind::NotSetValued => 3,
        FaultKind::BadValue => 4,
    }
}

/// Whether a fault stands before another one.
fn is_before(a: &ClassFault, b: &ClassFault) -> bool
    ensures before { IsTrue result → IsNotLater a.now b.now }
    ensures behind { IsFalse result → IsNotLater b.now a.now }
{
    if a.document != b.document {
        return a.document < b.document;
    }
    if a.token != b.token {
        return a.token < b.token;
    }
    rank(a.kind) < rank(b.kind)
}

/// The earlier one of a fault that was found before, where there is one, and a further one.
pub fn earlier_fault(before: Option<ClassFault>, fault: ClassFault) -> ClassFault
    ensures one { (result ≡ fault) ⊎ (before ≡ Some result) }
    ensures no_later { IsNotLater result fault }
    ensures least { IfSome before (λ other. IsNotLater result other) }
{
    match before {
        Some(other) => {
            if is_before(&fault, &other) {
                fault
            } else {
                other
            }
        }
        None => fault,
    }
}

/// The refusal that tells a fault.
pub fn refusal_of(fault: ClassFault) -> ClassRefusal
    ensures { (ms : List ModuleTerm) (linked : Linked) →
        IsFirstFault ms linked (kind_of fault.kind) fault.document fault.token → TellsFirstFault ms linked result }
{
    let document = fault.document;
    let token = fault.token;
    match fault.kind {
        FaultKind::CyclicClass => ClassRefusal::CyclicClass { document, token },
        FaultKind::UnequalDefault => ClassRefusal::UnequalDefault { document, token },
        FaultKind::EmptyPermitted => ClassRefusal::EmptyPermitted { document, token },
        FaultKind::NotSetValued => ClassRefusal::NotSetValued { document, token },
        FaultKind::BadValue => ClassRefusal::BadValue { document, token },
    }
}

/// Whether an element is marked.
fn is_marked(marks: &[bool], place: usize) -> bool
    ensures { result ≡ unwrap_or (slice_get marks.now place) false }
{
    match marks.get(place) {
        Some(mark) => *mark,
        None => false,
    }
}

/// The first of the faults that were found.
#[derive(Drop)]
pub struct Faults {
    /// It, where there is one.
    pub first: Option<ClassFault>,
}

impl Faults {
    /// Notes a fault.
    pub fn add(&mut self, fault: ClassFault)
        ensures { Notes (ThisFault (kind_of fault.kind) fault.document fault.token) self.old.first self.new.first }
    {
        self.first = Some(earlier_fault(self.first, fault));
    }

    /// Notes that this is wrong at a token of a document.
    pub fn note(&mut self, document: u32, token: &Token, kind: FaultKind)
        ensures { Notes (ThisFault (kind_of kind) document token.now.at) self.old.first self.new.first }
    {
        self.add(ClassFault {
            document,
            token: token.at,
            kind,
        });
    }

    /// Notes that what has this label derives from itself, where it is marked.
    pub fn note_cyclic(&mut self, document: u32, label: &Token, marks: &[bool], place: usize)
        ensures { Notes (OneFault (slice_get marks.now place ≡ Some true) ClassCyclic document label.now.at)
            self.old.first self.new.first }
    {
        if is_marked(marks, place) {
            return self.note(document, label, FaultKind::CyclicClass);
        }
    }

    /// Notes the first of the texts that denote no value.
    pub fn note_texts(&mut self, bad: &BadTexts)
        ensures { Notes (FirstText bad.now.first) self.old.first self.new.first }
    {
        match bad.first {
            Some(place) => self.add(ClassFault {
                document: place.document,
                token: place.token,
                kind: FaultKind::BadValue,
            }),
            None => {}
        }
    }
}
