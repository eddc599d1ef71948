//! Which fault of references is told: the least by document, then by token, then in the order of the faults
//! (docs/PROFILE.md, section 12).

ghost use Rattle.std.specs.Prelude.{◌≡◌, ◌⊎◌, IsTrue, IsFalse, IfSome, Some};
ghost use Rattle.gdmo_names.specs.FaultSets.{Notes, ThisFault};
ghost use Rattle.gdmo_names.specs.FirstLabelFault.{IsFirstFault, TellsFirstFault, fault_rank};
ghost use Rattle.gdmo_names.specs.NotedFaults.{IsNotLater, kind_of};
ghost use Rattle.gdmo_names.specs.PartTerms.{PartTerms};

use crate::refusal::LabelRefusal;
use token_grammar::Token;

/// What is wrong with a reference.
#[derive(Clone, Copy)]
pub enum FaultKind {
    /// No template, module, type or value has the name.
    UnknownLabel,
    /// What the name means may not stand there.
    WrongKind,
    /// A name has two meanings.
    DoubleLabel,
    /// Two templates are registered under one identifier.
    DoubleIdentifier,
}

/// A fault.
#[derive(Clone, Copy)]
pub struct LabelFault {
    /// The document's number.
    pub document: u32,
    /// The place of the token in the document, in octets.
    pub token: u64,
    /// What is wrong.
    pub kind: FaultKind,
}

fn rank(kind: FaultKind) -> u8
    ensures { result ≡ fault_rank (kind_of kind) }
{
    match kind {
        FaultKind::UnknownLabel => 0,
        FaultKind::WrongKind => 1,
        FaultKind::DoubleLabel => 2,
        FaultKind::DoubleIdentifier => 3,
    }
}

/// Whether a fault stands before another one.
fn is_before(a: &LabelFault, b: &LabelFault) -> bool
    ensures before { IsTrue result → IsNotLater a.now b.now }
    ensures behind { IsFalse result → IsNotLater b.now a.now }
{
    if a.document != b.document {
        return a.document < b.document;
    }
    if a.token != b.token {
        return a.token < b.token;
    }
    rank(a.kind) < rank(b.kind)
}

/// The earlier one of a fault that was found before, where there is one, and a further one.
pub fn earlier_fault(before: Option<LabelFault>, fault: LabelFault) -> LabelFault
    ensures one { (result ≡ fault) ⊎ (before ≡ Some result) }
    ensures no_later { IsNotLater result fault }
    ensures least { IfSome before (λ other. IsNotLater result other) }
{
    match before {
        Some(other) => {
            if is_before(&fault, &other) {
                fault
            } else {
                other
            }
        }
        None => fault,
    }
}

/// The refusal that tells a fault.
pub fn refusal_of(fault: LabelFault) -> LabelRefusal
    ensures { (parts : PartTerms) → IsFirstFault parts (kind_of fault.kind) fault.document fault.token →
        TellsFirstFault parts result }
{
    let document = fault.document;
    let token = fault.token;
    match fault.kind {
        FaultKind::UnknownLabel => LabelRefusal::UnknownLabel { document, token },
        FaultKind::WrongKind => LabelRefusal::WrongKind { document, token },
        FaultKind::DoubleLabel => LabelRefusal::DoubleLabel { document, token },
        FaultKind::DoubleIdentifier => LabelRefusal::DoubleIdentifier { document, token },
    }
}

/// The first of the faults that were found.
#[derive(Drop)]
pub struct Faults {
    /// It, where there is one.
    pub first: Option<LabelFault>,
}

impl Faults {
    /// Notes that this is wrong at a token of a document.
    pub fn note(&mut self, document: u32, token: &Token, kind: FaultKind)
        ensures { Notes (ThisFault (kind_of kind) document token.now.at) self.old.first self.new.first }
    {
        let fault = LabelFault {
            document,
            token: token.at,
            kind,
        };
        self.first = Some(earlier_fault(self.first, fault));
    }
}
