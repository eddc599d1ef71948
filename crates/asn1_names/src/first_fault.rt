//! Which fault is told: the least by document, then by place, then in the order of the faults.

ghost use Rattle.std.specs.Prelude.{◌≡◌, ◌⊎◌, IsTrue, IsFalse, IfSome};
ghost use Rattle.asn1_names.specs.FirstModuleFault.{fault_rank};
ghost use Rattle.asn1_names.specs.NotedFaults.{IsNotLater, kind_of};

/// What is wrong: the refusals, with what is unsupported among them.
#[derive(Clone, Copy)]
pub enum FaultKind {
    /// A name stands for no type or value.
    UnknownType,
    /// A name stands for no module.
    UnknownModule,
    /// A type contains itself.
    CyclicType,
    /// A type of ASN.1 that documents may not use.
    TypeWord,
    /// A syntax of too many nodes.
    TooManyNodes,
    /// A tag number that is out of range.
    TagNumber,
    /// A number that hasn't 64 bits.
    WideNumber,
    /// A constraint that the type has no place for.
    MisplacedConstraint,
    /// Tags don't tell alternatives or components apart.
    AmbiguousTags,
}

/// A fault.
#[derive(Clone, Copy)]
pub struct ModuleFault {
    /// The document's number.
    pub document: u32,
    /// The place of the token in the document, in octets.
    pub token: u64,
    /// What is wrong.
    pub kind: FaultKind,
}

fn rank(kind: FaultKind) -> u8
    ensures { result ≡ fault_rank (kind_of kind) }
{
    match kind {
        FaultKind::UnknownType => 0,
        FaultKind::UnknownModule => 1,
        FaultKind::CyclicType => 2,
        FaultKind::TypeWord => 3,
        FaultKind::TooManyNodes => 4,
        FaultKind::TagNumber => 5,
        FaultKind::WideNumber => 6,
        FaultKind::MisplacedConstraint => 7,
        FaultKind::AmbiguousTags => 8,
    }
}

/// Whether a fault stands before another one.
fn is_before(a: &ModuleFault, b: &ModuleFault) -> bool
    ensures before { IsTrue result → IsNotLater a.now b.now }
    ensures behind { IsFalse result → IsNotLater b.now a.now }
{
    if a.document != b.document {
        return a.document < b.document;
    }
    if a.token != b.token {
        return a.token < b.token;
    }
    rank(a.kind) < rank(b.kind)
}

/// The earlier one of a fault that was found before, where there is one, and a further one.
pub fn earlier_fault(before: Option<ModuleFault>, fault: ModuleFault) -> ModuleFault
    ensures one { (result ≡ fault) ⊎ (before ≡ Some result) }
    ensures no_later { IsNotLater result fault }
    ensures least { IfSome before (λ other. IsNotLater result other) }
{
    match before {
        Some(other) => {
            if is_before(&fault, &other) {
                fault
            } else {
                other
            }
        }
        None => fault,
    }
}
