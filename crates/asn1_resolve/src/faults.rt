//! Faults of tokens, and which of two is told: the least by document, then by place, then in the order of the faults
//! (docs/PROFILE.md, section 11).

ghost use Rattle.std.specs.Prelude.{◌≡◌, List};
ghost use Rattle.asn1_names.specs.FirstModuleFault.{HasFault, IsFirstFault, TellsFirstFault};
ghost use Rattle.asn1_names.specs.ModuleTerms.{ModuleTerm};
ghost use Rattle.asn1_names.specs.NotedFaults.{kind_of};
ghost use Rattle.asn1_names.specs.declared.refusal.ModuleRefusal.TheVariants.{Unsupported};
ghost use Rattle.asn1_resolve.specs.FaultSets.{IsEarlier, noted_at};
ghost use Rattle.asn1_resolve.specs.ToldFaults.{TellsFault};

use asn1_names::first_fault::{FaultKind, ModuleFault, earlier_fault};
use asn1_names::refusal::{ModuleRefusal, UnsupportedKind};
use asn1_syntax::module::Module;
use token_grammar::Token;

/// A module that is judged: its place in the list, and the number of its document.
#[derive(Clone, Copy)]
pub struct Home {
    /// Its place.
    pub module: usize,
    /// Its document's number.
    pub document: u32,
}

/// The module at a place.
pub fn home_of(place: usize, text: &Module) -> Home
    ensures place { result.module ≡ place }
    ensures document { result.document ≡ text.now.document }
{
    Home {
        module: place,
        document: text.document,
    }
}

/// A fault of a token of a module.
pub fn fault_at(home: Home, token: &Token, kind: FaultKind) -> ModuleFault
    ensures { result ≡ noted_at home.document token.now.at kind }
{
    ModuleFault {
        document: home.document,
        token: token.at,
        kind,
    }
}

/// The earlier one of two faults, where there are any.
pub fn earlier(one: Option<ModuleFault>, other: Option<ModuleFault>) -> Option<ModuleFault>
    ensures { IsEarlier one other result }
{
    match other {
        Some(fault) => Some(earlier_fault(one, fault)),
        None => one,
    }
}

fn unsupported(fault: ModuleFault, kind: UnsupportedKind) -> ModuleRefusal
    ensures { result ≡ Unsupported fault.document fault.token kind }
{
    ModuleRefusal::Unsupported {
        document: fault.document,
        token: fault.token,
        kind,
    }
}

/// The refusal that tells a fault.
pub fn refusal_of(fault: ModuleFault) -> ModuleRefusal
    ensures there { (ms : List ModuleTerm) → HasFault ms (kind_of fault.kind) fault.document fault.token →
        TellsFault ms result }
    ensures first { (ms : List ModuleTerm) → IsFirstFault ms (kind_of fault.kind) fault.document fault.token →
        TellsFirstFault ms result }
{
    let document = fault.document;
    let token = fault.token;
    match fault.kind {
        FaultKind::UnknownType => ModuleRefusal::UnknownType { document, token },
        FaultKind::UnknownModule => ModuleRefusal::UnknownModule { document, token },
        FaultKind::CyclicType => ModuleRefusal::CyclicType { document, token },
        FaultKind::TypeWord => unsupported(fault, UnsupportedKind::TypeWord),
        FaultKind::TooManyNodes => unsupported(fault, UnsupportedKind::TooManyNodes),
        FaultKind::TagNumber => unsupported(fault, UnsupportedKind::TagNumber),
        FaultKind::WideNumber => unsupported(fault, UnsupportedKind::WideNumber),
        FaultKind::MisplacedConstraint => unsupported(fault, UnsupportedKind::MisplacedConstraint),
        FaultKind::AmbiguousTags => ModuleRefusal::AmbiguousTags { document, token },
    }
}
