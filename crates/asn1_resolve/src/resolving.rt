//! Modules resolved, or their first fault (X.680, sections 13 to 17; docs/PROFILE.md, section 11).

ghost use Rattle.std.specs.Prelude.{◌≡◌, IfErr, IfOk};
ghost use Rattle.asn1_names.specs.FirstModuleFault.{AreFaultless, TellsFirstFault};
ghost use Rattle.asn1_names.specs.TermViews.{module_terms};
ghost use Rattle.asn1_resolve.specs.ModuleOrder.{AreInOrder};
ghost use Rattle.asn1_resolve.specs.ToldFaults.{TellsFault};

use crate::judging::first_fault;
use asn1_names::name_tables::NameTables;
use asn1_names::refusal::ModuleRefusal;
use asn1_numbers::number_tables::Numbers;
use asn1_syntax::module::Module;
use asn1_tags::type_facts::TypeFacts;
use asn1_types::Types;
use std::alloc::Global;

/// Resolves modules: what their names mean, and which syntaxes their types denote; or the first fault, by document, by
/// token and in the order of [`ModuleRefusal`]. `Memory` comes where there is no memory for the tables. The modules
/// stay as they are (X.680, sections 13 to 17; docs/PROFILE.md, section 11).
pub fn resolve_modules<'a>(alloc: Global, modules: &'a [Module]) -> Result<Types<'a>, ModuleRefusal>
    ensures resolved { IfOk result (λ types. types ≡ modules.now) }
    ensures faultless { IfOk result (λ types. AreFaultless (module_terms modules.now)) }

    // a fault that is there is told, and in modules whose words stand in order the first one
    ensures fault { IfErr result (λ refusal. TellsFault (module_terms modules.now) refusal) }
    ensures first { IfErr result (λ refusal. AreInOrder (module_terms modules.now) →
        TellsFirstFault (module_terms modules.now) refusal) }
{
    let numbers = Numbers::new(alloc, NameTables::new(alloc, modules)?)?;
    let facts = TypeFacts::new(alloc, numbers)?;
    match first_fault(alloc, &facts)? {
        Some(refusal) => Err(refusal),
        None => Ok(Types::new(facts.into_numbers())),
    }
}
