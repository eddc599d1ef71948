//! What a type leads to by names (X.680, section 16).

ghost use Rattle.std.specs.Prelude.{IfOk};
ghost use Rattle.asn1_names.specs.TermViews.{module_terms, type_term};
ghost use Rattle.asn1_types.specs.NextTypes.{TellsEnd, TellsNext};

use asn1_names::name_tables::Meaning;
use asn1_names::standard_module::StandardType;
use asn1_names::type_walk::name_of;
use asn1_numbers::number_tables::Numbers;
use asn1_syntax::type_text::TypeText;
use std::alloc::{AllocError, Global};

/// What a type names.
pub enum Next<'a> {
    /// An assigned type, with the place of its module.
    Type(usize, &'a TypeText),
    /// A type of CMIP-1.
    Standard(StandardType),
    /// No type: it is no name, or a name of no type.
    Nothing,
}

/// What a type leads to by names.
#[derive(Drop)]
pub struct Followed<'a> {
    /// The names that were passed, with the places of their modules.
    pub passed: Vec<(usize, &'a TypeText)>,
    /// The type of CMIP-1 at the end, where it is one's.
    pub standard: Option<StandardType>,
    /// The place of the module of the type at the end.
    pub home: usize,
    /// The type at the end.
    pub of: &'a TypeText,
}

/// What a type names.
pub fn next_type<'a>(numbers: &Numbers<'a>, home: usize, of: &'a TypeText) -> Next<'a>
    ensures { TellsNext (module_terms numbers.now) home (type_term of.now) result }
{
    let Some(name) = name_of(of) else {
        return Next::Nothing;
    };
    match numbers.tables().reference_meaning(home, name) {
        Meaning::TypeAt(number) => match numbers.tables().type_at(number) {
            Some((further, named)) => Next::Type(further, named),
            None => Next::Nothing,
        },
        Meaning::Standard(standard) => Next::Standard(standard),
        Meaning::ValueAt(_) => Next::Nothing,
        Meaning::Nothing => Next::Nothing,
    }
}

/// What a type leads to by names, without recursion. Of modules without faults no type is passed twice, so that the
/// loop ends before its bound.
pub fn follow<'a>(
    alloc: Global,
    numbers: &Numbers<'a>,
    home: usize,
    of: &'a TypeText,
) -> Result<Followed<'a>, AllocError>
    ensures { IfOk result (λ followed. TellsEnd (module_terms numbers.now) home (type_term of.now) followed) }
{
    let mut passed: Vec<(usize, &'a TypeText)> = Vec::new(alloc);
    let mut at = home;
    let mut left = of;
    for _step in 0..numbers.tables().count() as u128 + 1 {
        match next_type(numbers, at, left) {
            Next::Type(further, named) => {
                passed.push((at, left))?;
                at = further;
                left = named;
            }
            Next::Standard(standard) => {
                passed.push((at, left))?;
                return Ok(Followed {
                    passed,
                    standard: Some(standard),
                    home: at,
                    of: left,
                });
            }
            Next::Nothing => {
                return Ok(Followed {
                    passed,
                    standard: None,
                    home: at,
                    of: left,
                });
            }
        }
    }
    Ok(Followed {
        passed,
        standard: None,
        home: at,
        of: left,
    })
}
