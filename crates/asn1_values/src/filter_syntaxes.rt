//! The syntaxes of a CMISFilter (X.711, section 7.5; docs/PROFILE.md, section 13).

ghost use Rattle.std.specs.Prelude.{◌≡◌, IfOk};
ghost use Rattle.term_values.specs.CmipTypes.{attribute, attribute_id, piece, substrings, filter_item, filter_choice};
ghost use Rattle.term_values.specs.CmipTypes.{one, implicit, sequence_of, set_of};
ghost use Rattle.term_values.specs.PartsView.{parts_listed};
ghost use Rattle.term_values.specs.Syntaxes.TypeSyntax.{Any, Choice, Filter, ObjectIdentifier, Sequence, Tagged};
ghost use Rattle.term_values.specs.Syntaxes.TypeParts.{NoParts};
ghost use Rattle.term_values.specs.Tag.{context};
ghost use Rattle.asn1_values.specs.Components.{IsOne};

use std::alloc::{AllocError, Global};
use std::boxed::Box;
use term_values::{Bytes, Part, Parts, Ranges, Syntax, SyntaxForm, Tag};

/// CMISFilter itself.
pub fn filter() -> Syntax
    ensures { result ≡ Filter }
{
    Syntax {
        form: SyntaxForm::Filter,
    }
}

/// A syntax under a tag of the context class.
fn tagged(alloc: Global, number: u32, explicit: bool, inner: Syntax) -> Result<Syntax, AllocError>
    ensures { IfOk result (λ syntax. syntax ≡ Tagged (context number) explicit inner) }
{
    Ok(Syntax {
        form: SyntaxForm::Tagged(Tag::context(number), explicit, Box::new(alloc, inner)?),
    })
}

/// A component or an alternative that must be there.
fn one(alloc: Global, name: &str, syntax: Syntax) -> Result<Part, AllocError>
    ensures { IfOk result (IsOne name.now syntax) }
{
    Ok(Part {
        name: Bytes::from_slice(alloc, name.as_bytes())?,
        syntax,
        optional: false,
        default: None,
    })
}

/// Components or alternatives in their order.
fn listed(items: Vec<Part>) -> Result<Parts, AllocError>
    ensures { IfOk result (λ parts. parts ≡ parts_listed items.items) }
{
    match Parts::from_items(items) {
        Some(parts) => Ok(parts),
        None => Err(AllocError),
    }
}

/// A CHOICE of these alternatives.
fn choice(items: Vec<Part>) -> Result<Syntax, AllocError>
    ensures { IfOk result (λ syntax. syntax ≡ Choice (parts_listed items.items)) }
{
    Ok(Syntax {
        form: SyntaxForm::Choice(listed(items)?),
    })
}

/// A SEQUENCE of these components.
fn sequence(items: Vec<Part>) -> Result<Syntax, AllocError>
    ensures { IfOk result (λ syntax. syntax ≡ Sequence (parts_listed items.items)) }
{
    Ok(Syntax {
        form: SyntaxForm::Seq(listed(items)?),
    })
}

/// ANY.
fn any() -> Syntax
    ensures { result ≡ Any }
{
    Syntax {
        form: SyntaxForm::Any,
    }
}

/// A component or an alternative that must be there, under a tag of the context class.
fn one_tagged(
    alloc: Global,
    name: &str,
    number: u32,
    explicit: bool,
    inner: Syntax,
) -> Result<Part, AllocError>
    ensures { IfOk result (IsOne name.now (Tagged (context number) explicit inner)) }
{
    one(alloc, name, tagged(alloc, number, explicit, inner)?)
}

/// OBJECT IDENTIFIER.
fn identifier() -> Syntax
    ensures { result ≡ ObjectIdentifier }
{
    Syntax {
        form: SyntaxForm::Oid,
    }
}

/// AttributeId.
fn attribute_id(alloc: Global) -> Result<Syntax, AllocError>
    ensures { IfOk result (λ syntax. syntax ≡ attribute_id) }
{
    let global = one_tagged(alloc, "globalForm", 0, false, identifier())?;
    let local = one_tagged(alloc, "localForm", 1, false, Syntax::integer(alloc))?;
    choice(vec![in alloc; global, local]?)
}

/// An AttributeId and a value, with these names.
fn assertion(alloc: Global, id: &str, value: &str) -> Result<Syntax, AllocError>
    ensures { IfOk result (λ syntax. syntax ≡ Sequence (one id.now attribute_id (one value.now Any NoParts))) }
{
    let first = one(alloc, id, attribute_id(alloc)?)?;
    let second = one(alloc, value, any())?;
    sequence(vec![in alloc; first, second]?)
}

/// Attribute.
fn attribute(alloc: Global) -> Result<Syntax, AllocError>
    ensures { IfOk result (λ syntax. syntax ≡ attribute) }
{
    assertion(alloc, "attributeId", "attributeValue")
}

/// A piece of a substrings item, under its tag.
fn piece(alloc: Global, name: &str, number: u32) -> Result<Part, AllocError>
    ensures { IfOk result (IsOne name.now (implicit number piece)) }
{
    one(
        alloc,
        name,
        tagged(alloc, number, false, assertion(alloc, "", "")?)?,
    )
}

/// A piece of a substrings item.
fn any_piece(alloc: Global) -> Result<Syntax, AllocError>
    ensures { IfOk result (λ syntax. sequence_of syntax ≡ substrings) }
{
    let initial = piece(alloc, "initial", 0)?;
    let any = piece(alloc, "any", 1)?;
    let last = piece(alloc, "final", 2)?;
    choice(vec![in alloc; initial, any, last]?)
}

/// The pieces of a substrings item.
fn substrings(alloc: Global) -> Result<Syntax, AllocError>
    ensures { IfOk result (λ syntax. syntax ≡ substrings) }
{
    let member = any_piece(alloc)?;
    Ok(Syntax {
        form: SyntaxForm::ListOf(Box::new(alloc, member)?, Ranges::new(alloc)),
    })
}

/// An assertion about one attribute, under its tag.
fn asserted(alloc: Global, name: &str, number: u32) -> Result<Part, AllocError>
    ensures { IfOk result (IsOne name.now (implicit number attribute)) }
{
    one(
        alloc,
        name,
        tagged(alloc, number, false, attribute(alloc)?)?,
    )
}

/// An item of a filter.
pub fn filter_item(alloc: Global) -> Result<Syntax, AllocError>
    ensures { IfOk result (λ syntax. syntax ≡ filter_item) }
{
    let equality = asserted(alloc, "equality", 0)?;
    let pieces = one(
        alloc,
        "substrings",
        tagged(alloc, 1, false, substrings(alloc)?)?,
    )?;
    let greater = asserted(alloc, "greaterOrEqual", 2)?;
    let less = asserted(alloc, "lessOrEqual", 3)?;
    let present = one(
        alloc,
        "present",
        tagged(alloc, 4, true, attribute_id(alloc)?)?,
    )?;
    let subset = asserted(alloc, "subsetOf", 5)?;
    let superset = asserted(alloc, "supersetOf", 6)?;
    let meets = asserted(alloc, "nonNullSetIntersection", 7)?;
    choice(vec![in alloc;
        equality, pieces, greater, less, present, subset, superset, meets,
    ]?)
}

/// SET OF CMISFilter.
fn filters(alloc: Global) -> Result<Syntax, AllocError>
    ensures { IfOk result (λ syntax. syntax ≡ set_of Filter) }
{
    Ok(Syntax {
        form: SyntaxForm::SetOf(Box::new(alloc, filter())?, Ranges::new(alloc)),
    })
}

/// A filter by its alternatives.
pub fn filter_choice(alloc: Global) -> Result<Syntax, AllocError>
    ensures { IfOk result (λ syntax. syntax ≡ filter_choice) }
{
    let item = one(alloc, "item", tagged(alloc, 8, true, filter_item(alloc)?)?)?;
    let all = one(alloc, "and", tagged(alloc, 9, false, filters(alloc)?)?)?;
    let some = one(alloc, "or", tagged(alloc, 10, false, filters(alloc)?)?)?;
    let negated = one(alloc, "not", tagged(alloc, 11, true, filter())?)?;
    choice(vec![in alloc; item, all, some, negated]?)
}
