//! The syntaxes of the attributes by which logs are known: X.721, X.734, X.735; docs/PROFILE.md.

ghost use Rattle.std.specs.Prelude.{◌≡◌, [], ◌∷◌, ◌++◌, pos, IfOk, OnOk};
ghost use Rattle.term_values.specs.CmipTypes.{one};
ghost use Rattle.term_values.specs.PartsView.{parts_listed};
ghost use Rattle.term_values.specs.SyntaxView.{syntax_of};
ghost use Rattle.term_values.specs.Syntaxes.TypeParts.{NoParts};
ghost use Rattle.term_values.specs.Syntaxes.TypeSyntax.{Enumerated, ObjectIdentifier, SetOf, TextString};
ghost use Rattle.term_values.specs.declared.charset.Charset.TheVariants as charsets;
ghost use Rattle.term_model.specs.ControlSyntaxes.{administrative_state, availability_status, from_zero};
ghost use Rattle.term_model.specs.ControlSyntaxes.{log_full_action, operational_state, simple_name};

use std::alloc::{AllocError, Global};
use std::boxed::Box;
use term_values::{Bytes, Charset, Names, Part, Parts, Ranges, Syntax, SyntaxForm};

/// A type of this form.
pub(crate) fn of_form(form: SyntaxForm) -> Syntax
    ensures { result ≡ syntax_of form }
{
    Syntax { form }
}

/// GraphicString.
fn graphic_string(alloc: Global) -> Syntax
    ensures { result ≡ TextString charsets.Graphic [] }
{
    of_form(SyntaxForm::Text(Charset::Graphic, Ranges::new(alloc)))
}

/// An alternative.
fn alternative(alloc: Global, name: &[u8], syntax: Syntax) -> Result<Part, AllocError>
    ensures { IfOk result (λ part. parts_listed (part ∷ []) ≡ one name.now syntax NoParts) }
{
    Ok(Part {
        name: Bytes::from_slice(alloc, name)?,
        syntax,
        optional: false,
        default: None,
    })
}

/// Two alternatives.
fn two_alternatives(alloc: Global, first: Part, second: Part) -> Result<Parts, AllocError>
    ensures { IfOk result (λ parts. parts ≡ parts_listed (first ∷ (second ∷ []))) }
{
    let mut items = Vec::new(alloc);
    items.push(first)?;
    items.push(second)?;
    Ok(Parts { items })
}

/// CHOICE { number INTEGER, string GraphicString }
pub fn simple_name(alloc: Global) -> Result<Syntax, AllocError>
    ensures { IfOk result (λ syntax. syntax ≡ simple_name) }
{
    let number = alternative(alloc, b"number", Syntax::integer(alloc))?;
    let string = alternative(alloc, b"string", graphic_string(alloc))?;
    let parts = two_alternatives(alloc, number, string)?;
    Ok(of_form(SyntaxForm::Choice(parts)))
}

/// Appends a name and its number.
fn add_name(
    alloc: Global,
    name: &[u8],
    number: i64,
    into: &mut Vec<(Bytes, i64)>,
) -> Result<(), AllocError>
    ensures { OnOk result (into.new.items ≡ into.old.items ++ (name.now, number) ∷ []) }
{
    let name = Bytes::from_slice(alloc, name)?;
    into.push((name, number))?;
    Ok(())
}

/// ENUMERATED { locked(0), unlocked(1), shuttingDown(2) }
pub fn administrative_state(alloc: Global) -> Result<Syntax, AllocError>
    ensures { IfOk result (λ syntax. syntax ≡ administrative_state) }
{
    let mut items = Vec::new(alloc);
    add_name(alloc, b"locked", 0, &mut items)?;
    add_name(alloc, b"unlocked", 1, &mut items)?;
    add_name(alloc, b"shuttingDown", 2, &mut items)?;
    Ok(of_form(SyntaxForm::Enumerated(Names { items })))
}

/// ENUMERATED of two numbers, 0 and 1.
fn one_of_two(alloc: Global, zero: &[u8], one: &[u8]) -> Result<Syntax, AllocError>
    ensures { IfOk result (λ syntax. syntax ≡ Enumerated ((zero.now, pos 0) ∷ (one.now, pos 1) ∷ [])) }
{
    let mut items = Vec::new(alloc);
    add_name(alloc, zero, 0, &mut items)?;
    add_name(alloc, one, 1, &mut items)?;
    Ok(of_form(SyntaxForm::Enumerated(Names { items })))
}

/// ENUMERATED { disabled(0), enabled(1) }
pub fn operational_state(alloc: Global) -> Result<Syntax, AllocError>
    ensures { IfOk result (λ syntax. syntax ≡ operational_state) }
{
    one_of_two(alloc, b"disabled", b"enabled")
}

/// ENUMERATED { wrap(0), halt(1) }
pub fn log_full_action(alloc: Global) -> Result<Syntax, AllocError>
    ensures { IfOk result (λ syntax. syntax ≡ log_full_action) }
{
    one_of_two(alloc, b"wrap", b"halt")
}

/// SET OF INTEGER
pub fn availability_status(alloc: Global) -> Result<Syntax, AllocError>
    ensures { IfOk result (λ syntax. syntax ≡ availability_status) }
{
    let member = Box::new(alloc, Syntax::integer(alloc))?;
    Ok(of_form(SyntaxForm::SetOf(member, Ranges::new(alloc))))
}

/// SET OF OBJECT IDENTIFIER
pub fn identifiers(alloc: Global) -> Result<Syntax, AllocError>
    ensures { IfOk result (λ syntax. syntax ≡ SetOf ObjectIdentifier []) }
{
    let member = Box::new(alloc, of_form(SyntaxForm::Oid))?;
    Ok(of_form(SyntaxForm::SetOf(member, Ranges::new(alloc))))
}

/// INTEGER (0..9223372036854775807)
pub fn from_zero(alloc: Global) -> Result<Syntax, AllocError>
    ensures { IfOk result (λ syntax. syntax ≡ from_zero) }
{
    let mut items = Vec::new(alloc);
    items.push((0, i64::MAX))?;
    Ok(of_form(SyntaxForm::Int(Names::new(alloc), Ranges { items })))
}
