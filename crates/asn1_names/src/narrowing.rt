//! What ranges leave of a syntax (X.680, sections 49 to 51).

ghost use Rattle.std.specs.Prelude.{◌≡◌, Bool, IfOk, true};
ghost use Rattle.term_values.specs.SyntaxView.{syntax_of};
ghost use Rattle.asn1_names.specs.Constraining.{Narrows};
ghost use Rattle.asn1_names.specs.Narrowing.{can_narrow};

use range_sets::leave;
use std::alloc::{AllocError, Global};
use std::boxed::Box;
use term_values::{Syntax, SyntaxForm};

fn of_form(form: SyntaxForm) -> Syntax
    ensures { result ≡ syntax_of form }
{
    Syntax { form }
}

/// What ranges leave of a syntax: of INTEGER the values, of strings and lists the sizes, of a tagged type what they
/// leave of the type beneath; of others the syntax itself. Only memory can fail.
pub fn narrow(alloc: Global, syntax: Syntax, stated: Vec<(i64, i64)>) -> Result<Syntax, AllocError>
    ensures { IfOk result (λ left. (is_size : Bool) → can_narrow is_size syntax ≡ true →
        Narrows stated.items is_size syntax left) }
{
    let Syntax { form } = syntax;
    match form {
        SyntaxForm::Int(names, before) => {
            let after = leave(alloc, before, stated)?;
            Ok(of_form(SyntaxForm::Int(names, after)))
        }
        SyntaxForm::Bits(names, before) => {
            let after = leave(alloc, before, stated)?;
            Ok(of_form(SyntaxForm::Bits(names, after)))
        }
        SyntaxForm::Octets(before) => {
            let after = leave(alloc, before, stated)?;
            Ok(of_form(SyntaxForm::Octets(after)))
        }
        SyntaxForm::Text(charset, before) => {
            let after = leave(alloc, before, stated)?;
            Ok(of_form(SyntaxForm::Text(charset, after)))
        }
        SyntaxForm::ListOf(of, before) => {
            let after = leave(alloc, before, stated)?;
            Ok(of_form(SyntaxForm::ListOf(of, after)))
        }
        SyntaxForm::SetOf(of, before) => {
            let after = leave(alloc, before, stated)?;
            Ok(of_form(SyntaxForm::SetOf(of, after)))
        }
        SyntaxForm::Tagged(tag, explicit, of) => {
            let inner = narrow(alloc, Box::into_inner(of), stated)?;
            Ok(of_form(SyntaxForm::Tagged(tag, explicit, Box::new(alloc, inner)?)))
        }
        other => Ok(of_form(other)),
    }
}
