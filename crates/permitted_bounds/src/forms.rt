//! The forms of syntaxes that have ranges or sizes, under any tags (X.680, section 51).

ghost use Rattle.std.specs.Prelude.{◌≡◌, IsFalse, IsTrue};
ghost use Rattle.std.specs.Option.{option_map};
ghost use Rattle.term_model.specs.WholeRecords.{IsSetValued, form_bounds};
ghost use Rattle.term_values.specs.MatchingKinds.{beneath_tags};
ghost use Rattle.permitted_bounds.specs.FormNumbers.{number_of};

use term_values::{Ranges, Syntax, SyntaxForm};

/// The forms that have ranges or sizes.
#[derive(Clone, Copy, PartialEq, Eq)]
pub(crate) enum BoundedForm {
    Whole,
    Bits,
    Octets,
    Text,
    List,
    SetOf,
}

/// The ranges of a whole number, or the sizes of another form, under any tags; none where a syntax has none.
#[cycle(form_bounds)]
pub(crate) fn form_bounds(syntax: &Syntax) -> Option<(BoundedForm, &Ranges)>
    ensures { option_map (λ told. (number_of told.0, told.1.now)) result ≡ form_bounds (beneath_tags syntax.now) }
{
    match &syntax.form {
        SyntaxForm::Tagged(_, _, of) => form_bounds(of),
        SyntaxForm::Int(_, ranges) => Some((BoundedForm::Whole, ranges)),
        SyntaxForm::Bits(_, sizes) => Some((BoundedForm::Bits, sizes)),
        SyntaxForm::Octets(sizes) => Some((BoundedForm::Octets, sizes)),
        SyntaxForm::Text(_, sizes) => Some((BoundedForm::Text, sizes)),
        SyntaxForm::ListOf(_, sizes) => Some((BoundedForm::List, sizes)),
        SyntaxForm::SetOf(_, sizes) => Some((BoundedForm::SetOf, sizes)),
        _ => None,
    }
}

/// Whether a syntax is SET OF, under any tags.
#[cycle(set_valued)]
pub fn is_set_valued(syntax: &Syntax) -> bool
    ensures set { IsTrue result → IsSetValued syntax.now }
    ensures other { IsFalse result → ¬ IsSetValued syntax.now }
{
    match &syntax.form {
        SyntaxForm::Tagged(_, _, of) => is_set_valued(of),
        SyntaxForm::SetOf(_, _) => true,
        _ => false,
    }
}
