//! Which values are OBJECT IDENTIFIERs: those whose types are, beneath names and tags (X.680, section 32;
//! docs/PROFILE.md, section 12).

ghost use Rattle.std.specs.Prelude.{◌≡◌, ◌↔◌, ℕ, true};
ghost use Rattle.asn1_names.specs.CodeMeanings.{IsTypeOf};
ghost use Rattle.asn1_names.specs.ModuleTerms.{TypeTerm};
ghost use Rattle.asn1_names.specs.TermViews.{module_terms};
ghost use Rattle.gdmo_first_names.specs.IdentifierTypes.{IsIdentifierBase, is_identifier_text};
ghost use Rattle.gdmo_names.specs.FirstNames.{IsIdentifierType};

use asn1_names::numbers::Base;
use asn1_numbers::number_tables::Numbers;
use asn1_syntax::plain_type::PlainType;
use asn1_syntax::type_text::TypeText;

/// Whether a type is written as OBJECT IDENTIFIER.
fn is_identifier_text(of: &TypeText) -> bool
    ensures { result ≡ is_identifier_text of.now }
{
    match of {
        TypeText::Plain { of, .. } => match of {
            PlainType::ObjectIdentifier(_) => true,
            _ => false,
        },
        _ => false,
    }
}

/// Whether what is left of a type beneath its names and tags is OBJECT IDENTIFIER.
fn is_identifier_base(base: &Base) -> bool
    ensures { (result ≡ true) ↔ IsIdentifierBase base.now }
{
    match base {
        Base::Written(_, of, _) => is_identifier_text(of),
        Base::Standing(_) => false,
        Base::Nothing => false,
    }
}

/// Whether the type of an assignment is OBJECT IDENTIFIER, beneath names and tags.
pub fn has_identifier_type(numbers: &Numbers, number: usize) -> bool
    ensures { (m : ℕ) (of : TypeTerm) → IsTypeOf (module_terms numbers.now) number m of →
        (result ≡ true) ↔ IsIdentifierType (module_terms numbers.now) m of }
{
    match numbers.tables().type_at(number) {
        Some((home, of)) => is_identifier_base(&numbers.base(home, of)),
        None => false,
    }
}
