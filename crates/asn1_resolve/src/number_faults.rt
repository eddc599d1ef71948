//! What is wrong in tags, named numbers and bounds (X.680, sections 19 to 22, 31.2 and 51; docs/PROFILE.md,
//! section 11).

ghost use Rattle.std.specs.Prelude.{◌≡◌, List, None, map};
ghost use Rattle.asn1_names.specs.FirstModuleFault.FaultKind.{NotSupported};
ghost use Rattle.asn1_names.specs.ModuleTerms.{LimitTerm};
ghost use Rattle.asn1_names.specs.NumbersFound.{text_term};
ghost use Rattle.asn1_names.specs.TermViews.{bit_term, integer_term, module_terms, plain_term, tag_term};
ghost use Rattle.asn1_names.specs.TypeWords.{one_word_type};
ghost use Rattle.asn1_names.specs.declared.refusal.UnsupportedKind.TheVariants.{TypeWord};
ghost use Rattle.asn1_resolve.specs.FaultSets.{AnyOf, In, IsFirstOf, OneFault, found_fault};
ghost use Rattle.asn1_resolve.specs.TypeFaults.{HeadFaults, NumberFaults, TagFaults};

use crate::faults::{Home, earlier, fault_at};
use crate::name_faults::judge_name;
use asn1_names::first_fault::{FaultKind, ModuleFault};
use asn1_names::numbers::{NumberFound, NumberText, bound_text, number_token, token_text};
use asn1_names::type_words::word_type;
use asn1_numbers::number_tables::Numbers;
use asn1_syntax::plain_type::PlainType;
use asn1_values_syntax::named_number::{NamedBit, NamedInteger};
use asn1_values_syntax::tag::Tag as TagText;
use token_grammar::Token;

/// The fault of what was found of a number at a token.
pub fn judge_found(
    home: Home,
    token: &Token,
    found: NumberFound,
    wide: FaultKind,
) -> Option<ModuleFault>
    ensures { result ≡ found_fault home.document token.now.at wide found }
{
    match found {
        NumberFound::Number(_) => None,
        NumberFound::NotNumber => Some(fault_at(home, token, wide)),
        NumberFound::Unknown => Some(fault_at(home, token, FaultKind::UnknownType)),
    }
}

/// The fault of a named number, an item or a named bit.
fn judge_number(numbers: &Numbers, home: Home, text: NumberText) -> Option<ModuleFault>
    ensures { IsFirstOf (In home.document
        (NumberFaults (module_terms numbers.now) home.module (text_term text.entry))) result }
{
    let found = numbers.number(home.module, text);
    judge_found(home, number_token(text), found, FaultKind::WideNumber)
}

/// The fault of a tag.
pub fn judge_tag(numbers: &Numbers, home: Home, tag: &TagText) -> Option<ModuleFault>
    ensures { IsFirstOf (In home.document
        (TagFaults (module_terms numbers.now) home.module (tag_term tag.now))) result }
{
    let text = token_text(&tag.number);
    let token = number_token(text);
    if numbers.tag(home.module, tag).is_some() {
        return None;
    }
    match numbers.number(home.module, text) {
        NumberFound::Unknown => Some(fault_at(home, token, FaultKind::UnknownType)),
        NumberFound::NotNumber => Some(fault_at(home, token, FaultKind::TagNumber)),
        NumberFound::Number(_) => Some(fault_at(home, token, FaultKind::TagNumber)),
    }
}

/// The first fault of named numbers, or of items.
fn judge_integers(numbers: &Numbers, home: Home, listed: &[NamedInteger]) -> Option<ModuleFault>
    ensures { IsFirstOf (In home.document (AnyOf (λ x. NumberFaults (module_terms numbers.now) home.module x.number)
        (map integer_term listed.now))) result }
{
    let mut first = None;
    for named in listed.iter() {
        first = earlier(
            first,
            judge_number(numbers, home, bound_text(&named.number)),
        );
    }
    first
}

/// The first fault of named bits.
fn judge_bits(numbers: &Numbers, home: Home, listed: &[NamedBit]) -> Option<ModuleFault>
    ensures { IsFirstOf (In home.document (AnyOf (λ x. NumberFaults (module_terms numbers.now) home.module x.number)
        (map bit_term listed.now))) result }
{
    let mut first = None;
    for named in listed.iter() {
        first = earlier(
            first,
            judge_number(numbers, home, token_text(&named.number)),
        );
    }
    first
}

/// The fault of a type of one word.
fn judge_word(home: Home, word: &Token) -> Option<ModuleFault>
    ensures { IsFirstOf (In home.document (OneFault (one_word_type word.now.text ≡ None) word.now.at
        (NotSupported TypeWord))) result }
{
    if word_type(word.text.as_slice()).is_some() {
        return None;
    }
    Some(fault_at(home, word, FaultKind::TypeWord))
}

/// The first fault of a type that holds no other, apart from its constraints.
pub fn judge_plain(numbers: &Numbers, home: Home, of: &PlainType) -> Option<ModuleFault>
    ensures { (limits : List LimitTerm) → IsFirstOf (In home.document
        (HeadFaults (module_terms numbers.now) home.module (plain_term of.now limits))) result }
{
    match of {
        PlainType::Simple(word) => judge_word(home, word),
        PlainType::Integer(integer) => match &integer.numbers {
            Some(listed) => judge_integers(numbers, home, listed.as_slice()),
            None => None,
        },
        PlainType::Enumerated(enumerated) => {
            judge_integers(numbers, home, enumerated.items.as_slice())
        }
        PlainType::BitString(bits) => match &bits.bits {
            Some(listed) => judge_bits(numbers, home, listed.as_slice()),
            None => None,
        },
        PlainType::Named(name) => judge_name(numbers.tables(), home, name),
        PlainType::OctetString(_) => None,
        PlainType::ObjectIdentifier(_) => None,
        PlainType::Any(_) => None,
    }
}
