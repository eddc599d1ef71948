//! The syntaxes of types that hold no other (X.680, sections 18 to 24, 31 and 41).

ghost use Rattle.std.specs.Prelude.{◌≡◌, IfOk, List, map, option_map};
ghost use Rattle.term_values.specs.SyntaxView.{syntax_of};
ghost use Rattle.asn1_names.specs.DenotedSyntax.{AreNamed};
ghost use Rattle.asn1_names.specs.ModuleTerms.{LimitTerm};
ghost use Rattle.asn1_names.specs.SaidNumbers.{AllSayNumbers};
ghost use Rattle.asn1_names.specs.TermViews.{bit_term, integer_term, listed_terms, module_terms, plain_term};
ghost use Rattle.asn1_names.specs.TypeWords.{one_word_type};
ghost use Rattle.asn1_types.specs.BuiltSyntaxes.{IsWordSyntax, PlainIsDenoted};

use crate::said_numbers::{named_bits, named_integers};
use asn1_names::type_words::{WordType, word_type};
use asn1_numbers::number_tables::Numbers;
use asn1_syntax::plain_type::PlainType;
use asn1_values_syntax::named_number::{NamedBit, NamedInteger};
use std::alloc::{AllocError, Global};
use term_values::{Names, Ranges, SyntaxForm};
use token_grammar::Token;

/// The syntax of a type of one word; NULL for a word that is none.
fn word_form(alloc: Global, word: &Token) -> SyntaxForm
    ensures { IsWordSyntax word.now.text (syntax_of result) }
{
    match word_type(word.text.as_slice()) {
        Some(WordType::Boolean) => SyntaxForm::Bool,
        Some(WordType::Null) => SyntaxForm::Null,
        Some(WordType::Text(charset)) => SyntaxForm::Text(charset, Ranges::new(alloc)),
        Some(WordType::Time) => SyntaxForm::Time,
        None => SyntaxForm::Null,
    }
}

/// The named numbers of INTEGER, none where no braces stand.
fn stated_integers(
    alloc: Global,
    numbers: &Numbers,
    home: usize,
    named: &Option<Vec<NamedInteger>>,
) -> Result<Names, AllocError>
    ensures { IfOk result (λ names.
        AllSayNumbers (module_terms numbers.now) home (listed_terms integer_term named.now) →
        AreNamed (module_terms numbers.now) home (listed_terms integer_term named.now) names) }
{
    match named {
        Some(named) => named_integers(alloc, numbers, home, named.as_slice()),
        None => Ok(Names::new(alloc)),
    }
}

/// The named bits of BIT STRING, none where no braces stand.
fn stated_bits(
    alloc: Global,
    numbers: &Numbers,
    home: usize,
    named: &Option<Vec<NamedBit>>,
) -> Result<Names, AllocError>
    ensures { IfOk result (λ names.
        AllSayNumbers (module_terms numbers.now) home (listed_terms bit_term named.now) →
        AreNamed (module_terms numbers.now) home (listed_terms bit_term named.now) names) }
{
    match named {
        Some(named) => named_bits(alloc, numbers, home, named.as_slice()),
        None => Ok(Names::new(alloc)),
    }
}

/// The syntax of a type that holds no other, without its constraints. Of a name it is NULL: a name is looked up.
pub fn plain_form(
    alloc: Global,
    numbers: &Numbers,
    home: usize,
    of: &PlainType,
) -> Result<SyntaxForm, AllocError>
    ensures { IfOk result (λ form. (limits : List LimitTerm) →
        PlainIsDenoted (module_terms numbers.now) home (plain_term of.now limits) (syntax_of form)) }
{
    match of {
        PlainType::Simple(word) => Ok(word_form(alloc, word)),
        PlainType::Integer(integer) => {
            let names = stated_integers(alloc, numbers, home, &integer.numbers)?;
            Ok(SyntaxForm::Int(names, Ranges::new(alloc)))
        }
        PlainType::Enumerated(enumerated) => {
            let names = named_integers(alloc, numbers, home, enumerated.items.as_slice())?;
            Ok(SyntaxForm::Enumerated(names))
        }
        PlainType::BitString(string) => {
            let names = stated_bits(alloc, numbers, home, &string.bits)?;
            Ok(SyntaxForm::Bits(names, Ranges::new(alloc)))
        }
        PlainType::OctetString(_) => Ok(SyntaxForm::Octets(Ranges::new(alloc))),
        PlainType::ObjectIdentifier(_) => Ok(SyntaxForm::Oid),
        PlainType::Any(_) => Ok(SyntaxForm::Any),
        PlainType::Named(_) => Ok(SyntaxForm::Null),
    }
}
