//! The words of an attribute's properties (X.722, section 8.4).

ghost use Rattle.std.specs.Prelude.{◌≡◌, option_map};
ghost use Rattle.std.specs.List.{list_any};
ghost use Rattle.token_grammar.specs.TokenTests.{is_word_of};
ghost use Rattle.gdmo_linking.specs.LinkedNames.{first_of, has_either};
ghost use Rattle.gdmo_names.specs.ClassViews.{property_words, word_list};

use gdmo_classes::properties::Properties;
use token_grammar::Token;
use token_grammar::token_tests::is_word_of;

/// Whether a token stands and is one of two words.
fn is_either(token: &Option<Token>, one: &str, other: &str) -> bool
    ensures { result ≡ has_either one.now other.now (word_list token.now) }
{
    match token {
        Some(token) => is_word_of(token, one) || is_word_of(token, other),
        None => false,
    }
}

/// Whether one of two words stands among the properties.
pub fn has_either(properties: &Properties, one: &str, other: &str) -> bool
    ensures { result ≡ has_either one.now other.now (property_words properties.now) }
{
    is_either(&properties.replace_with_default, one, other)
        || is_either(&properties.access, one, other)
        || is_either(&properties.members, one, other)
}

/// A token that stands and is one of two words.
fn that_word<'a>(token: &'a Option<Token>, one: &str, other: &str) -> Option<&'a Token>
    ensures { option_map (λ x. x.now) result ≡ first_of one.now other.now (word_list token.now) }
{
    match token {
        Some(token) => {
            if is_word_of(token, one) || is_word_of(token, other) {
                Some(token)
            } else {
                None
            }
        }
        None => None,
    }
}

/// The first of the properties that is one of two words.
pub fn first_word<'a>(properties: &'a Properties, one: &str, other: &str) -> Option<&'a Token>
    ensures { option_map (λ x. x.now) result ≡ first_of one.now other.now (property_words properties.now) }
{
    if let Some(word) = that_word(&properties.replace_with_default, one, other) {
        return Some(word);
    }
    if let Some(word) = that_word(&properties.access, one, other) {
        return Some(word);
    }
    that_word(&properties.members, one, other)
}

/// Whether a token stands and is a word.
fn is_word(token: &Option<Token>, word: &str) -> bool
    ensures { result ≡ list_any (is_word_of word.now) (word_list token.now) }
{
    match token {
        Some(token) => is_word_of(token, word),
        None => false,
    }
}

/// Whether a word stands among the properties.
pub fn has_word(properties: &Properties, word: &str) -> bool
    ensures { result ≡ list_any (is_word_of word.now) (property_words properties.now) }
{
    is_word(&properties.replace_with_default, word)
        || is_word(&properties.access, word)
        || is_word(&properties.members, word)
}
