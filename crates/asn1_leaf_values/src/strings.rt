//! Strings between delimiters (X.680, section 12.14).

ghost use Rattle.std.specs.Prelude.{◌≡◌, IfOk};
ghost use Rattle.asn1_leaf_values.specs.Literals.{undoubled, delimited, string_of};

use std::alloc::{AllocError, Global};
use term_values::Bytes;
use token_grammar::Token;
use token_grammar::token::STRING;

/// What stands up to the delimiter that ends a string; none where it doesn't end there.
fn undouble(alloc: Global, delimiter: u8, text: &[u8]) -> Result<Option<Bytes>, AllocError>
    ensures { IfOk result (λ found. undoubled delimiter text.now ≡ found) }
{
    let mut items = Vec::new(alloc);
    let mut at = 0;
    'octets: while at < text.len() {
        let octet = text[at];
        if octet != delimiter {
            items.push(octet)?;
            at += 1;
        } else {
            if at + 1 == text.len() {
                return Ok(Some(Bytes { items }));
            }
            if text[at + 1] != delimiter {
                return Ok(None);
            }
            items.push(octet)?;
            at += 2;
        }
    }
    Ok(None)
}

/// The text between the delimiter with which a string begins and the same one at its end.
fn delimited(alloc: Global, text: &[u8]) -> Result<Option<Bytes>, AllocError>
    ensures { IfOk result (λ found. delimited text.now ≡ found) }
{
    match text {
        [] => Ok(None),
        [delimiter, others @ ..] => undouble(alloc, *delimiter, others),
    }
}

/// The text that a token stands for; none where it is no string.
pub fn read_string(alloc: Global, token: &Token) -> Result<Option<Bytes>, AllocError>
    ensures { IfOk result (λ found. string_of token.now ≡ found) }
{
    if token.kind == STRING {
        delimited(alloc, token.text.as_slice())
    } else {
        Ok(None)
    }
}
