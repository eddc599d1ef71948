//! Values of ANY (X.208, section 27).

ghost use Rattle.std.specs.Prelude.{◌≡◌, IfOk, option_map};
ghost use Rattle.asn1_leaf_values.specs.LeafTexts.{any_said, whole_octets, tree_of};
ghost use Rattle.asn1_leaf_values.specs.TextValues.{said};

use super::bits::{pack, read_bits};
use asn1_values_syntax::ValueText;
use ber_tree::tree_reading::read_deep_tree;
use ber_tree::tree_writing::write_tree;
use std::alloc::{AllocError, Global};
use term_values::{Bytes, Tree, Value, ValueForm};
use token_grammar::token::HEX_STRING;

/// The octets of whole octets in hexadecimal digits.
fn whole_octets(alloc: Global, text: &ValueText) -> Result<Option<Bytes>, AllocError>
    ensures { IfOk result (λ found. whole_octets (said text.now) ≡ found) }
{
    let ValueText::Literal(token) = text else {
        return Ok(None);
    };
    if token.kind != HEX_STRING {
        return Ok(None);
    }
    let Some(bits) = read_bits(alloc, token)? else {
        return Ok(None);
    };
    if bits.items.as_slice().len() % 8 != 0 {
        return Ok(None);
    }
    Ok(Some(pack(alloc, bits.items.as_slice())?))
}

/// The one value that the octets are, of any depth: no value has as many others round it as there are octets.
fn tree_of(alloc: Global, octets: &[u8]) -> Result<Option<Tree>, AllocError>
    ensures { IfOk result (λ found. tree_of octets.now ≡ found) }
{
    match read_deep_tree(alloc, octets, octets.len())? {
        None => Ok(None),
        Some((tree, size)) => {
            if size == octets.len() {
                Ok(Some(tree))
            } else {
                Ok(None)
            }
        }
    }
}

/// A value of ANY: the octets of one value, kept with definite lengths, as short as may be.
pub fn read_any(alloc: Global, text: &ValueText) -> Result<Option<Value>, AllocError>
    ensures { IfOk result (λ found. any_said (said text.now) ≡ found) }
{
    let Some(octets) = whole_octets(alloc, text)? else {
        return Ok(None);
    };
    match tree_of(alloc, octets.as_slice())? {
        None => Ok(None),
        Some(tree) => {
            let mut items = Vec::new(alloc);
            write_tree(&tree, &mut items)?;
            Ok(Some(Value {
                form: ValueForm::Raw(Bytes { items }),
            }))
        }
    }
}
