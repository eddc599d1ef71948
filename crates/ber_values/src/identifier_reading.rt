//! The identifier that contents octets denote: X.690, section 8.19.

ghost use Rattle.std.specs.Prelude.{◌≡◌, IfOk};
ghost use Rattle.term_values.specs.Oid.{oid_in};

use ber_tree::tree_reading::read_oid_contents;
use std::alloc::{AllocError, Global};
use term_values::Oid;

/// The identifier that contents octets denote, or none where they denote none.
pub fn read_oid(alloc: Global, contents: &[u8]) -> Result<Option<Oid>, AllocError>
    ensures { IfOk result (λ oid. oid ≡ oid_in contents.now) }
{
    match read_oid_contents(alloc, contents)? {
        None => Ok(None),
        Some(oid) => {
            // What the call says of the arcs is what the definition tests.
            let _arcs = oid.arcs();
            Ok(Some(oid))
        }
    }
}
