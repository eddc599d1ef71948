//! The name of a log in the line of an entry, an RDNSequence: X.501; docs/PROFILE.md, section 5.

ghost use Rattle.std.specs.Prelude.{◌≡◌, IfOk};
ghost use Rattle.agent_model.specs.LogNames.{log_octets};

use ber_tree::tree_writing::{reverse_from, write_header_backwards};
use result_contents::names::write_rdns;
use std::alloc::{AllocError, Global};
use term_model::Rdn;
use term_values::{Bytes, Tag};

/// The written RDNSequence of a name. The refusal is that there is no memory.
pub fn log_name(alloc: Global, name: &[Rdn]) -> Result<Bytes, AllocError>
    ensures { IfOk result (λ octets. octets ≡ log_octets name.now) }
{
    let mut items = Vec::new(alloc);
    write_rdns(name, &mut items)?;
    let size = items.as_slice().len();
    write_header_backwards(true, Tag::SEQUENCE, size, &mut items)?;
    reverse_from(0, &mut items);
    Ok(Bytes { items })
}
