//! The names of the roots (X.660, annex A).

ghost use Rattle.std.specs.Prelude.{◌≡◌};
ghost use Rattle.asn1_names.specs.StandardModule.{is_same_name};
ghost use Rattle.gdmo_names.specs.FirstNames.{root_arc};

fn is_named(name: &[u8], word: &str) -> bool
    ensures { result ≡ is_same_name name.now word.now }
{
    name == word.as_bytes()
}

/// The arc of a root's name.
pub fn root_arc(name: &[u8]) -> Option<u64>
    ensures { result ≡ root_arc name.now }
{
    if is_named(name, "itu-t") {
        Some(0)
    } else if is_named(name, "ccitt") {
        Some(0)
    } else if is_named(name, "iso") {
        Some(1)
    } else if is_named(name, "joint-iso-itu-t") {
        Some(2)
    } else if is_named(name, "joint-iso-ccitt") {
        Some(2)
    } else {
        None
    }
}
