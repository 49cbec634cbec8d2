//! Identifiers of volumes in words.

ghost use Rattle.std.specs.Prelude.{◌≡◌, nat_lt};
ghost use Rattle.std.specs.List.{list_all};
ghost use Rattle.uuid.specs.Text.{parsed};
ghost use Rattle.xfs_options.specs.Identifiers.{identifier_of};

use std::str::from_utf8;
use uuid::Uuid;

/// The identifier that a text gives in one of the forms that `uuid` parses.
#[tactic(auto, unfolding(crate::specs::Identifiers::identifier_of))]
pub(crate) fn identifier(text: &[u8]) -> Option<[u8; 16]>
    ensures { result ≡ identifier_of text.now }
{
    if !is_ascii(text) {
        return None;
    }
    match from_utf8(text) {
        Ok(text) => parsed(text),
        Err(_) => None,
    }
}

/// Whether each byte is ASCII.
fn is_ascii(text: &[u8]) -> bool
    ensures { result ≡ list_all (λ byte. nat_lt byte 128) text.now }
{
    text.iter().all(|byte| *byte < 128)
}

/// The identifier that a text parses to.
fn parsed(text: &str) -> Option<[u8; 16]>
    ensures { result ≡ parsed text.now }
{
    match Uuid::parse_str(text) {
        Ok(uuid) => Some(uuid.into_bytes()),
        Err(_) => None,
    }
}
