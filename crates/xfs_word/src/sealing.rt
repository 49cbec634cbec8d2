//! Sealed objects: the test, and the checksum that seals.

ghost use Rattle.std.specs.Prelude.{◌≡◌, ℕ, ◌+◌, ◌≤◌, length, IsTrue, IfSome};
ghost use Rattle.xfs_word.specs.Crc.{crc_of, cleared, little_field_of};
ghost use Rattle.xfs_word.specs.Field.{is_width, SameBeside, KeepsBeside, KeepsParts};
ghost use Rattle.xfs_word.specs.Seal.{layout_of, identifier_is, number_is, owner_is, is_lsn, is_ready, is_sealed};

use crate::checksum::{is_checksum_right, put_checksum};
use crate::fields::{field, get64, part};
use crate::kinds::{FieldPlace, Seal};

/// Whether `bytes` are an object that is sealed as `seal` states.
#[tactic(auto, unfolding(crate::specs::Seal::is_sealed))]
pub fn sealed(seal: &Seal, bytes: &[u8]) -> bool
    requires { length bytes.now ≡ (layout_of seal.now.kind).size }
    ensures { result ≡ is_sealed seal.now bytes.now }
{
    let layout = seal.kind.layout();
    if !ready(seal, bytes) {
        return false;
    }
    is_checksum_right(bytes, layout.checksum)
}

/// Whether `bytes` are an object that is right as `seal` states in all but the checksum.
#[tactic(auto, unfolding(crate::specs::Seal::is_ready))]
pub fn ready(seal: &Seal, bytes: &[u8]) -> bool
    requires { length bytes.now ≡ (layout_of seal.now.kind).size }
    ensures { result ≡ is_ready seal.now bytes.now }
{
    let layout = seal.kind.layout();
    if !seal.kind.is_magic_right(bytes) {
        return false;
    }
    if !is_identifier(layout.identifier, &seal.uuid, bytes) {
        return false;
    }
    if !is_number(layout.address, seal.place, bytes) {
        return false;
    }
    if !is_owner(layout.owner, seal.owner, bytes) {
        return false;
    }
    is_log_number(get64(bytes, layout.lsn))
}

/// Writes the checksum of an object of the kind that `seal` states, which seals it where all else
/// is right.
pub fn seal(seal: &Seal, bytes: &mut [u8])
    requires { length bytes.old ≡ (layout_of seal.now.kind).size }
    ensures put { let at = (layout_of seal.now.kind).checksum in little_field_of bytes.new at 4 ≡ crc_of (cleared bytes.old at) }
    ensures sealed { IsTrue (is_ready seal.now bytes.old) → IsTrue (is_sealed seal.now bytes.new) }
    ensures keeps { KeepsBeside bytes.old bytes.new (layout_of seal.now.kind).checksum 4 }
    ensures keeps_parts { KeepsParts bytes.old bytes.new (layout_of seal.now.kind).checksum 4 }
    ensures others { SameBeside bytes.old bytes.new (layout_of seal.now.kind).checksum 4 }
{
    let layout = seal.kind.layout();
    put_checksum(bytes, layout.checksum);
}

/// Whether the identifier at `at`, where there is one, is `uuid`.
fn is_identifier(at: Option<usize>, uuid: &[u8; 16], bytes: &[u8]) -> bool
    requires { IfSome at (λ at. at + 16 ≤ length bytes.now) }
    ensures { result ≡ identifier_is at uuid.now bytes.now }
{
    match at {
        Some(at) => part(bytes, at, 16) == &uuid[..],
        None => true,
    }
}

/// Whether the number at `place`, where there is one, is `number`.
fn is_number(place: Option<FieldPlace>, number: u64, bytes: &[u8]) -> bool
    requires { IfSome place (λ place. IsTrue (is_width place.width) × (place.offset + place.width ≤ length bytes.now)) }
    ensures { result ≡ number_is place number bytes.now }
{
    match place {
        Some(place) => field(bytes, place.offset, place.width) == number,
        None => true,
    }
}

/// Whether the owner at `place`, where one is demanded, is that one.
fn is_owner(place: Option<FieldPlace>, owner: Option<u64>, bytes: &[u8]) -> bool
    requires { IfSome place (λ place. IsTrue (is_width place.width) × (place.offset + place.width ≤ length bytes.now)) }
    ensures { result ≡ owner_is place owner bytes.now }
{
    match owner {
        Some(owner) => is_number(place, owner, bytes),
        None => true,
    }
}

/// Whether `lsn` is all ones, or its cycle, the upper 32 bits, is below 2^31 - 1.
fn is_log_number(lsn: u64) -> bool
    ensures { result ≡ is_lsn lsn }
{
    lsn == u64::MAX || lsn >> 32 < 0x7fff_ffff
}
