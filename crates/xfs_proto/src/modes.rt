//! Modes: a letter for the type, two for the bits that set user and group, and three octal digits.

ghost use Rattle.std.specs.Prelude.{◌≡◌, ◌<◌, ◌≤◌, ◌+◌, ◌*◌, ◌-◌, ◌^◌, ◌==◌, ◌&&◌, nat_le, Option, Some, None, IfSome};
ghost use Rattle.xfs_proto.specs.Modes.{bits_of, digit_of, flag_of, mode_of, mode_with, new_mode, permissions_of, permissions_with, type_bits, type_of_letter};

/// The type of a file.
#[derive(Clone, Copy)]
pub enum FileType {
    Regular,
    Directory,
    Link,
    Block,
    Character,
    Pipe,
}

/// A mode.
#[derive(Clone, Copy)]
pub struct Mode {
    pub kind: FileType,
    /// As it stands in an inode, the type in the upper four bits.
    pub bits: u16,
}

/// The bit that sets the user.
const SET_USER: u16 = 0o4000;
/// The bit that sets the group.
const SET_GROUP: u16 = 0o2000;

/// The mode that a token writes.
#[tactic(auto, unfolding(crate::specs::Modes::mode_of))]
pub(crate) fn mode_of(text: &[u8]) -> Option<Mode>
    ensures { result ≡ mode_of text.now }
{
    match text {
        [kind, user, group, owner, members, others] => mode_with(
            type_of_letter(*kind),
            flag_of(b'u', *user),
            flag_of(b'g', *group),
            permissions_of(*owner, *members, *others),
        ),
        _ => None,
    }
}

/// The mode of these parts, where each is there.
fn mode_with(
    kind: Option<FileType>,
    user: Option<bool>,
    group: Option<bool>,
    permissions: Option<u16>,
) -> Option<Mode>
    requires { IfSome permissions (λ p. p < 512) }
    ensures { result ≡ mode_with kind user group permissions }
{
    let kind = kind?;
    let user = user?;
    let group = group?;
    let permissions = permissions?;
    Some(new_mode(kind, user, group, permissions))
}

/// The mode of these parts.
fn new_mode(kind: FileType, user: bool, group: bool, permissions: u16) -> Mode
    requires { permissions < 512 }
    ensures { result ≡ new_mode kind user group permissions }
{
    Mode {
        kind,
        bits: bits_of(kind, user, group, permissions),
    }
}

/// The bits of a mode.
fn bits_of(kind: FileType, user: bool, group: bool, permissions: u16) -> u16
    requires { permissions < 512 }
    ensures { result ≡ bits_of kind user group permissions }
{
    let user = if user { SET_USER } else { 0 };
    let group = if group { SET_GROUP } else { 0 };
    type_bits(kind) + user + group + permissions
}

/// The type in the upper four bits of a mode.
fn type_bits(kind: FileType) -> u16
    ensures value { result ≡ type_bits kind }
    ensures small { result ≤ 0o120000 }
{
    match kind {
        FileType::Regular => 0o100000,
        FileType::Directory => 0o040000,
        FileType::Link => 0o120000,
        FileType::Block => 0o060000,
        FileType::Character => 0o020000,
        FileType::Pipe => 0o010000,
    }
}

/// The type that a letter names.
fn type_of_letter(letter: u8) -> Option<FileType>
    ensures { result ≡ type_of_letter letter }
{
    match letter {
        b'-' => Some(FileType::Regular),
        b'd' => Some(FileType::Directory),
        b'l' => Some(FileType::Link),
        b'b' => Some(FileType::Block),
        b'c' => Some(FileType::Character),
        b'p' => Some(FileType::Pipe),
        _ => None,
    }
}

/// Whether a bit is set: its letter says so, and `-` that it isn't.
fn flag_of(letter: u8, byte: u8) -> Option<bool>
    ensures { result ≡ flag_of letter byte }
{
    if byte == letter {
        Some(true)
    } else if byte == b'-' {
        Some(false)
    } else {
        None
    }
}

/// The permissions that three octal digits write.
fn permissions_of(owner: u8, members: u8, others: u8) -> Option<u16>
    ensures value { result ≡ permissions_of owner members others }
    ensures small { IfSome result (λ p. p < 512) }
{
    let owner = digit_of(owner)?;
    let members = digit_of(members)?;
    let others = digit_of(others)?;
    Some(owner * 64 + members * 8 + others)
}

/// The octal digit that a byte writes.
fn digit_of(byte: u8) -> Option<u16>
    ensures value { result ≡ digit_of byte }
    ensures small { IfSome result (λ d. d < 8) }
{
    if b'0' <= byte && byte <= b'7' {
        Some((byte - b'0') as u16)
    } else {
        None
    }
}
