//! The reader: it is given the tokens of a protofile one by one, and keeps the directories that are open.

ghost use Rattle.std.specs.Prelude.{◌≡◌, ℕ, ◌^◌, Ok, Err, IfOk, IfErr, OnOk};
ghost use Rattle.xfs_proto.specs.Modes.{mode_of};
ghost use Rattle.xfs_proto.specs.Numbers.{number_below};
ghost use Rattle.xfs_proto.specs.Reading.{after_group, after_ignored, after_kind, after_major, after_minor, after_mode, after_name, after_target, after_text, after_token, after_user, closed, device, finished, fits_name, fits_type, reader_state, IsProtoCause, HasEntryNames, entry_parent, start, with_node};

use crate::entry_names::EntryNames;
use crate::modes::{FileType, Mode, mode_of};
use crate::numbers::number_below;
use crate::protofile::{Proto, ProtoFault, ProtoKind, ProtoNode};
use std::alloc::Global;
use xfs_disk::{NoMemory, Word};
use xfs_volume::{Records, is_name};

/// Tokens lack.
const LACKING: u8 = 1;
/// It is no mode, or the root's isn't that of a directory.
const NO_MODE: u8 = 2;
/// It is no number, or one too large.
const NO_NUMBER: u8 = 3;
/// It can't be the name of an entry.
const NO_NAME: u8 = 4;
/// The target is too long.
const LONG_TARGET: u8 = 5;
/// It stands behind the end.
const BEHIND_END: u8 = 6;

/// The most entries of a directory.
const MOST_ENTRIES: u32 = 1 << 24;

/// The most bytes of a link's target.
const MOST_TARGET: usize = 1024;

/// Numbers of users and groups are below it.
const OWNERS: u64 = 1 << 32;

/// The upper numbers of devices are below it.
const MAJORS: u64 = 1 << 14;

/// The lower numbers of devices are below it.
const MINORS: u64 = 1 << 18;

/// What the next token is to be.
#[derive(Clone, Copy)]
pub(crate) enum NextToken {
    /// One of those that are ignored, of which so many are left.
    Ignored { left: u8 },
    /// The name of an entry, or the end of the directory.
    Name,
    Mode,
    User,
    Group,
    /// The name by which a library has the bytes of a file.
    Source,
    /// The target of a link.
    Target,
    /// The upper number of a device.
    Major,
    /// The lower number of a device.
    Minor,
}

/// A directory that is open.
#[derive(Clone, Copy)]
pub struct Open {
    /// Its place among the nodes.
    pub directory: u64,
    /// How many entries it has.
    pub entries: u32,
}

/// What has been read of an entry.
#[derive(Clone, Copy)]
pub(crate) struct Entry<'a> {
    pub name: &'a [u8],
    pub mode: Mode,
    pub uid: u32,
    pub gid: u32,
    /// The upper number of a device.
    pub major: u32,
}

/// How far tokens have been read.
#[derive(Drop)]
pub(crate) struct Reader<'a> {
    expected: NextToken,
    /// The line of the last token, 1 where there was none.
    line: u64,
    /// The directory whose entries are read; none in front of the root and behind its end.
    inside: Option<Open>,
    /// The directories round it, from the root on.
    outer: Vec<Open>,
    entry: Entry<'a>,
    names: EntryNames<'a>,
    nodes: Vec<ProtoNode>,
}

impl<'a> Reader<'a> {
    /// A reader that has read nothing.
    pub(crate) fn new(alloc: Global) -> Reader<'a>
        ensures held { reader_state result ≡ start }
        ensures steady { HasEntryNames result }
    {
        Reader {
            expected: NextToken::Ignored { left: 3 },
            line: 1,
            inside: None,
            outer: Vec::new(alloc),
            entry: Entry {
                name: &[],
                mode: Mode {
                    kind: FileType::Directory,
                    bits: 0,
                },
                uid: 0,
                gid: 0,
                major: 0,
            },
            names: EntryNames::new(alloc),
            nodes: Vec::new(alloc),
        }
    }

    /// Reads a token.
    pub(crate) fn take_token(
        &mut self,
        alloc: Global,
        text: &'a [u8],
        line: u64,
    ) -> Result<(), ProtoFault>
        requires steady { HasEntryNames self.old }
        ensures held { IfOk result (λ _. after_token (record { text = text.now; line = line }) (reader_state self.old) ≡ Ok (reader_state self.new)) }
        ensures steady { OnOk result (HasEntryNames self.new) }
        ensures refusal { IfErr result (IsProtoCause (after_token (record { text = text.now; line = line }) (reader_state self.old))) }
    {
        self.line = line;
        match self.expected {
            NextToken::Ignored { left } => {
                self.take_ignored(left);
                Ok(())
            }
            NextToken::Name => self.take_name(text),
            NextToken::Mode => self.take_mode(text),
            NextToken::User => self.take_user(text),
            NextToken::Group => self.take_group(alloc, text),
            NextToken::Source => self.take_source(alloc, text),
            NextToken::Target => self.take_target(alloc, text),
            NextToken::Major => self.take_major(text),
            NextToken::Minor => self.take_minor(alloc, text),
        }
    }

    /// Reads one of the first tokens, of which so many are left.
    fn take_ignored(&mut self, left: u8)
        requires steady { HasEntryNames self.old }
        ensures held { reader_state self.new ≡ after_ignored left (reader_state self.old) }
        ensures steady { HasEntryNames self.new }
    {
        self.expected = if left <= 1 {
            NextToken::Mode
        } else {
            NextToken::Ignored { left: left - 1 }
        };
    }

    /// Reads a token where a name or the end of a directory may stand.
    fn take_name(&mut self, text: &'a [u8]) -> Result<(), ProtoFault>
        requires steady { HasEntryNames self.old }
        ensures held { IfOk result (λ _. after_name self.old.inside text.now (reader_state self.old) ≡ Ok (reader_state self.new)) }
        ensures steady { OnOk result (HasEntryNames self.new) }
        ensures refusal { IfErr result (IsProtoCause (after_name self.old.inside text.now (reader_state self.old))) }
    {
        let Some(parent) = self.inside else {
            return Err(self.bad(BEHIND_END));
        };
        if text == b"$".as_slice() {
            self.close();
            return Ok(());
        }
        if !self.can_have(parent, text) {
            return Err(self.bad(NO_NAME));
        }
        self.inside = Some(Open {
            directory: parent.directory,
            entries: parent.entries + 1,
        });
        self.entry.name = text;
        self.expected = NextToken::Mode;
        Ok(())
    }

    /// Whether a directory can have one more entry, of this name.
    fn can_have(&self, parent: Open, name: &'a [u8]) -> bool
        requires steady { HasEntryNames self.now }
        ensures { result ≡ fits_name parent name.now self.now.nodes.items }
    {
        is_name(name) && parent.entries < MOST_ENTRIES && !self.names.has(parent.directory, name)
    }

    /// Ends the entries of the directory.
    fn close(&mut self)
        requires steady { HasEntryNames self.old }
        ensures held { reader_state self.new ≡ closed (reader_state self.old) }
        ensures steady { HasEntryNames self.new }
    {
        self.inside = self.outer.as_slice().last().copied();
        let _ = self.outer.pop();
    }

    /// Reads a mode.
    fn take_mode(&mut self, text: &[u8]) -> Result<(), ProtoFault>
        requires steady { HasEntryNames self.old }
        ensures held { IfOk result (λ _. after_mode (mode_of text.now) (reader_state self.old) ≡ Ok (reader_state self.new)) }
        ensures steady { OnOk result (HasEntryNames self.new) }
        ensures refusal { IfErr result (IsProtoCause (after_mode (mode_of text.now) (reader_state self.old))) }
    {
        let Some(mode) = mode_of(text) else {
            return Err(self.bad(NO_MODE));
        };
        if !fits_type(self.inside, mode.kind) {
            return Err(self.bad(NO_MODE));
        }
        self.entry.mode = mode;
        self.expected = NextToken::User;
        Ok(())
    }

    /// Reads the number of a user.
    fn take_user(&mut self, text: &[u8]) -> Result<(), ProtoFault>
        requires steady { HasEntryNames self.old }
        ensures held { IfOk result (λ _. after_user (number_below (2 ^ 32) text.now) (reader_state self.old) ≡ Ok (reader_state self.new)) }
        ensures steady { OnOk result (HasEntryNames self.new) }
        ensures refusal { IfErr result (IsProtoCause (after_user (number_below (2 ^ 32) text.now) (reader_state self.old))) }
    {
        let Some(uid) = number_below(OWNERS, text) else {
            return Err(self.bad(NO_NUMBER));
        };
        self.entry.uid = uid;
        self.expected = NextToken::Group;
        Ok(())
    }

    /// Reads the number of a group. What follows goes by the type.
    fn take_group(&mut self, alloc: Global, text: &[u8]) -> Result<(), ProtoFault>
        requires steady { HasEntryNames self.old }
        ensures held { IfOk result (λ _. after_group (number_below (2 ^ 32) text.now) (reader_state self.old) ≡ Ok (reader_state self.new)) }
        ensures steady { OnOk result (HasEntryNames self.new) }
        ensures refusal { IfErr result (IsProtoCause (after_group (number_below (2 ^ 32) text.now) (reader_state self.old))) }
    {
        let Some(gid) = number_below(OWNERS, text) else {
            return Err(self.bad(NO_NUMBER));
        };
        self.entry.gid = gid;
        match self.take_kind(alloc) {
            Ok(()) => Ok(()),
            Err(NoMemory) => Err(ProtoFault::NoMemory),
        }
    }

    /// Goes on by the type of the entry: what belongs to it follows, or it is whole.
    fn take_kind(&mut self, alloc: Global) -> Result<(), NoMemory>
        requires steady { HasEntryNames self.old }
        ensures held { OnOk result (reader_state self.new ≡ after_kind self.old.entry.mode.kind (reader_state self.old)) }
        ensures steady { OnOk result (HasEntryNames self.new) }
    {
        match self.entry.mode.kind {
            FileType::Regular => self.expected = NextToken::Source,
            FileType::Directory => self.begin_directory(alloc)?,
            FileType::Link => self.expected = NextToken::Target,
            FileType::Block | FileType::Character => self.expected = NextToken::Major,
            FileType::Pipe => self.push(alloc, ProtoKind::Pipe)?,
        }
        Ok(())
    }

    /// Adds a directory, whose entries follow.
    fn begin_directory(&mut self, alloc: Global) -> Result<(), NoMemory>
        requires steady { HasEntryNames self.old }
        ensures held { OnOk result (reader_state self.new ≡ after_kind FileType.Directory (reader_state self.old)) }
        ensures steady { OnOk result (HasEntryNames self.new) }
    {
        let directory = self.nodes.len() as u64;
        self.push(alloc, ProtoKind::Directory)?;
        if let Some(parent) = self.inside {
            self.outer.push(parent)?;
        }
        self.inside = Some(Open {
            directory,
            entries: 0,
        });
        Ok(())
    }

    /// Reads the name by which a library has the bytes of a file.
    fn take_source(&mut self, alloc: Global, text: &[u8]) -> Result<(), ProtoFault>
        requires steady { HasEntryNames self.old }
        ensures held { IfOk result (λ _. after_text NextToken.Source text.now (reader_state self.old) ≡ Ok (reader_state self.new)) }
        ensures steady { OnOk result (HasEntryNames self.new) }
        ensures refusal { IfErr result (IsProtoCause (after_text NextToken.Source text.now (reader_state self.old))) }
    {
        let Ok(name) = copied(alloc, text) else {
            return Err(ProtoFault::NoMemory);
        };
        self.push_last(
            alloc,
            ProtoKind::Regular {
                name,
                line: self.line,
            },
        )
    }

    /// Reads the target of a link.
    fn take_target(&mut self, alloc: Global, text: &[u8]) -> Result<(), ProtoFault>
        requires steady { HasEntryNames self.old }
        ensures held { IfOk result (λ _. after_target text.now (reader_state self.old) ≡ Ok (reader_state self.new)) }
        ensures steady { OnOk result (HasEntryNames self.new) }
        ensures refusal { IfErr result (IsProtoCause (after_target text.now (reader_state self.old))) }
    {
        if text.len() > MOST_TARGET {
            return Err(self.bad(LONG_TARGET));
        }
        let Ok(target) = copied(alloc, text) else {
            return Err(ProtoFault::NoMemory);
        };
        self.push_last(alloc, ProtoKind::Link(target))
    }

    /// Reads the upper number of a device.
    fn take_major(&mut self, text: &[u8]) -> Result<(), ProtoFault>
        requires steady { HasEntryNames self.old }
        ensures held { IfOk result (λ _. after_major (number_below (2 ^ 14) text.now) (reader_state self.old) ≡ Ok (reader_state self.new)) }
        ensures steady { OnOk result (HasEntryNames self.new) }
        ensures refusal { IfErr result (IsProtoCause (after_major (number_below (2 ^ 14) text.now) (reader_state self.old))) }
    {
        let Some(major) = number_below(MAJORS, text) else {
            return Err(self.bad(NO_NUMBER));
        };
        self.entry.major = major;
        self.expected = NextToken::Minor;
        Ok(())
    }

    /// Reads the lower number of a device.
    fn take_minor(&mut self, alloc: Global, text: &[u8]) -> Result<(), ProtoFault>
        requires steady { HasEntryNames self.old }
        ensures held { IfOk result (λ _. after_minor (number_below (2 ^ 18) text.now) (reader_state self.old) ≡ Ok (reader_state self.new)) }
        ensures steady { OnOk result (HasEntryNames self.new) }
        ensures refusal { IfErr result (IsProtoCause (after_minor (number_below (2 ^ 18) text.now) (reader_state self.old))) }
    {
        let Some(minor) = number_below(MINORS, text) else {
            return Err(self.bad(NO_NUMBER));
        };
        self.push_last(alloc, device(self.entry.mode.kind, self.entry.major, minor))
    }

    /// Adds the entry, of which this token was the last.
    fn push_last(&mut self, alloc: Global, kind: ProtoKind) -> Result<(), ProtoFault>
        requires steady { HasEntryNames self.old }
        ensures held { OnOk result (reader_state self.new ≡ with_node kind (reader_state self.old)) }
        ensures steady { OnOk result (HasEntryNames self.new) }
        ensures refusal { IfErr result (λ fault. fault ≡ ProtoFault.NoMemory) }
    {
        match self.push(alloc, kind) {
            Ok(()) => Ok(()),
            Err(NoMemory) => Err(ProtoFault::NoMemory),
        }
    }

    /// Adds the node of the entry. The name of another one, or the end of the directory, is next.
    fn push(&mut self, alloc: Global, kind: ProtoKind) -> Result<(), NoMemory>
        requires steady { HasEntryNames self.old }
        ensures held { OnOk result (reader_state self.new ≡ with_node kind (reader_state self.old)) }
        ensures steady { OnOk result (HasEntryNames self.new) }
    {
        let parent = entry_parent(self.inside);
        self.names.add(parent, self.entry.name)?;
        let name = copied(alloc, self.entry.name)?;
        self.nodes.push(ProtoNode {
            parent,
            name,
            mode: self.entry.mode.bits,
            uid: self.entry.uid,
            gid: self.entry.gid,
            kind,
        })?;
        self.expected = NextToken::Name;
        Ok(())
    }

    /// Why the last token can't stand where it does.
    fn bad(&self, reason: u8) -> ProtoFault
        ensures { result ≡ ProtoFault.Bad self.now.line reason }
    {
        ProtoFault::Bad {
            line: self.line,
            reason,
        }
    }

    /// The files, where the root has ended.
    pub(crate) fn finish(self) -> Result<Proto, ProtoFault>
        ensures nodes { IfOk result (λ proto. finished (Ok (reader_state self.entry)) ≡ Ok proto.nodes) }
        ensures refusal { IfErr result (IsProtoCause (finished (Ok (reader_state self.entry)))) }
    {
        match (self.expected, self.inside) {
            (NextToken::Name, None) => Ok(Proto {
                nodes: Records::from_vec(self.nodes),
            }),
            _ => Err(self.bad(LACKING)),
        }
    }
}

/// The place of an entry's directory; the root's is 0.
fn entry_parent(inside: Option<Open>) -> u64
    ensures { result ≡ entry_parent inside }
{
    match inside {
        Some(directory) => directory.directory,
        None => 0,
    }
}

/// Whether an entry of this type can stand there: the root is a directory.
fn fits_type(inside: Option<Open>, kind: FileType) -> bool
    ensures { result ≡ fits_type inside kind }
{
    match inside {
        Some(_) => true,
        None => matches!(kind, FileType::Directory),
    }
}

/// A device of this type.
fn device(kind: FileType, major: u32, minor: u32) -> ProtoKind
    ensures { result ≡ device kind major minor }
{
    match kind {
        FileType::Block => ProtoKind::Block { major, minor },
        _ => ProtoKind::Character { major, minor },
    }
}

/// A word of these bytes.
fn copied(alloc: Global, bytes: &[u8]) -> Result<Word, NoMemory>
    ensures { IfOk result (λ word. word ≡ bytes.now) }
{
    Ok(Word::from_slice(alloc, bytes)?)
}
