//! The commands by their names.

ghost use Rattle.std.specs.Prelude.{◌≡◌, ℕ, if◌then◌else◌, Some, None, IfOk};
ghost use Rattle.std.specs.List.{find};
ghost use Rattle.xfs_geom.specs.Volumes.{volume_of};
ghost use Rattle.xfs_commands.specs.Commands.{bad_command, converts, session_of, types, IsEffect, IsWithin};
ghost use Rattle.xfs_commands.specs.Verbs.{accepted, at_place, converts_named, names_verb, runs_alone, short_name, takes, taking, verb_name, word_at};
ghost use Rattle.xfs_objects.specs.Places.{is_place, measure_named};
ghost use Rattle.xfs_commands.specs.declared.commands.Verb.{Verb};

use crate::cursor::{Cursor, Verdict, refuse, refuse_word};
use crate::moves::{convert, go_to_head, go_to_number, hash, set_type, show_stack};
use xfs_disk::{NoMemory, Word};
use xfs_geom::Geometry;
use xfs_objects::{Measure, ObjectType};

/// The commands.
#[derive(Clone, Copy)]
pub enum Verb {
    Sb,
    Agf,
    Agi,
    Agfl,
    Inode,
    FsBlock,
    DiskAddress,
    Addr,
    Retype,
    Print,
    Push,
    Pop,
    Stack,
    Write,
    Convert,
    Hash,
    Quit,
}

/// Every command.
const ALL: [Verb; 17] = [
    Verb::Sb,
    Verb::Agf,
    Verb::Agi,
    Verb::Agfl,
    Verb::Inode,
    Verb::FsBlock,
    Verb::DiskAddress,
    Verb::Addr,
    Verb::Retype,
    Verb::Print,
    Verb::Push,
    Verb::Pop,
    Verb::Stack,
    Verb::Write,
    Verb::Convert,
    Verb::Hash,
    Verb::Quit,
];

impl Verb {
    /// The command of this name, where it takes so many words.
    #[tactic(auto, unfolding(crate::specs::Verbs::accepted))]
    pub fn accepted(name: &[u8], count: usize) -> Option<Verb>
        ensures { result ≡ accepted name.now count }
    {
        match find_named(&ALL, name) {
            Some(verb) => verb.taking(count),
            None => None,
        }
    }

    /// The command, where it takes so many words.
    fn taking(self, count: usize) -> Option<Verb>
        ensures { result ≡ taking (Some self) count }
    {
        if self.takes(count) { Some(self) } else { None }
    }

    /// Whether the command takes so many words.
    fn takes(self, count: usize) -> bool
        ensures { result ≡ takes self count }
    {
        match self {
            Verb::Sb | Verb::Agf | Verb::Agi | Verb::Agfl | Verb::Retype => count <= 1,
            Verb::Print | Verb::Push => true,
            Verb::Pop | Verb::Stack | Verb::Quit => count == 0,
            Verb::Write => count == 2,
            Verb::Convert => count == 3,
            _ => count == 1,
        }
    }

    /// Whether the command has this name, or this short name.
    fn names_verb(self, name: &[u8]) -> bool
        ensures { result ≡ names_verb name.now self }
    {
        self.name().as_bytes() == name || self.short_name().as_bytes() == name
    }

    /// The short name of the command, or its name again.
    fn short_name(self) -> &'static str
        ensures { result.now ≡ short_name self }
    {
        match self {
            Verb::FsBlock => "fsb",
            Verb::Addr => "a",
            Verb::Print => "p",
            Verb::Quit => "q",
            _ => self.name(),
        }
    }

    /// The name of the command.
    fn name(self) -> &'static str
        ensures { result.now ≡ verb_name self }
    {
        match self {
            Verb::Sb => "sb",
            Verb::Agf => "agf",
            Verb::Agi => "agi",
            Verb::Agfl => "agfl",
            Verb::Inode => "inode",
            Verb::FsBlock => "fsblock",
            Verb::DiskAddress => "daddr",
            Verb::Addr => "addr",
            Verb::Retype => "type",
            Verb::Print => "print",
            Verb::Push => "push",
            Verb::Pop => "pop",
            Verb::Stack => "stack",
            Verb::Write => "write",
            Verb::Convert => "convert",
            Verb::Hash => "hash",
            Verb::Quit => "quit",
        }
    }
}

/// The first of the commands that has this name.
fn find_named(verbs: &[Verb], name: &[u8]) -> Option<Verb>
    ensures { result ≡ find (names_verb name.now) verbs.now }
{
    for verb in verbs {
        if verb.names_verb(name) {
            return Some(*verb);
        }
    }
    None
}

/// The word of this number, or an empty one.
pub fn word_at(words: &[Word], index: usize) -> &[u8]
    ensures { result.now ≡ word_at words.now index }
{
    match words.get(index) {
        Some(word) => word.bytes(),
        None => &[],
    }
}

/// Runs a command that looks at no object.
pub fn run_alone(
    text: &mut Vec<u8>,
    geometry: &Geometry,
    cursor: &mut Cursor,
    verb: Verb,
    name: &[u8],
    arguments: &[Word],
) -> Result<Verdict, NoMemory>
    requires within { IsWithin geometry.now.dblocks (session_of cursor.old) }
    ensures within { IsWithin geometry.now.dblocks (session_of cursor.new) }
    ensures effect { IfOk result (λ verdict. IsEffect (runs_alone (volume_of geometry.now) verb name.now arguments.now (session_of cursor.old)) verdict text.old.items text.new.items (session_of cursor.new) None) }
{
    let first = word_at(arguments, 0);
    match verb {
        Verb::Sb => go_to_head(text, geometry, cursor, ObjectType::Sb, 0, arguments),
        Verb::Agf => go_to_head(text, geometry, cursor, ObjectType::Agf, 1, arguments),
        Verb::Agi => go_to_head(text, geometry, cursor, ObjectType::Agi, 2, arguments),
        Verb::Agfl => go_to_head(text, geometry, cursor, ObjectType::Agfl, 3, arguments),
        Verb::Inode => go_to_number(
            text,
            geometry,
            cursor,
            Measure::InodeNumber,
            ObjectType::Inode,
            first,
        ),
        Verb::FsBlock => go_to_number(
            text,
            geometry,
            cursor,
            Measure::FsBlock,
            ObjectType::Data,
            first,
        ),
        Verb::DiskAddress => go_to_number(
            text,
            geometry,
            cursor,
            Measure::DiskAddress,
            ObjectType::Data,
            first,
        ),
        Verb::Retype => change_type(text, cursor, arguments),
        Verb::Pop => cursor.pop(text),
        Verb::Stack => show_stack(text, cursor),
        Verb::Convert => convert_named(text, geometry, cursor, name, arguments),
        Verb::Hash => hash(text, cursor, first),
        Verb::Quit => Ok(Verdict::Quit),
        Verb::Addr => refuse_word(text, "bad command: ", name),
        Verb::Print => refuse_word(text, "bad command: ", name),
        Verb::Push => refuse_word(text, "bad command: ", name),
        Verb::Write => refuse_word(text, "bad command: ", name),
    }
}

/// Sets the type of the current place, or prints it.
fn change_type(
    text: &mut Vec<u8>,
    cursor: &mut Cursor,
    arguments: &[Word],
) -> Result<Verdict, NoMemory>
    ensures within { (n : ℕ) → IsWithin n (session_of cursor.old) → IsWithin n (session_of cursor.new) }
    ensures effect { IfOk result (λ verdict. IsEffect (at_place cursor.old.at (λ place. types place arguments.now (session_of cursor.old)) (session_of cursor.old)) verdict text.old.items text.new.items (session_of cursor.new) None) }
{
    match cursor.at {
        Some(place) => set_type(text, cursor, place, arguments),
        None => refuse(text, "no address\n"),
    }
}

/// Converts a number, where both measures are known.
fn convert_named(
    text: &mut Vec<u8>,
    geometry: &Geometry,
    cursor: &Cursor,
    name: &[u8],
    arguments: &[Word],
) -> Result<Verdict, NoMemory>
    ensures { IfOk result (λ verdict. IsEffect (converts_named (volume_of geometry.now) name.now (measure_named (word_at arguments.now 0)) (word_at arguments.now 1) (measure_named (word_at arguments.now 2)) (session_of cursor.now)) verdict text.old.items text.new.items (session_of cursor.now) None) }
{
    convert_source(
        text,
        geometry,
        cursor,
        name,
        Measure::named(word_at(arguments, 0)),
        word_at(arguments, 1),
        Measure::named(word_at(arguments, 2)),
    )
}

/// Converts a number, where there are both measures.
fn convert_source(
    text: &mut Vec<u8>,
    geometry: &Geometry,
    cursor: &Cursor,
    name: &[u8],
    source: Option<Measure>,
    word: &[u8],
    target: Option<Measure>,
) -> Result<Verdict, NoMemory>
    ensures { IfOk result (λ verdict. IsEffect (converts_named (volume_of geometry.now) name.now source word.now target (session_of cursor.now)) verdict text.old.items text.new.items (session_of cursor.now) None) }
{
    match source {
        Some(source) => convert_target(text, geometry, cursor, name, source, word, target),
        None => refuse_word(text, "bad command: ", name),
    }
}

/// Converts a number from a measure, where there is one to convert it to.
fn convert_target(
    text: &mut Vec<u8>,
    geometry: &Geometry,
    cursor: &Cursor,
    name: &[u8],
    source: Measure,
    word: &[u8],
    target: Option<Measure>,
) -> Result<Verdict, NoMemory>
    ensures { IfOk result (λ verdict. IsEffect (converts_named (volume_of geometry.now) name.now (Some source) word.now target (session_of cursor.now)) verdict text.old.items text.new.items (session_of cursor.now) None) }
{
    match target {
        Some(target) => convert_from(text, geometry, cursor, name, source, word, target),
        None => refuse_word(text, "bad command: ", name),
    }
}

/// Converts a number from a measure, where that says where something stands.
fn convert_from(
    text: &mut Vec<u8>,
    geometry: &Geometry,
    cursor: &Cursor,
    name: &[u8],
    source: Measure,
    word: &[u8],
    target: Measure,
) -> Result<Verdict, NoMemory>
    ensures { IfOk result (λ verdict. IsEffect (if is_place source then converts (volume_of geometry.now) source word.now target (session_of cursor.now) else bad_command name.now (session_of cursor.now)) verdict text.old.items text.new.items (session_of cursor.now) None) }
{
    if source.is_place() {
        convert(text, geometry, cursor, source, word, target)
    } else {
        refuse_word(text, "bad command: ", name)
    }
}
