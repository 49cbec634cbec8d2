//! The tokens of a text: what stands between blanks, tabs and line feeds, without comments.

ghost use Rattle.std.specs.Prelude.{◌≡◌, ◌≢◌, ℕ, ◌+◌, ◌≤◌, ◌<◌, ◌==◌, ◌||◌, ◌-◌, ◌^◌, if◌then◌else◌, Ok, Err, List, length, slice_index, IfOk, IfErr, OnOk};
ghost use Rattle.xfs_proto.specs.Grammar.{IsProtofile, Lacks, OffendsFirstToken};
ghost use Rattle.xfs_proto.specs.Reading.{after_tokens, reader_state, IsProtoCause, HasEntryNames, nodes_of, start};
ghost use Rattle.xfs_proto.specs.Scanning.{TokenBeginsBefore, IsScan, place_of, read_on};
ghost use Rattle.xfs_proto.specs.Tokens.{behind_blank, behind_byte, ended, is_blank, next_line, tokens_of};

use crate::protofile::{Proto, ProtoFault, ProtoNode};
use crate::reading::Reader;
use std::alloc::Global;

/// Where a byte stands.
#[derive(Clone, Copy)]
pub(crate) enum Place {
    /// Between tokens.
    Between,
    /// In a token that begins there.
    Inside { from: usize },
    /// In a comment.
    Comment,
}

/// How far a text has been read.
#[derive(Drop)]
struct Scan<'a> {
    reader: Reader<'a>,
    /// Where the next byte stands.
    place: Place,
    /// Its line, from 1.
    line: u64,
}

/// Reads a protofile: the files that it says, depth first, the root first. Where it is none, that says the line and the
/// reason of the first token that can't stand where it does.
pub fn read_proto(alloc: Global, text: &[u8]) -> Result<Proto, ProtoFault>
    ensures nodes { IfOk result (λ proto. nodes_of text.now ≡ Ok proto.nodes) }
    ensures refusal { IfErr result (IsProtoCause (nodes_of text.now)) }
    ensures grammar { IfOk result (λ proto. IsProtofile (tokens_of text.now) proto.nodes) }
    ensures refused { (line reason : ℕ) (nodes : List ProtoNode) → result ≡ Err (ProtoFault.Bad line reason) → IsProtofile (tokens_of text.now) nodes → ⊥ }
    ensures lacking { (line : ℕ) → result ≡ Err (ProtoFault.Bad line 1) → Lacks (tokens_of text.now) line }
    ensures offending { (line reason : ℕ) → result ≡ Err (ProtoFault.Bad line reason) → reason ≢ 1 → OffendsFirstToken (tokens_of text.now) line }
{
    read_nodes(alloc, text)
}

/// Reads a protofile.
#[tactic(auto, unfolding(crate::specs::Reading::nodes_of))]
fn read_nodes(alloc: Global, text: &[u8]) -> Result<Proto, ProtoFault>
    ensures nodes { IfOk result (λ proto. nodes_of text.now ≡ Ok proto.nodes) }
    ensures refusal { IfErr result (IsProtoCause (nodes_of text.now)) }
{
    match read_text(alloc, text) {
        Ok(reader) => reader.finish(),
        Err(fault) => Err(fault),
    }
}

/// Reads the tokens of a text.
#[tactic(auto, unfolding(crate::specs::Tokens::tokens_of))]
fn read_text<'a>(alloc: Global, text: &'a [u8]) -> Result<Reader<'a>, ProtoFault>
    ensures held { IfOk result (λ reader. after_tokens (tokens_of text.now) (Ok start) ≡ Ok (reader_state reader)) }
    ensures refusal { IfErr result (IsProtoCause (after_tokens (tokens_of text.now) (Ok start))) }
{
    let mut scan = Scan {
        reader: Reader::new(alloc),
        place: Place::Between,
        line: 1,
    };
    for at in 0..text.len() {
        match scan.take_byte(alloc, text, at) {
            Ok(()) => {}
            Err(fault) => return Err(fault),
        }
    }
    scan.finish(alloc, text)
}

impl<'a> Scan<'a> {
    /// Reads the byte at a place.
    fn take_byte(&mut self, alloc: Global, text: &'a [u8], at: usize) -> Result<(), ProtoFault>
        requires scan { IsScan at self.old }
        requires inside { at < length text.now }
        ensures read { IfOk result (λ _. read_on text.now (at + 1) self.new ≡ read_on text.now at self.old) }
        ensures scan { OnOk result (IsScan (at + 1) self.new) }
        ensures refusal { IfErr result (IsProtoCause (read_on text.now at self.old)) }
    {
        let byte = text[at];
        if !is_blank(byte) {
            self.place = behind_byte(text, at, self.place);
            return Ok(());
        }
        match self.end_token(alloc, text, at) {
            Ok(()) => {}
            Err(fault) => return Err(fault),
        }
        self.place = behind_blank(byte, self.place);
        self.line = next_line(byte, self.line);
        Ok(())
    }

    /// Reads the token that ends in front of a place, where one does.
    fn end_token(&mut self, alloc: Global, text: &'a [u8], at: usize) -> Result<(), ProtoFault>
        requires scan { IsScan at self.old }
        requires inside { at ≤ length text.now }
        ensures held { IfOk result (λ _. after_tokens (ended self.old.line (place_of text.now at self.old.place)) (Ok (reader_state self.old.reader)) ≡ Ok (reader_state self.new.reader)) }
        ensures steady { OnOk result (HasEntryNames self.new.reader) }
        ensures refusal { IfErr result (IsProtoCause (after_tokens (ended self.old.line (place_of text.now at self.old.place)) (Ok (reader_state self.old.reader)))) }
        ensures place { self.new.place ≡ self.old.place }
        ensures line { self.new.line ≡ self.old.line }
    {
        match self.place {
            Place::Inside { from } => self.reader.take_token(alloc, &text[from..at], self.line),
            Place::Between | Place::Comment => Ok(()),
        }
    }

    /// Reads the token that ends with the text, where one does.
    fn finish(mut self, alloc: Global, text: &'a [u8]) -> Result<Reader<'a>, ProtoFault>
        requires scan { IsScan (length text.now) self }
        ensures held { IfOk result (λ reader. read_on text.now (length text.now) self.entry ≡ Ok (reader_state reader)) }
        ensures refusal { IfErr result (IsProtoCause (read_on text.now (length text.now) self.entry)) }
    {
        match self.end_token(alloc, text, text.len()) {
            Ok(()) => {
                let Scan { reader, .. } = self;
                Ok(reader)
            }
            Err(fault) => Err(fault),
        }
    }
}

/// Whether a byte stands between tokens: a blank, a tab or a line feed.
fn is_blank(byte: u8) -> bool
    ensures { result ≡ is_blank byte }
{
    byte == b' ' || byte == b'\t' || byte == b'\n'
}

/// The line behind a byte.
fn next_line(byte: u8, line: u64) -> u64
    requires { line < 2 ^ 64 - 1 }
    ensures { result ≡ next_line byte line }
{
    if byte == b'\n' { line + 1 } else { line }
}

/// Where the byte behind a blank stands.
fn behind_blank(byte: u8, place: Place) -> Place
    ensures told { (text : List ℕ) (at : ℕ) → place_of text (at + 1) result ≡ behind_blank byte (place_of text at place) }
    ensures begins { (at : ℕ) → TokenBeginsBefore at result }
{
    match place {
        Place::Comment if byte != b'\n' => Place::Comment,
        _ => Place::Between,
    }
}

/// Where the byte behind that at a place stands, which is no blank.
#[tactic(auto, using(crate::proofs::Ranges::inside_more))]
fn behind_byte(text: &[u8], at: usize, place: Place) -> Place
    requires inside { at < length text.now }
    requires begins { TokenBeginsBefore at place }
    ensures told { place_of text.now (at + 1) result ≡ behind_byte (slice_index text.now at) (place_of text.now at place) }
    ensures begins { TokenBeginsBefore (at + 1) result }
{
    match place {
        Place::Between => begin(text[at], at),
        Place::Inside { from } => Place::Inside { from },
        Place::Comment => Place::Comment,
    }
}

/// Where the byte behind the first one of a token or a comment stands.
fn begin(byte: u8, at: usize) -> Place
    ensures { result ≡ (if byte == 58 then Place.Comment else Place.Inside at) }
{
    if byte == b':' {
        Place::Comment
    } else {
        Place::Inside { from: at }
    }
}
