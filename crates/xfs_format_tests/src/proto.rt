//! Whole protofiles. In their texts a semicolon stands for a line feed, `~` for a tab, and `<3*ab>` for `ababab`.

use crate::checks::{equal_at, must};
use crate::text::{Row, line_at, line_count, tells};
use std::alloc::{AllocError, Global};
use std::fmt::Write;
use std::process::Abort;
use xfs_disk::Word;
use xfs_proto::{ProtoKind, ProtoNode, read_proto};

/// The bytes that a text stands for.
fn expanded(rt: &impl Abort, alloc: Global, text: &str) -> Vec<u8> {
    let mut bytes = Vec::new(alloc);
    for piece in text.split('<') {
        push_piece(rt, &mut bytes, piece);
    }
    bytes
}

/// Adds the bytes of a piece, which may begin with a repetition.
fn push_piece(rt: &impl Abort, bytes: &mut Vec<u8>, piece: &str) {
    let (repeated, rest) = piece.split_once('>').unwrap_or(("0*", piece));
    let (count, part) = repeated.split_once('*').unwrap_or(("1", repeated));
    for _ in 0..count.parse::<u32>().unwrap_or(1) {
        push_text(rt, bytes, part);
    }
    push_text(rt, bytes, rest);
}

/// Adds the bytes of a text without repetitions.
fn push_text(rt: &impl Abort, bytes: &mut Vec<u8>, text: &str) {
    for byte in text.as_bytes() {
        must(rt, bytes.push(byte_of(*byte)));
    }
}

/// The byte that a character stands for.
fn byte_of(byte: u8) -> u8 {
    match byte {
        b';' => b'\n',
        b'~' => b'\t',
        byte => byte,
    }
}

/// A word as text.
fn said(word: &Word) -> &str {
    str::from_utf8(word.bytes()).unwrap_or("?")
}

/// A node as text: its directory, its name, its mode in octal, its owners, and its kind as a protofile says it.
fn write_node(text: &mut String, node: &ProtoNode) -> Result<(), AllocError> {
    write_head(text, node)?;
    write_kind(text, &node.kind)
}

/// What a node says beside its kind.
fn write_head(text: &mut String, node: &ProtoNode) -> Result<(), AllocError> {
    let name = said(&node.name);
    write!(
        text,
        "{} {} {:o} {} {} ",
        node.parent, name, node.mode, node.uid, node.gid
    )
}

/// A kind as a protofile says it.
fn write_kind(text: &mut String, kind: &ProtoKind) -> Result<(), AllocError> {
    match kind {
        ProtoKind::Regular { name, line } => write!(text, "- {} {}", said(name), line),
        ProtoKind::Directory => text.push_str("d"),
        ProtoKind::Link(target) => write!(text, "l {}", said(target)),
        ProtoKind::Block { major, minor } => write_device(text, "b", *major, *minor),
        ProtoKind::Character { major, minor } => write_device(text, "c", *major, *minor),
        ProtoKind::Pipe => text.push_str("p"),
    }
}

/// A device as a protofile says it.
fn write_device(text: &mut String, kind: &str, major: u32, minor: u32) -> Result<(), AllocError> {
    write!(text, "{} {} {}", kind, major, minor)
}

/// Nodes as text, with commas between them.
fn text_of(rt: &impl Abort, alloc: Global, nodes: &[ProtoNode]) -> String {
    let mut text = String::new(alloc);
    for (k, node) in nodes.iter().enumerate() {
        if k > 0 {
            must(rt, text.push_str(", "));
        }
        must(rt, write_node(&mut text, node));
    }
    text
}

/// Protofiles, and their files or why they are refused.
const WHOLE: &str = "\
x 0 0 d--755 0 0 $ | 0  40755 0 0 d
/stand/diskboot;4872 110;d--777 3 1;usr~d--777 3 1;sh~---755 3 1 /bin/sh;ken~d--755 6 1;~$;b0 b--644 3 1 0 0;c0 c--644 3 1 0 0;fifo p--644 3 1;slink l--644 3 1 /a/symbolic/link;:  This is a comment line;$;$; | 0  40777 3 1 d, 0 usr 40777 3 1 d, 1 sh 100755 3 1 - /bin/sh 5, 1 ken 40755 6 1 d, 1 b0 60644 3 1 b 0 0, 1 c0 20644 3 1 c 0 0, 1 fifo 10644 3 1 p, 1 slink 120644 3 1 l /a/symbolic/link
: one;x : two $ $;: ;0 :three;0 d--755 0 0 $ : four ; :five | 0  40755 0 0 d
:x 0 0 d--755 0 0 $; x d--755 :;:;$ dug007 1 2 $ | 0  46007 1 2 d
x 0 0 du-700 0 0 a:b -u-644 4294967295 0 :c d;e: c -ug000 0 4294967295 $;$ | 0  44700 0 0 d, 0 a:b 104644 4294967295 0 - e: 2, 0 c 106000 0 4294967295 - $ 2
x 0 0 d-g755 0 0 a p--644 0 0 d d--755 0 0 a p--644 0 0 $ b p--644 0 0 e d--755 0 0 $ $ | 0  42755 0 0 d, 0 a 10644 0 0 p, 0 d 40755 0 0 d, 2 a 10644 0 0 p, 0 b 10644 0 0 p, 0 e 40755 0 0 d
x 0 0 d--755 0 0 $$ c--666 0 0 16383 262143 .. . $ | Bad { line: 1, reason: 4 }
x 0 0 d--755 0 0 $$ c--666 0 0 16383 262143 ... b--666 0 0 1 1 $ | 0  40755 0 0 d, 0 $$ 20666 0 0 c 16383 262143, 0 ... 60666 0 0 b 1 1
 | Bad { line: 1, reason: 1 }
;;: x; | Bad { line: 1, reason: 1 }
;x;;0;:; | Bad { line: 4, reason: 1 }
x 0 0 d--755 0 0 | Bad { line: 1, reason: 1 }
x 0 0 d--755 0 0;a d--755 0 0;$;; | Bad { line: 3, reason: 1 }
x 0 0 d--755 0 0 a ---644 0 0 | Bad { line: 1, reason: 1 }
x 0 0 d--758 0 0 $ | Bad { line: 1, reason: 2 }
x;0;0;---755 0 0 a $ | Bad { line: 4, reason: 2 }
x 0 0 d--755 0 0;a s--644 0 0 $ | Bad { line: 2, reason: 2 }
x 0 0 d--755 0 0 a -g-644 0 0 b $ | Bad { line: 1, reason: 2 }
x 0 0 d--755 0 0 a --u644 0 0 b $ | Bad { line: 1, reason: 2 }
x 0 0 d--755 0 0 a ---64 0 0 b $ | Bad { line: 1, reason: 2 }
x 0 0 d--755 0 0 a ---0644 0 0 b $ | Bad { line: 1, reason: 2 }
x 0 0 d--755 0 0 a $ | Bad { line: 1, reason: 2 }
x 0 0 d--755 4294967296 0 $ | Bad { line: 1, reason: 3 }
x 0 0 d--755 0 18446744073709551616 $ | Bad { line: 1, reason: 3 }
x 0 0 d--755 0 00 $ | Bad { line: 1, reason: 3 }
x 0 0 d--755 01 0 $ | Bad { line: 1, reason: 3 }
x 0 0 d--755 -1 0 $ | Bad { line: 1, reason: 3 }
x 0 0 d--755 0x1 0 $ | Bad { line: 1, reason: 3 }
x 0 0 d--755 0 $ | Bad { line: 1, reason: 3 }
x 0 0 d--755 0 0;a b--644 0 0;16384 0 $ | Bad { line: 3, reason: 3 }
x 0 0 d--755 0 0;a c--644 0 0;0;262144 $ | Bad { line: 4, reason: 3 }
x 0 0 d--755 0 0;a c--644 0 0 1 $ | Bad { line: 2, reason: 3 }
x 0 0 d--755 0 0;a/b ---644 0 0 b $ | Bad { line: 2, reason: 4 }
x 0 0 d--755 0 0;a p--644 0 0;d d--755 0 0;$;a p--644 0 0 $ | Bad { line: 5, reason: 4 }
x 0 0 d--755 0 0;a d--755 0 0;b p--644 0 0 $;b p--644 0 0 a d--755 0 0 $ | Bad { line: 4, reason: 4 }
x 0 0 d--755 0 0;<256*n> p--644 0 0 $ | Bad { line: 2, reason: 4 }
x 0 0 d--755 0 0 a l--777 0 0;<1025*t> $ | Bad { line: 2, reason: 5 }
x 0 0 d--755 0 0 $;$ | Bad { line: 2, reason: 6 }
x 0 0 d--755 0 0 $ :;;a ---644 0 0 b $ | Bad { line: 3, reason: 6 }
x 0 0 d--755 0 0;<200*d d--755 0 0;><199*$ > | Bad { line: 202, reason: 1 }
x 0 0 d--755 0 0;<200*d d--755 0 0;><200*$ >;; | Bad { line: 202, reason: 1 }
x 0 0 d--755 0 0;<200*d d--755 0 0;><201*$ >;;$ | Bad { line: 204, reason: 6 }
";

#[test]
fn protofiles(rt: HostRuntime) {
    let rt = &rt;
    let alloc = rt.alloc();
    for i in 0..line_count(WHOLE) {
        let line = line_at(WHOLE, i);
        let mut row = Row::new(line);
        let text = expanded(rt, alloc, row.text());
        match read_proto(alloc, &text) {
            Ok(proto) => {
                let held = text_of(rt, alloc, proto.nodes.as_slice());
                equal_at(rt, held.as_str(), row.text(), line);
            }
            Err(fault) => tells(rt, &fault, row.text(), line),
        }
    }
}

/// Protofiles, how many files they say, and the last of them.
const LONG: &str = "\
x 0 0 d--755 0 0;<200*d d--755 0 0;><201*$ > | 201 | 199 d 40755 0 0 d
x 0 0 d--755 0 0;<2000*d d--755 0 0;>e p--644 0 0 <2001*$ > | 2002 | 2000 e 10644 0 0 p
x 0 0 d--755 0 0 <255*n> p--644 0 0 $ | 2 | 0 <255*n> 10644 0 0 p
x 0 0 d--755 0 0 a l--777 0 0 <1024*t> $ | 2 | 0 a 120777 0 0 l <1024*t>
x 0 0 d--755 0 0;<300*d d--755 0 0;><300*$;a ---644 0 0 src;>$ | 601 | 0 a 100644 0 0 - src 901
";

#[test]
fn long_protofiles(rt: HostRuntime) {
    let rt = &rt;
    let alloc = rt.alloc();
    for i in 0..line_count(LONG) {
        let line = line_at(LONG, i);
        let mut row = Row::new(line);
        let text = expanded(rt, alloc, row.text());
        match read_proto(alloc, &text) {
            Ok(proto) => {
                let nodes = proto.nodes.as_slice();
                equal_at(rt, nodes.len(), row.number::<usize>(rt), line);
                let mut last = String::new(alloc);
                if let Some(node) = nodes.last() {
                    must(rt, write_node(&mut last, node));
                }
                let due = expanded(rt, alloc, row.text());
                equal_at(rt, last.as_bytes(), due.as_slice(), line);
            }
            Err(fault) => tells(rt, &fault, "", line),
        }
    }
}
