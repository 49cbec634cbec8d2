//! Sessions over the volume, one row each.

use super::volume::volume;
use crate::checks::{equal_at, must};
use crate::text::{Row, line_at, line_count, tells};
use std::alloc::Global;
use std::process::Abort;
use xfs_disk::Word;
use xfs_memory::{MemorySink, MemorySource};
use xfs_shell::{ShellOptions, shell};
use xfs_volume::Records;

/// The case; whether fields may be written, and whether nothing may be written; which call of the disk and which of the
/// input fails, and how many bytes can be put; the outcome; the commands; the input; and what is put. `~` ends a line.
const SESSIONS: &str = "\
without -x, from lines | false false - - 400 | Done | | hash a~hash lost+found~convert fsblock 1030 daddr~write crc 1~pop~agf 2~ | 0x61~0x21aa60c~0x2030 (8240)~write: needs -x~no address~bad number: 2~
commands as options | true false - - 400 | Done | agf 1~print freeblks longest~addr bnoroot~print recs[1] | | freeblks = 500~longest = 500~recs[1] = 524,500~
a written number | true false - - 400 | Done | agf 0~write freeblks 5~print freeblks | | freeblks = 5~freeblks = 5~
a blank line, texts and checksums | true false - - 400 | Done | | sb~~ \t~print uuid fname crc versionnum | uuid = 00112233-4455-6677-8899-aabbccddeeff~fname = \"a b\"\\001\\377\"~crc = 0x7ebccc98 (correct)~versionnum = 0xb4a5~
a stack of places | true false - - 400 | Done | | sb~push agf 1~stack~type~pop~type inode~type~push x~push push addr freeblks~stack~quit~hash a | 0: block 0 sector 0 type sb~type = agf~type = inode~bad command: x~no field: freeblks~
numbers that are refused | true false - - 400 | Done | | inode 128~stack 1~write gen 4294967296~write gen 0xffFFffff~print recs[1]~inode 5000000000000000000000~inode 0x~convert daddr 130 byte~convert ino 1 x~ | bad command: stack~bad number: 4294967296~gen = 4294967295~no field: recs[1]~out of image~bad number: 0x~0x10400 (66560)~bad command: convert~
no address | true false - - 400 | Done | | addr bnoroot~type~print~push agf~write crc 1~sb~type x~write uuid 1~write crc 1~write x 1~addr x~ | no address~no address~no address~no address~no address~no type: x~no field: uuid~no field: crc~no field: x~no field: x~
fields of a block of another type | true false - - 400 | Done | agf 1~addr bnoroot~write recs[1] 5~print recs[2] | | no field: recs[1]~no field: recs[2]~
places out of the image | true false - - 400 | Done | | fsblock 2048~daddr 16384~convert fsblock 99999 ino~convert ino 16384 byte~convert x 1 ino~convert byte 1 ino~print | out of image~out of image~out of image~out of image~bad command: convert~bad command: convert~no address~
zero bytes | true false - - 400 | Done | | ha\0sh a~hash a\0b~\0 | bad command: ha\0sh~0x184062~bad command: \0~
a full output in a printed block | true false - - 77 | OutputFault { finished: 2 } | fsblock 5~print | | 000: 00000000 00000000 00000000 00000000 00000000 00000000 00000000 00000000~
read-only | true true - - 400 | Done | write crc 1 | | write: read-only~
a failing read | true false 2 - 400 | ReadFault { finished: 1 } | agf 0~print seqno | |
a failing write | true false 3 - 400 | WriteFault { written: 0, finished: 1 } | agf 0~write freeblks 5 | |
a failing sync | true false 4 - 400 | WriteFault { written: 1, finished: 1 } | agf 0~write freeblks 5 | |
a full output in a line | true false - - 7 | OutputFault { finished: 2 } | hash a~hash a~hash a | | 0x61~0x
a failing first read | true false 1 - 400 | ReadFault { finished: 0 } | agf 0 | |
a failing input | true false - 1 80 | InputFault | | hash a~ |
";

/// The lines of a field, in which `~` ends each.
fn lines_of(rt: &impl Abort, alloc: Global, text: &str) -> Vec<u8> {
    let mut lines = Vec::new(alloc);
    for byte in text.as_bytes() {
        let byte = if *byte == b'~' { b'\n' } else { *byte };
        must(rt, lines.push(byte));
    }
    lines
}

/// The lines of a field as an input.
fn input_of(rt: &impl Abort, alloc: Global, text: &str) -> MemorySource {
    let lines = lines_of(rt, alloc, text);
    must(rt, MemorySource::make(alloc, lines.as_slice()))
}

/// The options of a session.
fn options_of(
    rt: &impl Abort,
    alloc: Global,
    expert: bool,
    read_only: bool,
    texts: &str,
) -> ShellOptions {
    let mut commands = Vec::new(alloc);
    for text in texts.split_terminator('~') {
        must(rt, commands.push(word_of(rt, alloc, text)));
    }
    ShellOptions {
        expert,
        read_only,
        commands: Records::from_vec(commands),
    }
}

fn word_of(rt: &impl Abort, alloc: Global, text: &str) -> Word {
    Word::from_vec(must(rt, Vec::from_slice(alloc, text.as_bytes())))
}

/// Runs the session of a line, and compares what it put and its outcome.
fn check(rt: &(impl Abort + AllocGlobal), line: &str) {
    let alloc = rt.alloc();
    let mut row = Row::new(line);
    let case = row.text();
    let (expert, read_only) = (row.flag(rt), row.flag(rt));
    let (failing, failing_input) = (row.optional(rt), row.optional(rt));
    let (room, outcome) = (row.number(rt), row.text());
    let options = options_of(rt, alloc, expert, read_only, row.text());
    let mut disk = volume(rt);
    if let Some(call) = failing {
        must(rt, disk.fail(call));
    }
    let mut input = input_of(rt, alloc, row.text());
    if let Some(call) = failing_input {
        must(rt, input.fail(call));
    }
    let mut out = must(rt, MemorySink::make(alloc, room));
    let answer = shell(alloc, &mut disk, &mut input, &mut out, &options);
    tells(rt, &answer, outcome, case);
    let told = lines_of(rt, alloc, row.text());
    equal_at(rt, out.bytes(), told.as_slice(), case);
}

#[test]
fn sessions(rt: HostRuntime) {
    for i in 0..line_count(SESSIONS) {
        let line = line_at(SESSIONS, i);
        check(&rt, line);
    }
}

/// The letter that the input is made of, how often it stands there, and the outcome.
const LONG: &str = "\
0x20 1048576 | Done
0x20 1048577 | InputLong
0x78 1048576 | OutputFault { finished: 1 }
";

#[test]
fn inputs_of_more_bytes_than_there_may_be_are_too_long(rt: HostRuntime) {
    let rt = &rt;
    let alloc = rt.alloc();
    let options = options_of(rt, alloc, true, false, "");
    for i in 0..line_count(LONG) {
        let line = line_at(LONG, i);
        let mut row = Row::new(line);
        let (letter, count) = (row.number(rt), row.number(rt));
        let mut disk = volume(rt);
        let bytes = must(rt, vec![in alloc; letter; count]);
        let mut input = must(rt, MemorySource::make(alloc, bytes.as_slice()));
        let mut out = must(rt, MemorySink::make(alloc, 80));
        let answer = shell(alloc, &mut disk, &mut input, &mut out, &options);
        tells(rt, &answer, row.text(), line);
    }
}
