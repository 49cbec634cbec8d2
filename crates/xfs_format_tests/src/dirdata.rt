//! Short forms and data blocks.

ghost use Rattle.std.specs.Prelude.{◌≡◌, ◌<◌, ◌≤◌, ◌^◌, length, All, IfOk};
ghost use Rattle.xfs_dirdata.specs.Written.{IsWritableEntry, short_length, data_length};

mod real;

use crate::checks::{equal, equal_at, must, sure};
use crate::text::{Row, line_at, line_count, put_parts, refuse};
use real::{MADE, MADE_ENTRIES, SHORT, SHORT_ENTRIES, WRITTEN, WRITTEN_ENTRIES, WRITTEN_FREE};
use std::alloc::{AllocError, Global};
use std::process::Abort;
use xfs_dirdata::*;
use xfs_disk::Word;
use xfs_word::put32;

/// A short form of two entries.
const TWO: &str = "020000000080 01006061 0100000083 01007062 0100000084";

/// Its entries.
const TWO_ENTRIES: &str = "\
0 131 1 a
0 132 1 b
";

/// An entry that can be written.
fn entry(alloc: Global, name: &[u8], ino: u32, ftype: u8) -> Result<EntryRec, AllocError>
    requires { length name.now < 256 }
    ensures writable { IfOk result IsWritableEntry }
    ensures name { IfOk result (λ entry. entry.name ≡ name.now) }
{
    Ok(EntryRec {
        dir: 0,
        name: Word::from_slice(alloc, name)?,
        ino: ino as u64,
        ftype,
    })
}

/// Entries that can be written, from rows with the offset, the inode number, the file type and the name.
fn entries(rt: &impl Abort, alloc: Global, rows: &str) -> Vec<EntryRec>
    ensures { All IsWritableEntry result.items }
{
    let mut entries = Vec::new(alloc);
    for i in 0..line_count(rows) {
        let line = line_at(rows, i);
        must(rt, entries.push(entry_of(rt, alloc, line)));
    }
    entries
}

/// The entry of a row.
fn entry_of(rt: &impl Abort, alloc: Global, line: &str) -> EntryRec
    ensures { IsWritableEntry result }
{
    let mut row = Row::new(line);
    let _at: u16 = row.number(rt);
    let ino: u32 = row.number(rt);
    let ftype: u8 = row.number(rt);
    let name = row.text().as_bytes();
    sure(rt, name.len() < 256, line);
    match entry(alloc, name, ino, ftype) {
        Ok(entry) => entry,
        Err(_) => refuse(rt, "memory is wanting", "an entry"),
    }
}

/// Asserts that entries of directory 100 are these.
fn assert_entries(rt: &impl Abort, entries: &[EntryRec], rows: &str) {
    equal(rt, entries.len(), line_count(rows));
    for (i, entry) in entries.iter().enumerate() {
        assert_entry(rt, entry, line_at(rows, i));
    }
}

/// Asserts that an entry of directory 100 is this one.
fn assert_entry(rt: &impl Abort, entry: &EntryRec, line: &str) {
    let mut row = Row::new(line);
    let _at: u16 = row.number(rt);
    equal_at(rt, entry.dir, 100, line);
    row.tells_number(rt, entry.ino, line);
    row.tells_number(rt, entry.ftype as u64, line);
    equal_at(rt, entry.name.bytes(), row.text().as_bytes(), line);
}

#[test]
fn short_form(rt: HostRuntime) {
    let rt = &rt;
    let alloc = rt.alloc();
    assert_short(rt, TWO, TWO_ENTRIES);
    assert_short(rt, SHORT, SHORT_ENTRIES);
    let entries = two_entries(rt, alloc);
    let mut form = [0xee; 26];
    let size = put_short(128, &entries, &mut form);
    equal(rt, size, 24);
    let two = Row::new(TWO).bytes(rt, alloc);
    equal(rt, &form[..24], two.as_slice());
    equal(rt, &form[24..], [0xee, 0xee].as_slice());
}

/// Asserts that a short form of parent 128 is read as these entries.
fn assert_short(rt: &(impl Abort + AllocGlobal), form: &str, rows: &str) {
    let alloc = rt.alloc();
    let form = Row::new(form).bytes(rt, alloc);
    let read = must(rt, read_short_entries(alloc, 100, &form));
    equal(rt, read.parent, 128);
    assert_entries(rt, &read.entries, rows);
}

/// The entries `a` and `b`.
fn two_entries(rt: &impl Abort, alloc: Global) -> [EntryRec; 2]
    ensures writable { All IsWritableEntry result }
    ensures short { short_length result ≡ 18 }
    ensures data { data_length result ≡ 32 }
    ensures count { length result ≡ 2 }
{
    let Ok(first) = entry(alloc, b"a", 131, 1) else {
        refuse(rt, "memory is wanting", "an entry");
    };
    let Ok(second) = entry(alloc, b"b", 132, 1) else {
        refuse(rt, "memory is wanting", "an entry");
    };
    [first, second]
}

/// At a byte offset of the short form of two entries, other bytes, and whether it is read then.
const CHANGED_FORMS: &str = "\
0 0201 | false
0 0100 | false
0 0300 | false
7 0058 | false
7 0061 | false
7 0068 | false
16 0060 | false
16 0078 | true
16 0fc8 | true
16 0fd0 | false
6 0200 | false
";

/// Short forms, and whether they are read.
const FORMS: &str = "\
000000000080 | true
0000000080 | false
0100000000800000600900000000 | true
00000000008000 | false
";

#[test]
fn short_form_rules(rt: HostRuntime) {
    let rt = &rt;
    let alloc = rt.alloc();
    for i in 0..line_count(CHANGED_FORMS) {
        let line = line_at(CHANGED_FORMS, i);
        let mut row = Row::new(line);
        let mut form = Row::new(TWO).bytes(rt, alloc);
        put_parts(rt, &mut form, row.text());
        is_read(rt, &form, row.flag(rt), line);
    }
    for i in 0..line_count(FORMS) {
        let line = line_at(FORMS, i);
        let mut row = Row::new(line);
        let form = row.bytes(rt, alloc);
        is_read(rt, &form, row.flag(rt), line);
    }
}

/// Asserts that a short form is read, or that it is not.
fn is_read(rt: &(impl Abort + AllocGlobal), form: &[u8], due: bool, line: &str) {
    equal_at(
        rt,
        read_short_entries(rt.alloc(), 100, form).is_ok(),
        due,
        line,
    );
}

/// Asserts that a block of these parts is read as these entries and spans.
fn assert_block(
    rt: &(impl Abort + AllocGlobal),
    parts: &str,
    rows: &str,
    spans: &str,
    whole: bool,
) {
    let read = read_parts(rt, parts, whole);
    assert_entries(rt, &read.entries, rows);
    assert_places(rt, &read.places, rows);
    assert_spans(rt, &read.free, spans);
    equal(rt, read.bests, bestfree(&read.free));
    drop(read);
}

/// What a block of these parts is read as.
fn read_parts(rt: &(impl Abort + AllocGlobal), parts: &str, whole: bool) -> DataBlock {
    let mut block = [0; 4096];
    put_parts(rt, &mut block, parts);
    must(rt, read_data(rt.alloc(), 100, &block, whole))
}

/// Asserts that entries stand at these places.
fn assert_places(rt: &impl Abort, places: &[u16], rows: &str) {
    for (i, place) in places.iter().enumerate() {
        let line = line_at(rows, i);
        Row::new(line).tells_number(rt, *place as u64, line);
    }
}

/// Asserts that unused spans are these.
fn assert_spans(rt: &impl Abort, free: &[FreeSpan], spans: &str) {
    equal(rt, free.len(), line_count(spans));
    for (i, span) in free.iter().enumerate() {
        assert_span(rt, span, line_at(spans, i));
    }
}

/// Asserts that an unused span is this one.
fn assert_span(rt: &impl Abort, span: &FreeSpan, line: &str) {
    let mut row = Row::new(line);
    row.tells_number(rt, span.offset as u64, line);
    row.tells_number(rt, span.length as u64, line);
}

#[test]
fn real_blocks(rt: HostRuntime) {
    let rt = &rt;
    assert_block(rt, MADE, MADE_ENTRIES, "552 3544", false);
    assert_block(rt, WRITTEN, WRITTEN_ENTRIES, WRITTEN_FREE, true);
    let entries = entries(rt, rt.alloc(), MADE_ENTRIES);
    let mut block = [0; 4096];
    equal(rt, put_data(&entries, None, &mut block), 13);
    let mut due = [0; 4096];
    put_parts(rt, &mut due, MADE);
    equal(rt, block, due);
}

/// At byte offsets of the block that a kernel wrote, other bytes, and whether it is read then.
const CHANGED_BLOCKS: &str = "\
| true
78 0048 | false
98 0030 | false
98 0014, 114 0060 | false
126 0068 | false
128 ffff, 130 0010 | false
4090 002b | false
4090 01f8 | false
4088 2000 | false
56 00d0 | true
56 0060, 58 0020 | false
56 0000, 58 0000 | false
52 00a0, 54 0010, 56 0060, 58 0020 | false
48 03e8 | false
";

#[test]
fn data_block_rules(rt: HostRuntime) {
    let rt = &rt;
    let mut whole = [0; 4096];
    put_parts(rt, &mut whole, WRITTEN);
    for i in 0..line_count(CHANGED_BLOCKS) {
        let line = line_at(CHANGED_BLOCKS, i);
        let mut row = Row::new(line);
        let mut block = whole;
        put_parts(rt, &mut block, row.text());
        let read = read_data(rt.alloc(), 100, &block, true);
        equal_at(rt, read.is_ok(), row.flag(rt), line);
    }
}

/// Entries of a directory that stand behind its own and its parent's.
const NAMED: &str = "\
96 131 1 a
112 132 7 bcdef
136 133 2 g
";

/// The same with the directory's own and its parent's.
const ALL_NAMED: &str = "\
64 100 2 .
80 128 2 ..
96 131 1 a
112 132 7 bcdef
136 133 2 g
";

/// Where a block ends, and how many of the entries it takes.
const ENDS: &str = "\
96 0
104 0
112 1
128 1
136 2
144 2
152 3
";

#[test]
fn filled_blocks(rt: HostRuntime) {
    let rt = &rt;
    let alloc = rt.alloc();
    let entries = entries(rt, alloc, NAMED);
    for i in 0..line_count(ENDS) {
        let line = line_at(ENDS, i);
        try_end(rt, &entries, line);
    }
    let mut block = [0; 4096];
    equal(
        rt,
        put_data(&entries, Some((100, 128)), &mut block[..4048]),
        3,
    );
    put32(&mut block, 4088, 5);
    let read = must(rt, read_data(alloc, 100, &block, true));
    assert_entries(rt, &read.entries, ALL_NAMED);
}

/// Tries a block that ends where a line says.
fn try_end(rt: &impl Abort, entries: &[EntryRec], line: &str)
    requires { All IsWritableEntry entries.now }
{
    let mut row = Row::new(line);
    let end: usize = row.number(rt);
    let mut block = [0xee; 4096];
    sure(rt, end % 8 == 0, line);
    sure(rt, 96 <= end, line);
    sure(rt, end <= 4096, line);
    let placed = put_data(entries, Some((100, 128)), &mut block[..end]);
    row.tells_number(rt, placed as u64, line);
    equal_at(rt, (block[0], block[4095]), (0xee, 0xee), line);
}

#[test]
fn largest_spans(rt: HostRuntime) {
    let rt = &rt;
    let spans = [(64, 16), (96, 32), (160, 16), (200, 40), (300, 32)];
    let free = spans.map(|(offset, length)| FreeSpan { offset, length });
    let none = FreeSpan {
        offset: 0,
        length: 0,
    };
    equal(rt, bestfree(&[]), [none, none, none]);
    equal(rt, bestfree(&free[..1]), [free[0], none, none]);
    equal(rt, bestfree(&free[..3]), [free[1], free[0], free[2]]);
    equal(rt, bestfree(&free), [free[3], free[1], free[4]]);
}
