//! The words against values from outside: the format's worked examples and its tables.

ghost use Rattle.std.specs.Prelude.{◌≡◌, length};
ghost use Rattle.xfs_word.specs.Seal.{layout_of};

use crate::checks::{equal, equal_at, sure};
use crate::text::{Row, line_at, line_count, part_at, part_count, tells};
use std::process::Abort;
use xfs_word::*;

/// The identifier of the file system that the objects belong to.
const UUID: [u8; 16] = [1, 2, 3, 4, 5, 6, 7, 8, 9, 10, 11, 12, 13, 14, 15, 16];

#[test]
fn checksums(rt: HostRuntime) {
    let rt = &rt;
    equal(rt, crc32c(b"123456789"), 0xe306_9283);
    equal(rt, crc32c(&[0; 32]), 0x8a91_36aa);
    equal(rt, crc32c(&[]), 0);
    let mut bytes = [0; 32];
    put32(&mut bytes, 13, 0x1234_5678);
    equal(rt, crc_skipping(&bytes, 13), 0x8a91_36aa);
    put_checksum(&mut bytes, 13);
    equal(rt, stored_checksum(&bytes, 13), 0x8a91_36aa);
    equal(rt, get32(&bytes, 13), 0xaa36_918a);
    equal(rt, is_checksum_right(&bytes, 13), true);
}

#[test]
fn fields_extents_and_names(rt: HostRuntime) {
    let rt = &rt;
    let mut bytes = [0x11, 0x22, 0x33, 0x44, 0x55, 0x66, 0x77, 0x88, 0x99];
    equal(rt, get8(&bytes, 1), 0x22);
    equal(rt, get16(&bytes, 1), 0x2233);
    equal(rt, get32(&bytes, 1), 0x2233_4455);
    equal(rt, get64(&bytes, 1), 0x2233_4455_6677_8899);
    equal(rt, part(&bytes, 7, 2), [0x88, 0x99].as_slice());
    put8(&mut bytes, 0, 0xff);
    put16(&mut bytes, 1, 1);
    put_part(&mut bytes, 6, &[5, 6]);
    let layout = FieldLayout {
        name: "blocklog",
        offset: 4,
        width: 2,
        form: Form::Decimal,
    };
    layout.write(&mut bytes, 0x0102);
    equal(rt, bytes, [0xff, 0, 1, 0x44, 1, 2, 5, 6, 0x99]);
    equal(rt, layout.read(&bytes), 0x0102);
    extents(rt);
    hashes_of_names(rt);
}

/// Packs and unpacks an extent.
fn extents(rt: &impl Abort) {
    let packed = [0, 0, 0, 0, 0, 0, 6, 0, 0, 0, 0, 0, 2, 0x80, 0, 5];
    let extent = Extent {
        offset: 3,
        start: 20,
        count: 5,
        unwritten: false,
    };
    equal(rt, pack_extent(&extent), packed);
    equal(rt, unpack_extent(&packed), extent);
    equal(rt, unpack_extent(&[0xff; 16]).unwritten, true);
}

/// Compares the hashes of names.
fn hashes_of_names(rt: &impl Abort) {
    let name: &[u8] = b"lost+found";
    let hashes = [
        (&name[..0], 0),
        (b"a", 0x61),
        (b"..", 0x172e),
        (b"abcd", 0x0c38_b1e4),
        (name, 0x021a_a60c),
    ];
    for (name, hash) in hashes {
        equal(rt, name_hash(name), hash);
    }
}

/// The kinds of objects.
const KINDS: [SealKind; 12] = [
    SealKind::Super,
    SealKind::Agf,
    SealKind::Agi,
    SealKind::Agfl,
    SealKind::ShortTree { magic: 0x4142_3342 },
    SealKind::LongTree,
    SealKind::Slot,
    SealKind::DirData,
    SealKind::DirData,
    SealKind::DirFree,
    SealKind::Index { magic: 0x3dff },
    SealKind::Symlink,
];

/// Each kind with its size, the offset of its checksum, and the parts that seal it: each with its offset, the bits of its
/// first byte that make it wrong, and its bytes. Among them are the identifier of the file system, the place 7, the owner
/// 9, and the last log sequence number of the last cycle that is allowed.
const SEALS: &str = "\
Super | 512 224 | 0 1 58465342, 101 1 a5, 240 128 7ffffffeffffffff
Agf | 512 216 | 0 1 58414746, 8 1 00000007, 64 1 0102030405060708090a0b0c0d0e0f10, 208 128 7ffffffeffffffff
Agi | 512 312 | 0 1 58414749, 8 1 00000007, 296 1 0102030405060708090a0b0c0d0e0f10, 320 128 7ffffffeffffffff
Agfl | 512 32 | 0 1 5841464c, 4 1 00000007, 8 1 0102030405060708090a0b0c0d0e0f10, 24 128 7ffffffeffffffff
ShortTree { magic: 1094857538 } | 4096 52 | 0 1 41423342, 16 1 0000000000000007, 24 128 7ffffffeffffffff, 32 1 0102030405060708090a0b0c0d0e0f10, 48 1 00000009
LongTree | 4096 64 | 0 1 424d4133, 24 1 0000000000000007, 32 128 7ffffffeffffffff, 40 1 0102030405060708090a0b0c0d0e0f10, 56 1 0000000000000009
Slot | 512 100 | 0 1 494e, 4 1 03, 112 128 7ffffffeffffffff, 152 1 0000000000000007, 160 1 0102030405060708090a0b0c0d0e0f10
DirData | 4096 4 | 0 1 58444433, 8 1 0000000000000007, 16 128 7ffffffeffffffff, 24 1 0102030405060708090a0b0c0d0e0f10, 40 1 0000000000000009
DirData | 4096 4 | 0 1 58444233, 8 1 0000000000000007, 16 128 7ffffffeffffffff, 24 1 0102030405060708090a0b0c0d0e0f10, 40 1 0000000000000009
DirFree | 4096 4 | 0 1 58444633, 8 1 0000000000000007, 16 128 7ffffffeffffffff, 24 1 0102030405060708090a0b0c0d0e0f10, 40 1 0000000000000009
Index { magic: 15871 } | 4096 12 | 0 1 484e, 8 1 3dff, 16 1 0000000000000007, 24 128 7ffffffeffffffff, 32 1 0102030405060708090a0b0c0d0e0f10, 48 1 0000000000000009
Symlink | 4096 12 | 0 1 58534c4d, 16 1 0102030405060708090a0b0c0d0e0f10, 32 1 0000000000000009, 40 1 0000000000000007, 48 128 7ffffffeffffffff
";

/// Turns the bits of `mask` in the byte at `at`.
fn turn(object: &mut [u8], at: usize, mask: u8)
    ensures { length object.new ≡ length object.old }
{
    if let Some(place) = object.get_mut(at) {
        *place ^= mask;
    }
}

/// Asserts that the row's object is sealed, and that it is not with any of its parts wrong.
fn check(rt: &(impl Abort + AllocGlobal), kind: SealKind, mut row: Row) {
    let what = Seal {
        kind,
        place: 7,
        owner: Some(9),
        uuid: UUID,
    };
    let layout = what.kind.layout();
    let name = row.text();
    tells(rt, &kind, name, name);
    row.tells_number(rt, layout.size as u64, name);
    row.tells_number(rt, layout.checksum as u64, name);
    sure(rt, layout.size <= 4096, name);
    let mut buffer = [0; 4096];
    try_parts(rt, &what, &mut buffer[..layout.size], row.rest(), name);
}

/// Asserts that an object of these parts is sealed, and that it is not with any of them wrong.
fn try_parts(
    rt: &(impl Abort + AllocGlobal),
    what: &Seal,
    object: &mut [u8],
    parts: &str,
    name: &str,
)
    requires { length object.old ≡ (layout_of what.now.kind).size }
{
    for i in 0..part_count(parts) {
        put_right(rt, object, part_at(parts, i));
    }
    seal(what, object);
    equal_at(rt, sealed(what, object), true, name);
    for i in 0..part_count(parts) {
        try_wrong(rt, what, object, part_at(parts, i));
    }
    turn(object, 511, 1);
    equal_at(rt, sealed(what, object), false, name);
}

/// Writes a part of an object.
fn put_right(rt: &(impl Abort + AllocGlobal), object: &mut [u8], mut part: Row)
    ensures { length object.new ≡ length object.old }
{
    let at = part.number(rt);
    let _wrong: u8 = part.number(rt);
    part.put(rt, object, at);
}

/// Asserts that an object is not sealed with a part wrong.
fn try_wrong(rt: &(impl Abort + AllocGlobal), what: &Seal, object: &mut [u8], mut part: Row)
    requires { length object.old ≡ (layout_of what.now.kind).size }
    ensures { length object.new ≡ length object.old }
{
    let (at, wrong) = (part.number(rt), part.number(rt));
    turn(object, at, wrong);
    seal(what, object);
    equal_at(rt, sealed(what, object), false, part.rest());
    turn(object, at, wrong);
}

#[test]
fn seals_of_each_kind(rt: HostRuntime) {
    let rt = &rt;
    equal(rt, line_count(SEALS), KINDS.len());
    for (i, kind) in KINDS.iter().enumerate() {
        check(rt, *kind, Row::new(line_at(SEALS, i)));
    }
}
