//! Short forms and leaves, whole and broken in one rule each.

mod real;

use crate::checks::equal_at;
use crate::text::{Row, line_at, line_count, part_at, part_count, put_parts, tells};
use std::process::Abort;
use xfs_attr::*;
use xfs_disk::BLOCK_SIZE;

/// Fails where a reader does not answer what is due: attributes, of each its flags, its name and the bytes of its
/// value, or a fault.
fn expect(rt: &(impl Abort + AllocGlobal), read: Result<Attrs, AttrFault>, due: &str, case: &str) {
    match read {
        Ok(attributes) => expect_attributes(rt, attributes.as_slice(), due, case),
        Err(fault) => {
            tells(rt, &fault, due, case);
        }
    }
}

/// Fails where attributes are not those that are due.
fn expect_attributes(rt: &(impl Abort + AllocGlobal), attributes: &[Attr], due: &str, case: &str) {
    equal_at(rt, attributes.len(), part_count(due), case);
    for (i, attribute) in attributes.iter().enumerate() {
        expect_attribute(rt, attribute, part_at(due, i), case);
    }
}

/// Fails where an attribute is not the one that is due.
fn expect_attribute(rt: &(impl Abort + AllocGlobal), attribute: &Attr, mut due: Row, case: &str) {
    due.tells_number(rt, attribute.flags as u64, case);
    let (name, value) = due.text().split_once('=').unwrap_or(("", ""));
    equal_at(rt, attribute.name.bytes(), name.as_bytes(), case);
    expect_value(rt, attribute, value, case);
}

/// Fails where the value of an attribute is not the one that is due.
fn expect_value(rt: &(impl Abort + AllocGlobal), attribute: &Attr, value: &str, case: &str) {
    let due = Row::new(value).bytes(rt, rt.alloc());
    equal_at(rt, attribute.value.bytes(), due.as_slice(), case);
}

/// The bytes of a fork, and what they are read as.
const SHORT_FORMS: &str = "\
one | 000f010007010473656c696e757878 | 4 selinux=78
bytes behind the form | 000f010007010473656c696e757878ffff | 4 selinux=78
two | 000f02550103026178797a01008062 | 2 a=78797a, 128 b=
none | 00040000 |
a size that is too small | 000e010007010473656c696e757878 | Unsound
a size that is too great | 0010010007010473656c696e75787800 | Unsound
an entry past the form | 000f010007020473656c696e757878 | Unsound
a form longer than the fork | 0010010007020473656c696e757878 | Unsound
an entry that is missing | 000f020007010473656c696e757878 | Unsound
an entry that is not counted | 000f000007010473656c696e757878 | Unsound
no name | 0008010000010478 | Unsound
cut entry | 000601000100 | Unsound
shorter than its header | 00030000 | Unsound
cut header | 000400 | Unsound
no fork | | Unsound
";

#[test]
fn short_forms(rt: HostRuntime) {
    let rt = &rt;
    let alloc = rt.alloc();
    for i in 0..line_count(SHORT_FORMS) {
        let line = line_at(SHORT_FORMS, i);
        let mut row = Row::new(line);
        let case = row.text();
        let fork = row.bytes(rt, alloc);
        expect(rt, read_short_attributes(alloc, &fork), row.text(), case);
    }
}

/// A leaf of `a`, whose value is `xy`, an incomplete `..`, and the root's `abcd`, whose value is `z`.
const LEAF: &str = "\
56 000300180fe8
80 000000610ff801000000172e0ff081000c38b1e40fe80300
4072 000104616263647a0000022e2e0000000002016178790000
";

/// What of the leaf is changed, and what it is read as.
const LEAVES: &str = "\
whole | | 1 a=7879, 3 abcd=7a
what is not judged | 8 55, 12 55*44, 62 55*18, 87 55, 4094 55 | 1 a=7879, 3 abcd=7a
a next leaf | 3 01 | Unsound
a leaf before | 4 01 | Unsound
first right behind the entries | 60 0068 | 1 a=7879, 3 abcd=7a
first among the entries | 60 0067 | Unsound
first past a value | 60 0fe9 | Unsound
first past the block | 60 1001 | Unsound
an entry that is not counted | 57 02 | Unsound
another sum | 59 19 | Unsound
a value past the block | 4089 05 | Unsound
a value at the end of the block | 84 0ffe | Unsound
a value as long as its room | 4089 04 | 1 a=78790000, 3 abcd=7a
another hash | 83 62 | Unsound
another name | 4091 62 | Unsound
hashes that descend | 80 0000172e0ff00100000000610ff80100 | Unsound
one value twice | 88 000000610ff80100 | Unsound
an incomplete entry | 86 81 | 3 abcd=7a
a name of no bytes | 59 14, 88 00000000, 80 00000000, 4090 00, 4082 00 | 1 =6178, 3 abcd=7a
a remote value | 86 00 | Unsupported { what: 1 }
a remote value of the last entry | 102 82 | Unsupported { what: 1 }
a remote value and a next leaf | 3 01, 86 02 | Unsupported { what: 1 }
a remote value behind the entries | 56 0004 | Unsupported { what: 1 }
no entries | 56 00000000ffff |
no entries, but a value | 56 00000008ffff | Unsound
entries past the block | 56 ffff | Unsupported { what: 1 }
entries past the block that are local | 56 ffff, 80 ff*4016 | Unsound
";

#[test]
fn leaves(rt: HostRuntime) {
    let rt = &rt;
    let mut whole = [0; BLOCK_SIZE];
    put_parts(rt, &mut whole, LEAF);
    for i in 0..line_count(LEAVES) {
        let line = line_at(LEAVES, i);
        let mut row = Row::new(line);
        let case = row.text();
        let mut block = whole;
        put_parts(rt, &mut block, row.text());
        expect(rt, read_leaf(rt.alloc(), &block), row.text(), case);
    }
}
