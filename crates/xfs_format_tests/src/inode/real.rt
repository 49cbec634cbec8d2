//! Inodes of every type, as they stand in real images.

ghost use Rattle.std.specs.Prelude.{◌≤◌};

use super::cuts::{BLOCKS, CUTS};
use super::*;
use crate::checks::{equal, equal_at, must};
use crate::text::{Row, line_at, line_count, put_parts, refuse, tells};
use std::marker::Brand;
use std::sync::ledger::Blank;
use xfs_attr::Attr;
use xfs_disk::{BLOCK_SIZE, Disk};
use xfs_memory::MemoryDisk;
use xfs_volume::FileRec;

/// The blocks of an image, as a disk.
fn disk_of(rt: &(impl Abort + AllocGlobal)) -> MemoryDisk {
    let mut disk = must(rt, MemoryDisk::make(rt.alloc(), 2048));
    for i in 0..line_count(BLOCKS) {
        let line = line_at(BLOCKS, i);
        let mut row = Row::new(line);
        let at = row.number(rt);
        let mut block = [0; BLOCK_SIZE];
        put_parts(rt, &mut block, row.text());
        assert!(rt; matches!(disk.blocks(), Ok(count) if at < count));
        must(rt, disk.write(at, &block));
    }
    disk
}

/// Tests that attributes are those that are printed.
fn same_attributes(rt: &impl Abort, attrs: &[Attr], due: &str) {
    let mut due = Row::new(due);
    for attr in attrs {
        equal(rt, attr.flags, due.number(rt));
        equal(rt, attr.name.bytes(), due.word().as_bytes());
        equal(rt, attr.value.bytes(), due.word().as_bytes());
    }
    equal(rt, due.is_read(), true);
}

/// Tests that a file is the one that is printed: its core, its extents, those of its attributes, the blocks of its tree,
/// its device, its attributes and its target.
fn same_file(rt: &(impl Abort + AllocGlobal), file: &FileRec, case: &str, mut due: Row) {
    tells(rt, &file.core, due.text(), case);
    tells(rt, &file.extents.as_slice(), due.text(), case);
    tells(rt, &file.rest.attr_extents(), due.text(), case);
    tells(rt, &file.rest.tree(), due.text(), case);
    equal_at(rt, file.rest.device(), due.number(rt), case);
    same_attributes(rt, file.rest.attrs(), due.text());
    equal_at(rt, file.rest.target(), due.text().as_bytes(), case);
}

/// Tests that an inode reads as it is printed.
fn read_cut(rt: &(impl Abort + AllocGlobal), disk: &mut MemoryDisk, cut: &str) {
    let mut row = Row::new(cut);
    let (case, ino) = (row.text(), row.number(rt));
    let mut image = [0; 16];
    row.put(rt, &mut image, 0);
    let mut slot = [0; 512];
    put_parts(rt, &mut slot, row.text());
    assert!(rt; matches!(disk.blocks(), Ok(count) if 2048 <= count));
    let blank = Blank::new(1);
    match read_counted::<MemoryDisk, Brand>(rt.alloc(), image, disk, ino, &slot, blank) {
        Ok(FileRead::File(file)) => {
            let file = file.as_file();
            equal_at(rt, file.ino, ino, case);
            same_file(rt, file, case, row);
        }
        _ => refuse(rt, "no file is read", case),
    }
}

#[test]
fn inodes_of_every_type(rt: HostRuntime) {
    let rt = &rt;
    let mut disk = disk_of(rt);
    for cut in CUTS.split('#') {
        read_cut(rt, &mut disk, cut);
    }
}
