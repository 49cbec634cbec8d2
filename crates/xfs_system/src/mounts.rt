//! The system's table of mounts, as a text of lines like
//! `36 35 8:1 / /mnt rw,relatime shared:1 - xfs /dev/sda1 rw`.

use std::fs::Metadata;
use std::os::unix::fs::{FileTypeExt, MetadataExt};
use std::rt::Files;

/// Where the table is.
pub const MOUNTS: &str = "/proc/self/mountinfo";

/// Whether a device with this number is mounted. A mount tells the number of what it shows, which may be one
/// of its own, and names what it stands on.
pub fn is_mounted(rt: &impl Files, mounts: &str, device: u64) -> bool {
    for line in mounts.lines() {
        if shows(rt, line, device) {
            return true;
        }
    }
    false
}

/// Whether a line of the table tells or names a device with this number.
fn shows(rt: &impl Files, line: &str, device: u64) -> bool {
    number_in(line) == Some(device) || source_in(rt, line) == Some(device)
}

/// The device number in a line of the table.
fn number_in(line: &str) -> Option<u64> {
    device_number(line.split(' ').nth(2)?)
}

/// The number of the device that a line of the table names.
fn source_in(rt: &impl Files, line: &str) -> Option<u64> {
    number_of(&rt.metadata(source_of(line)?).ok()?)
}

/// What a line of the table names as what a mount stands on.
fn source_of(line: &str) -> Option<&str> {
    let (_, behind) = line.split_once(" - ")?;
    behind.split(' ').nth(1)
}

/// The number of the device that a file is, if it is a block device.
pub fn number_of(file: &Metadata) -> Option<u64> {
    if file.file_type().is_block_device() {
        Some(file.rdev())
    } else {
        None
    }
}

/// A device number that is written as `MAJOR:MINOR`, as the system's calls give it.
pub fn device_number(text: &str) -> Option<u64> {
    let (major, minor) = text.trim_end().split_once(':')?;
    Some(joined(major.parse::<u32>().ok()?, minor.parse::<u32>().ok()?))
}

/// Linux's form of a device number.
fn joined(major: u32, minor: u32) -> u64 {
    let (major, minor) = (major as u64, minor as u64);
    ((major & 0xffff_f000) << 32)
        | ((major & 0xfff) << 8)
        | ((minor & 0xffff_ff00) << 12)
        | (minor & 0xff)
}
