//! Whether an image is in use: a block device that is mounted, or a file that a mounted loop device stands on.
//!
//! The system's tables are asked. Where one is not there, nothing is asked.

use crate::mounts::{MOUNTS, device_number, is_mounted, number_of};
use std::fs::Metadata;
use std::os::unix::fs::MetadataExt;
use std::path::Path;
use std::rt::Files;
use std::{fs, str};
use xfs_disk::Word;

/// The folder that has one of each block device, and in it one of each of its partitions.
const DEVICES: &str = "/sys/block";

/// Whether the image that a word names is in use.
pub fn is_image_in_use<R: Files + AllocGlobal + Clone + Drop>(rt: &R, word: &Word) -> bool {
    let Ok(path) = str::from_utf8(word.bytes()) else {
        return false;
    };
    let (Ok(image), Ok(mounts)) = (fs::metadata(rt, path), fs::read_to_string(rt, MOUNTS)) else {
        return false;
    };
    let mounted = match number_of(&image) {
        Some(device) => is_mounted(rt, mounts.as_str(), device),
        None => false,
    };
    mounted || bears_mount(rt, mounts.as_str(), &image)
}

/// Whether a device that is the image, or stands on it, is mounted.
fn bears_mount<R: Files + AllocGlobal + Clone + Drop>(
    rt: &R,
    mounts: &str,
    image: &Metadata,
) -> bool {
    let Ok(devices) = fs::read_dir(rt, DEVICES) else {
        return false;
    };
    for device in devices {
        let bears = match device {
            Ok(device) => {
                stands_on(rt, device.path(), image) && has_mount(rt, mounts, device.path())
            }
            Err(_) => false,
        };
        if bears {
            return true;
        }
    }
    false
}

/// Whether a device is the image, or a loop device that stands on it.
fn stands_on<R: Files + AllocGlobal>(rt: &R, device: Path<'_>, image: &Metadata) -> bool {
    let number = number_in(rt, device);
    number.is_some() && number == number_of(image) || has_backing(rt, device, image)
}

/// Whether a device is a loop device that stands on the image.
fn has_backing<R: Files + AllocGlobal>(rt: &R, device: Path<'_>, image: &Metadata) -> bool {
    let Ok(place) = device.join(rt.alloc(), "loop/backing_file") else {
        return false;
    };
    let Ok(named) = fs::read_to_string(rt, place.as_path()) else {
        return false;
    };
    let named = named.as_str();
    match fs::metadata(rt, named.strip_suffix('\n').unwrap_or(named)) {
        Ok(backing) => is_same(&backing, image),
        Err(_) => false,
    }
}

/// Whether a device, or a partition of it, is mounted.
fn has_mount<R: Files + AllocGlobal + Clone + Drop>(
    rt: &R,
    mounts: &str,
    device: Path<'_>,
) -> bool {
    if is_mounted_at(rt, mounts, device) {
        return true;
    }
    let Ok(parts) = fs::read_dir(rt, device) else {
        return false;
    };
    for part in parts {
        let mounted = match part {
            Ok(part) => is_mounted_at(rt, mounts, part.path()),
            Err(_) => false,
        };
        if mounted {
            return true;
        }
    }
    false
}

/// Whether the device of this folder is mounted.
fn is_mounted_at<R: Files + AllocGlobal>(rt: &R, mounts: &str, device: Path<'_>) -> bool {
    match number_in(rt, device) {
        Some(number) => is_mounted(rt, mounts, number),
        None => false,
    }
}

/// The number of the device of this folder, if it is that of a device.
fn number_in<R: Files + AllocGlobal>(rt: &R, device: Path<'_>) -> Option<u64> {
    let place = device.join(rt.alloc(), "dev").ok()?;
    let text = fs::read_to_string(rt, place.as_path()).ok()?;
    device_number(text.as_str())
}

/// Whether two are the same device or the same file.
fn is_same(one: &Metadata, other: &Metadata) -> bool {
    match (number_of(one), number_of(other)) {
        (Some(device), Some(same)) => device == same,
        (None, None) => (one.dev(), one.ino()) == (other.dev(), other.ino()),
        _ => false,
    }
}
