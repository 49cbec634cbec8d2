//! The files of a new volume, with the chunks that have their inodes.

ghost use Rattle.std.specs.Prelude.{◌≡◌, ◌<◌, ◌^◌, ◌++◌, length, IfOk, OnOk};
ghost use Rattle.std.specs.Option.{option_copied};
ghost use Rattle.xfs_geom.specs.Volumes.{volume_of};
ghost use Rattle.xfs_filled.specs.Directories.{IsSoundWhere, made_directory_at};
ghost use Rattle.xfs_filled.specs.FileTrees.{is_of, object_order, places_of_kind};
ghost use Rattle.xfs_filled.specs.Numbers.{number_of};
ghost use Rattle.xfs_filled.specs.Objects.{content_at};
ghost use Rattle.xfs_filled.specs.Sites.{IsSite};

use crate::content::Content;
use crate::directories::{MadeDirectory, is_directory_kind};
use crate::numbers::number_of;
use std::alloc::Global;
use xfs_disk::NoMemory;
use xfs_geom::Geometry;
use xfs_proto::{ProtoKind, ProtoNode};

/// The files of a new volume, and where their inodes stand.
#[derive(Clone, Copy)]
pub struct Site<'a> {
    pub geometry: &'a Geometry,
    /// The first blocks of the chunks.
    pub starts: &'a [u64],
    pub nodes: &'a [ProtoNode],
    /// Of each file its bytes.
    pub contents: &'a [Content],
    /// Of each file what is built of it where it is a directory.
    pub directories: &'a [Option<MadeDirectory>],
    /// The places of all files, in the order in which they get blocks.
    pub order: &'a [usize],
}

/// What is built of the file at a place, where it is a directory.
pub fn directory_at<'a>(site: &Site<'a>, k: usize) -> Option<&'a MadeDirectory>
    requires site { IsSite site.now.geometry.now site.now.starts.now site.now.nodes.now site.now.contents.now site.now.directories.now site.now.order.now }
    requires inside { k < length site.now.nodes.now }
    ensures value { option_copied result ≡ made_directory_at (volume_of site.now.geometry.now) site.now.starts.now site.now.nodes.now k }
    ensures sound { IsSoundWhere (option_copied result) }
{
    site.directories[k].as_ref()
}

/// The bytes of the file at a place.
pub fn content_at<'a>(site: &Site<'a>, k: usize) -> &'a Content
    requires site { IsSite site.now.geometry.now site.now.starts.now site.now.nodes.now site.now.contents.now site.now.directories.now site.now.order.now }
    requires inside { k < length site.now.nodes.now }
    ensures { result.now ≡ content_at site.now.contents.now k }
{
    &site.contents[k]
}

/// The number of the file at a place.
pub fn ino_at(site: &Site<'_>, k: usize) -> u64
    requires site { IsSite site.now.geometry.now site.now.starts.now site.now.nodes.now site.now.contents.now site.now.directories.now site.now.order.now }
    requires inside { k < length site.now.nodes.now }
    ensures value { result ≡ number_of (volume_of site.now.geometry.now) site.now.starts.now k }
    ensures low { result < 2 ^ 30 }
{
    number_of(site.geometry, site.starts, k)
}

/// The places of files in the order in which they get blocks: all directories, and behind them all other files.
pub fn list_order(alloc: Global, nodes: &[ProtoNode]) -> Result<Vec<usize>, NoMemory>
    ensures { IfOk result (λ order. order.items ≡ object_order nodes.now) }
{
    let mut order = Vec::new(alloc);
    push_places(nodes, true, &mut order)?;
    push_places(nodes, false, &mut order)?;
    Ok(order)
}

/// Adds the places of all directories, or of all other files.
fn push_places(
    nodes: &[ProtoNode],
    directories: bool,
    order: &mut Vec<usize>,
) -> Result<(), NoMemory>
    ensures { OnOk result (order.new.items ≡ order.old.items ++ places_of_kind nodes.now directories) }
{
    for k in 0..nodes.len() {
        if is_of(directories, &nodes[k].kind) {
            order.push(k)?;
        }
    }
    Ok(())
}

/// Whether a file is a directory, or is none.
fn is_of(directories: bool, kind: &ProtoKind) -> bool
    ensures { result ≡ is_of directories kind.now }
{
    if directories {
        is_directory_kind(kind)
    } else {
        !is_directory_kind(kind)
    }
}
