//! The entries of the directories of a new volume.

ghost use Rattle.std.specs.Prelude.{◌≡◌, ◌+◌, ◌<◌, ◌++◌, [], ◌∷◌, List, length, map, slice_set, slice_index_or, ℕ, IfOk, OnOk};
ghost use Rattle.std.specs.List.{range_with_len};
ghost use Rattle.xfs_dirdata.specs.declared.records.EntryRec.{EntryRec};
ghost use Rattle.xfs_geom.specs.Volumes.{volume_of};
ghost use Rattle.xfs_proto.specs.declared.protofile.ProtoNode.{ProtoNode};
ghost use Rattle.xfs_filled.specs.Entries.{entries_at, entry_of_place};
ghost use Rattle.xfs_filled.specs.FileTrees.{AreProtoNodes, node_at};
ghost use Rattle.xfs_filled.specs.Sites.{AreChunksPlaced};

use crate::numbers::number_of;
use std::alloc::Global;
use std::marker::Model;
use xfs_dirdata::EntryRec;
use xfs_disk::{NoMemory, Word};
use xfs_geom::Geometry;
use xfs_naming::entry_type;
use xfs_proto::ProtoNode;

/// The entries of a directory.
#[derive(Drop)]
pub struct EntryList {
    entries: Vec<EntryRec>,
}

impl Model for EntryList {
    ghost use Rattle.std.specs.Prelude.{List};
    ghost use Rattle.xfs_dirdata.specs.declared.records.EntryRec.{EntryRec};

    ghost Value = { List EntryRec };

    ghost view = { λ list. list.entries.items };
}

impl EntryList {
    /// No entries.
    fn make(alloc: Global) -> EntryList
        ensures { result ≡ [] }
    {
        EntryList {
            entries: Vec::new(alloc),
        }
    }

    /// Puts an entry behind the others.
    fn push(&mut self, entry: EntryRec) -> Result<(), NoMemory>
        ensures { OnOk result (self.new ≡ self.old ++ entry ∷ []) }
    {
        self.entries.push(entry)?;
        Ok(())
    }

    /// The entries.
    pub fn as_slice(&self) -> &[EntryRec]
        ensures { result.now ≡ self.now }
    {
        self.entries.as_slice()
    }
}

/// The entries of all files, in order; none of one that is no directory.
pub fn list_entries(
    alloc: Global,
    g: &Geometry,
    starts: &[u64],
    nodes: &[ProtoNode],
) -> Result<Vec<EntryList>, NoMemory>
    requires placed { AreChunksPlaced g.now starts.now nodes.now }
    requires files { AreProtoNodes nodes.now }
    ensures { IfOk result (λ lists. lists.items ≡ map (entries_at (volume_of g.now) starts.now nodes.now) (range_with_len 0 (length nodes.now))) }
{
    let mut lists = no_entries(alloc, nodes.len())?;
    for i in 1..nodes.len() {
        let entry = entry_at(alloc, g, starts, nodes, i)?;
        add_entry(&mut lists, nodes[i].parent as usize, entry)?;
    }
    Ok(lists)
}

/// So many lists without entries.
fn no_entries(alloc: Global, count: usize) -> Result<Vec<EntryList>, NoMemory>
    ensures { IfOk result (λ lists. lists.items ≡ map (λ (k : ℕ). []) (range_with_len 0 count)) }
{
    let mut lists = Vec::new(alloc);
    for _k in 0..count {
        lists.push(EntryList::make(alloc))?;
    }
    Ok(lists)
}

/// Puts an entry behind those of a list.
fn add_entry(lists: &mut [EntryList], k: usize, entry: EntryRec) -> Result<(), NoMemory>
    requires inside { k < length lists.old }
    ensures { OnOk result (lists.new ≡ slice_set lists.old k (slice_index_or lists.old k [] ++ entry ∷ [])) }
{
    let list = &mut lists[k];
    list.push(entry)
}

/// The entry that names the file at a place.
fn entry_at(
    alloc: Global,
    g: &Geometry,
    starts: &[u64],
    nodes: &[ProtoNode],
    i: usize,
) -> Result<EntryRec, NoMemory>
    requires placed { AreChunksPlaced g.now starts.now nodes.now }
    requires inside { i < length nodes.now }
    requires parent { (node_at nodes.now i).parent < length nodes.now }
    ensures { IfOk result (λ entry. entry ≡ entry_of_place (volume_of g.now) starts.now nodes.now i) }
{
    let node = &nodes[i];
    let name = Vec::from_slice(alloc, node.name.bytes())?;
    Ok(EntryRec {
        dir: number_of(g, starts, node.parent as usize),
        name: Word::from_vec(name),
        ino: number_of(g, starts, i),
        ftype: entry_type(node.mode >> 12),
    })
}
