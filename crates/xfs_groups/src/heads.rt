//! The headers of a group.

ghost use Rattle.std.specs.Prelude.{◌≡◌, ◌+◌, ◌<◌, ◌≤◌, ◌++◌, [], ◌∷◌, length, map, IfOk, OnOk};
ghost use Rattle.std.specs.List.{range_with_len};
ghost use Rattle.std.specs.Option.{ForSome, option_and_then};
ghost use Rattle.xfs_disk.specs.Blocks.{bytes_of_block};
ghost use Rattle.xfs_disk.specs.Faults.{HasCause};
ghost use Rattle.xfs_disk.specs.Reads.{OnlyReads};
ghost use Rattle.xfs_geom.specs.Volumes.{volume_of};
ghost use Rattle.xfs_heads.specs.FreeList.{agfl_of};
ghost use Rattle.xfs_groups.specs.Answers.{HasGroupsCause};
ghost use Rattle.xfs_groups.specs.Private.Heads.{heads_at, heads_of};

use crate::faults::GroupsFault;
use std::alloc::Global;
use std::sync::ledger::Ledger;
use xfs_collections::Steps;
use xfs_disk::{BLOCK_SIZE, Disk, Failed, NoMemory};
use xfs_geom::Geometry;
use xfs_heads::{Agf, Agfl, Agi, read_agf, read_agfl, read_agi};
use xfs_word::part;

/// The headers of a group, where they read (chapter "Allocation Groups").
#[derive(Clone, Copy)]
pub(crate) struct Heads {
    pub agf: Option<Agf>,
    pub agi: Option<Agi>,
    pub agfl: Option<Agfl>,
}

/// Reads the headers of all groups.
pub(crate) fn read_all_heads<D: Disk, L: Ledger>(
    alloc: Global,
    g: &Geometry,
    disk: &mut D,
    steps: &mut Steps<L>,
) -> Result<Vec<Heads>, GroupsFault>
    requires inside { g.now.dblocks ≤ D.size disk.old }
    ensures read { IfOk result (λ heads. ForSome (D.holds disk.old) (λ image. heads.items ≡ map (heads_at (volume_of g.now) image) (range_with_len 0 g.now.agcount))) }
    ensures count { IfOk result (λ heads. length heads.items ≡ g.now.agcount) }
    ensures cause { HasGroupsCause (D.faults disk.old) (D.faults disk.new) result }
    ensures disk { OnlyReads D.size D.holds D.write_faults D.writes D.tells_stops D.moment D.may_leave D.left_since disk.old disk.new }
    ensures reads { D.reads disk.new + steps.old ≤ D.reads disk.old + steps.new }
{
    let mut all = Vec::new(alloc);
    for ag in 0..g.agcount {
        let heads = match read_heads(g, disk, ag, steps) {
            Ok(heads) => heads,
            Err(Failed) => return Err(GroupsFault::ReadFault),
        };
        match push_heads(&mut all, heads) {
            Ok(()) => {}
            Err(NoMemory) => return Err(GroupsFault::NoMemory),
        }
    }
    Ok(all)
}

/// Adds the headers of a group to those in front of it.
fn push_heads(all: &mut Vec<Heads>, heads: Heads) -> Result<(), NoMemory>
    ensures { OnOk result (all.new.items ≡ all.old.items ++ heads ∷ []) }
{
    all.push(heads)?;
    Ok(())
}

/// Reads the headers of a group.
fn read_heads<D: Disk, L: Ledger>(
    g: &Geometry,
    disk: &mut D,
    ag: u32,
    steps: &mut Steps<L>,
) -> Result<Heads, Failed>
    requires group { ag < g.now.agcount }
    requires inside { g.now.dblocks ≤ D.size disk.old }
    ensures read { IfOk result (λ heads. ForSome (D.holds disk.old) (λ image. heads ≡ heads_at (volume_of g.now) image ag)) }
    ensures cause { HasCause (D.faults disk.old) (D.faults disk.new) result }
    ensures disk { OnlyReads D.size D.holds D.write_faults D.writes D.tells_stops D.moment D.may_leave D.left_since disk.old disk.new }
    ensures reads { D.reads disk.new + steps.old ≤ D.reads disk.old + steps.new }
    ensures ticks { steps.new ≡ steps.old + 1 }
{
    let mut block = [0; BLOCK_SIZE];
    match read_block(disk, g.start_of_group(ag), &mut block, steps) {
        Ok(()) => Ok(heads_in(g, ag, &block)),
        Err(Failed) => Err(Failed),
    }
}

/// The headers in the first block of a group.
fn heads_in(g: &Geometry, ag: u32, block: &[u8]) -> Heads
    requires group { ag < g.now.agcount }
    requires block { length block.now ≡ 4096 }
    ensures { result ≡ heads_of (volume_of g.now) ag block.now }
{
    let agf = read_agf(g, ag, part(block, 512, 512));
    Heads {
        agf,
        agi: read_agi(g, ag, part(block, 1024, 512)),
        agfl: free_list(g, ag, agf, part(block, 1536, 512)),
    }
}

/// The free list of a group, where its header of free space reads.
fn free_list(g: &Geometry, ag: u32, agf: Option<Agf>, sector: &[u8]) -> Option<Agfl>
    requires group { ag < g.now.agcount }
    requires sector { length sector.now ≡ 512 }
    ensures { result ≡ option_and_then (λ agf. agfl_of (volume_of g.now) ag agf sector.now) agf }
{
    match agf {
        None => None,
        Some(agf) => read_agfl(g, ag, &agf, sector),
    }
}

/// Reads a block, and counts it as a step.
pub(crate) fn read_block<D: Disk, L: Ledger>(
    disk: &mut D,
    place: u64,
    block: &mut [u8],
    steps: &mut Steps<L>,
) -> Result<(), Failed>
    requires inside { place < D.size disk.old }
    requires block { length block.old ≡ 4096 }
    ensures bytes { OnOk result (ForSome (D.holds disk.old) (λ image. bytes_of_block image place ≡ block.new)) }
    ensures whole { length block.new ≡ 4096 }
    ensures cause { HasCause (D.faults disk.old) (D.faults disk.new) result }
    ensures disk { OnlyReads D.size D.holds D.write_faults D.writes D.tells_stops D.moment D.may_leave D.left_since disk.old disk.new }
    ensures reads { D.reads disk.new + steps.old ≤ D.reads disk.old + steps.new }
    ensures ticks { steps.new ≡ steps.old + 1 }
{
    steps.tick();
    match disk.read(place, block) {
        Ok(()) => Ok(()),
        Err(Failed) => Err(Failed),
    }
}
