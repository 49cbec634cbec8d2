//! The trees of all groups, one forest for each kind.

ghost use Rattle.std.specs.Prelude.{◌≡◌, ◌+◌, ◌-◌, ◌<◌, ◌≤◌, ◌++◌, [], ◌∷◌, map, slice_get, IfOk, OnOk};
ghost use Rattle.std.specs.Option.{ForSome, option_and_then};
ghost use Rattle.std.specs.Vec.Iter.{into_iter_items};
ghost use Rattle.xfs_disk.specs.Blocks.{Image};
ghost use Rattle.xfs_disk.specs.Reads.{OnlyReads};
ghost use Rattle.xfs_geom.specs.Volumes.{volume_of};
ghost use Rattle.xfs_image.specs.Groups.{head_block};
ghost use Rattle.xfs_tree.specs.Reading.{root_seat};
ghost use Rattle.xfs_groups.specs.Answers.{HasGroupsCause};
ghost use Rattle.xfs_forest.specs.Forest.{contents_of, reads_as};
ghost use Rattle.xfs_groups.specs.Private.Forests.{IsTaken, grown_at, grown_from};
ghost use Rattle.xfs_groups.specs.Private.Left.{AreLeft, AreTaken};

use crate::faults::GroupsFault;
use crate::heads::Heads;
use crate::roots::{GroupKind, Root};
use crate::trees::{TreeSeen, Trees, seen};
use std::alloc::Global;
use std::sync::ledger::Ledger;
use std::thread::Threads;
use std::vec::IntoIter;
use xfs_collections::Steps;
use xfs_disk::{Disk, Gate, NoMemory};
use xfs_forest::{ForestFault, Plant, read_forest};
use xfs_geom::Geometry;
use xfs_kinds::{Bno, Cnt, Fino, Ino, Rmap};
use xfs_tree::{Kind, Seat, Tree, Unread};

/// The trees that were read, of each kind those of the groups whose headers name them, in order.
#[derive(Drop)]
pub(crate) struct Forests {
    bno: IntoIter<Result<Tree<Bno>, Unread>>,
    cnt: IntoIter<Result<Tree<Cnt>, Unread>>,
    ino: IntoIter<Result<Tree<Ino>, Unread>>,
    fino: IntoIter<Result<Tree<Fino>, Unread>>,
    rmap: IntoIter<Result<Tree<Rmap>, Unread>>,
}

impl Forests {
    /// Takes the trees of the next group, whose headers these are.
    pub fn next(&mut self, heads: &Heads) -> Trees
        ensures { AreTaken heads.now self.old result self.new }
    {
        Trees {
            bno: next_tree(heads, &mut self.bno),
            cnt: next_tree(heads, &mut self.cnt),
            ino: next_tree(heads, &mut self.ino),
            fino: next_tree(heads, &mut self.fino),
            rmap: next_tree(heads, &mut self.rmap),
        }
    }
}

/// Takes the tree of the next group, whose headers these are, where it has one that reads.
fn next_tree<K: Kind + GroupKind>(
    heads: &Heads,
    rest: &mut IntoIter<Result<Tree<K>, Unread>>,
) -> Option<TreeSeen<K::Record>>
    ensures { IsTaken (K.root_of heads.now) (into_iter_items rest.old) result (into_iter_items rest.new) }
{
    K::root(heads)?;
    match rest.next()? {
        Ok(tree) => Some(seen(tree)),
        Err(_) => None,
    }
}

/// Reads the trees of all groups whose headers these are, by kind. The trees of owners, mostly the tallest, come last: so their
/// leaves are read once the roots of all trees are.
pub(crate) fn read_forests<R: Threads + Sync, D: Disk, G: Gate, L: Ledger>(
    rt: &R,
    alloc: Global,
    g: &Geometry,
    disk: &mut D,
    heads: &[Heads],
    workers: u32,
    gate: &G,
    steps: &mut Steps<L>,
) -> Result<Forests, GroupsFault>
    requires inside { g.now.dblocks ≤ D.size disk.old }
    ensures left { IfOk result (λ forests. ForSome (D.holds disk.old) (λ image. AreLeft (volume_of g.now) image heads.now 0 g.now.agcount forests)) }
    ensures cause { HasGroupsCause (D.faults disk.old) (D.faults disk.new) result }
    ensures disk { OnlyReads D.size D.holds D.write_faults D.writes D.tells_stops D.moment D.may_leave D.left_since disk.old disk.new }
    ensures reads { D.reads disk.new + steps.old ≤ D.reads disk.old + steps.new }
{
    let bno = match read_kind(rt, alloc, g, disk, heads, workers, gate, steps) {
        Ok(trees) => trees,
        Err(fault) => return Err(fault),
    };
    let cnt = match read_kind(rt, alloc, g, disk, heads, workers, gate, steps) {
        Ok(trees) => trees,
        Err(fault) => return Err(fault),
    };
    let ino = match read_kind(rt, alloc, g, disk, heads, workers, gate, steps) {
        Ok(trees) => trees,
        Err(fault) => return Err(fault),
    };
    let fino = match read_kind(rt, alloc, g, disk, heads, workers, gate, steps) {
        Ok(trees) => trees,
        Err(fault) => return Err(fault),
    };
    match read_kind(rt, alloc, g, disk, heads, workers, gate, steps) {
        Ok(rmap) => Ok(Forests {
            bno,
            cnt,
            ino,
            fino,
            rmap,
        }),
        Err(fault) => Err(fault),
    }
}

/// Reads the trees of a kind of all groups whose headers these are.
fn read_kind<K: Kind + GroupKind + Drop, R: Threads + Sync, D: Disk, G: Gate, L: Ledger>(
    rt: &R,
    alloc: Global,
    g: &Geometry,
    disk: &mut D,
    heads: &[Heads],
    workers: u32,
    gate: &G,
    steps: &mut Steps<L>,
) -> Result<IntoIter<Result<Tree<K>, Unread>>, GroupsFault>
    requires inside { g.now.dblocks ≤ D.size disk.old }
    ensures read { IfOk result (λ trees. ForSome (D.holds disk.old) (λ image.
        map contents_of (into_iter_items trees) ≡ grown_from K.shape K.kind_of (volume_of g.now) image K.root_of heads.now 0 g.now.agcount)) }
    ensures cause { HasGroupsCause (D.faults disk.old) (D.faults disk.new) result }
    ensures disk { OnlyReads D.size D.holds D.write_faults D.writes D.tells_stops D.moment D.may_leave D.left_since disk.old disk.new }
    ensures reads { D.reads disk.new + steps.old ≤ D.reads disk.old + steps.new }
{
    let plants = match plants_of(alloc, g, heads) {
        Ok(plants) => plants,
        Err(NoMemory) => return Err(GroupsFault::NoMemory),
    };
    match read_forest(rt, alloc, g, disk, plants, workers, gate, steps) {
        Ok(trees) => Ok(trees.into_iter()),
        Err(ForestFault::ReadFault) => Err(GroupsFault::ReadFault),
        Err(ForestFault::NoMemory) => Err(GroupsFault::NoMemory),
    }
}

/// The trees of a kind that are to be read: those of the groups whose headers name them, in order.
fn plants_of<K: Kind + GroupKind + Drop>(
    alloc: Global,
    g: &Geometry,
    heads: &[Heads],
) -> Result<Vec<Plant<K>>, NoMemory>
    ensures { IfOk result (λ plants. (image : Image) → map (reads_as K.shape (volume_of g.now) image) plants.items
        ≡ grown_from K.shape K.kind_of (volume_of g.now) image K.root_of heads.now 0 g.now.agcount) }
{
    let mut plants = Vec::with_capacity(alloc, heads.len())?;
    for ag in 0..g.agcount {
        push_plant(alloc, g, ag, root_at::<K>(heads, ag), &mut plants)?;
    }
    Ok(plants)
}

/// The root of the tree of one of the groups whose headers these are, where they name one.
fn root_at<K: GroupKind>(heads: &[Heads], ag: u32) -> Option<Root>
    ensures { result ≡ option_and_then K.root_of (slice_get heads.now ag) }
{
    let heads = heads.get(ag as usize)?;
    K::root(heads)
}

/// Adds the tree of a group, where it has a root.
fn push_plant<K: Kind + GroupKind + Drop>(
    alloc: Global,
    g: &Geometry,
    ag: u32,
    root: Option<Root>,
    plants: &mut Vec<Plant<K>>,
) -> Result<(), NoMemory>
    requires { ag < g.now.agcount }
    ensures { OnOk result ((image : Image) → map (reads_as K.shape (volume_of g.now) image) plants.new.items
        ≡ map (reads_as K.shape (volume_of g.now) image) plants.old.items
        ++ grown_at K.shape K.kind_of (volume_of g.now) image ag root) }
{
    match root {
        None => Ok(()),
        Some(root) => {
            plants.push(plant(alloc, g, ag, root)?)?;
            Ok(())
        }
    }
}

/// The tree of a group whose root this is.
fn plant<K: Kind + GroupKind + Drop>(
    alloc: Global,
    g: &Geometry,
    ag: u32,
    root: Root,
) -> Result<Plant<K>, NoMemory>
    requires { ag < g.now.agcount }
    ensures kind { IfOk result (λ plant. plant.kind ≡ K.kind_of ag) }
    ensures tops { IfOk result (λ plant. plant.tops.items ≡ root_seat (head_block (volume_of g.now) ag + root.block) ∷ []) }
    ensures height { IfOk result (λ plant. plant.height ≡ root.levels - 1) }
{
    let mut tops = Vec::new(alloc);
    tops.push(Seat {
        place: g.start_of_group(ag) + root.block as u64,
        low: None,
        high: None,
    })?;
    Ok(Plant {
        kind: K::in_group(ag),
        tops,
        height: root.levels.saturating_sub(1),
    })
}
