//! The runs of objects, one after another.

ghost use Rattle.std.specs.Prelude.{◌≡◌, ◌≤◌, ◌<◌, ◌+◌, ◌-◌, ◌++◌, [], ◌∷◌, ◌⊎◌, ℕ, List, Option, if◌then◌else◌, is_some, length, take, drop, true, false, All, IfErr, IfOk, OnOk, MatchOption, Ok, Err, Some, None};
ghost use Rattle.xfs_geom.specs.Volumes.{volume_of};
ghost use Rattle.xfs_place.specs.Finding.{IsOpen};
ghost use Rattle.xfs_place.specs.Kept.{AreAsksPut, AreObjectsKept, IsAskPut};
ghost use Rattle.xfs_place.specs.Objects.{ServeAsks, IsAsk, front_of, keep_object, keep_with, lowest, piece_of, place_of_object, rest_of, run_at, spared_in};
ghost use Rattle.xfs_place.specs.Wanted.{CanBeKept};
ghost use Rattle.xfs_place.specs.declared.faults.Unplaced.{Unplaced};
ghost use Rattle.xfs_place.specs.declared.wanted.RunAsk.{RunAsk};
ghost use Rattle.xfs_kinds.specs.OffsetWords.{is_file_data};

use crate::faults::{PlaceFault, Unplaced};
use crate::open_blocks::OpenBlocks;
use crate::open_rows::Site;
use crate::wanted::{Object, ObjectKind, RunAsk};
use std::alloc::Global;
use xfs_disk::NoMemory;
use xfs_geom::Run;

/// The owners that are inodes are below this number.
const NEGATIVE: u64 = 1 << 63;

/// The flag of a block of a fork's extent tree in an offset word.
const TREE_BLOCK: u64 = 1 << 62;

/// What is kept, with the runs of objects behind it.
#[derive(Drop)]
pub struct ObjectsKept {
    pub all: Vec<Run>,
    /// How many runs each ask has, in order.
    pub cuts: Vec<u32>,
}

/// What is kept so far, and the blocks that it leaves.
#[derive(Drop)]
pub struct Keeper {
    pub pool: OpenBlocks,
    pub all: Vec<Run>,
}

/// Adds to what is kept the runs of all objects, in order.
///
/// `NoRoom` of the first object that has none; `NoMemory` where memory is wanting.
pub fn keep_with(
    alloc: Global,
    site: &Site<'_>,
    kept: Vec<Run>,
    objects: &[Object],
) -> Result<ObjectsKept, PlaceFault>
    requires kept { CanBeKept (volume_of site.now.geometry.now) kept.items }
    requires asks { All (λ object. All IsAsk object.runs) objects.now }
    ensures told { IfOk result (λ now. AreObjectsKept (volume_of site.now.geometry.now) site.now.reserved.now site.now.from site.now.spared.now site.now.takes kept.items objects.now now.all.items now.cuts.items) }
    ensures cause { IfErr result (λ fault. (fault ≡ PlaceFault.NoMemory)
        ⊎ ((what : Unplaced) × (fault ≡ PlaceFault.NoRoom what) × (keep_with (volume_of site.now.geometry.now) site.now.reserved.now site.now.from site.now.spared.now site.now.takes kept.items objects.now ≡ Err what))) }
{
    if objects.is_empty() {
        let cuts = Vec::new(alloc);
        return Ok(ObjectsKept { all: kept, cuts });
    }
    let first = kept.len();
    let pool = OpenBlocks::new(alloc, site, &kept)?;
    let mut keeper = Keeper { pool, all: kept };
    let mut cuts = Vec::new(alloc);
    for object in objects {
        if !keeper.put_object(alloc, &mut cuts, site, object, first)? {
            return Err(PlaceFault::NoRoom(place_of_object(object)));
        }
    }
    let Keeper { all, .. } = keeper;
    Ok(ObjectsKept { all, cuts })
}

impl Keeper {
    /// Adds the runs of an object, and how many each of its asks has; false where they do not hold it. They stand on blocks that are not
    /// spared, or else on all where objects take spared ones. The runs from number `first` on are those of objects.
    fn put_object(
        &mut self,
        alloc: Global,
        cuts: &mut Vec<u32>,
        site: &Site<'_>,
        object: &Object,
        first: usize,
    ) -> Result<bool, NoMemory>
        requires asks { All IsAsk object.now.runs }
        requires first { first ≤ length self.old.all.items }
        requires kept { CanBeKept (volume_of site.now.geometry.now) self.old.all.items }
        requires pool { IsOpen (volume_of site.now.geometry.now) self.old.all.items site.now.reserved.now site.now.from site.now.spared.now self.old.pool }
        ensures kept { OnOk result (CanBeKept (volume_of site.now.geometry.now) self.new.all.items) }
        ensures pool { OnOk result (IsOpen (volume_of site.now.geometry.now) self.new.all.items site.now.reserved.now site.now.from site.now.spared.now self.new.pool) }
        ensures placed { IfOk result (λ placed. keep_object (volume_of site.now.geometry.now) site.now.reserved.now site.now.from site.now.spared.now site.now.takes self.old.all.items object.now
            ≡ (if placed then Some self.new.all.items else None)) }
        ensures long { OnOk result (length self.old.all.items ≤ length self.new.all.items) }
        ensures cuts { IfOk result (λ placed. placed ≡ true → (asks : List RunAsk) → ServeAsks asks cuts.old.items (drop first self.old.all.items)
            → ServeAsks (asks ++ object.now.runs) cuts.new.items (drop first self.new.all.items)) }
    {
        let kept = self.all.len();
        let cut = cuts.len();
        if self.put_asks(false, cuts, site, object, first)? {
            return Ok(true);
        }
        if !site.takes {
            return Ok(false);
        }
        self.give_back(alloc, site, kept)?;
        cuts.truncate(cut);
        let placed = self.put_asks(true, cuts, site, object, first)?;
        Ok(placed)
    }

    /// Gives back what the runs behind the first `kept` ones took.
    fn give_back(&mut self, alloc: Global, site: &Site<'_>, kept: usize) -> Result<(), NoMemory>
        requires kept { CanBeKept (volume_of site.now.geometry.now) (take kept self.old.all.items) }
        requires pool { IsOpen (volume_of site.now.geometry.now) self.old.all.items site.now.reserved.now site.now.from site.now.spared.now self.old.pool }
        ensures all { OnOk result (self.new.all.items ≡ take kept self.old.all.items) }
        ensures pool { OnOk result (IsOpen (volume_of site.now.geometry.now) self.new.all.items site.now.reserved.now site.now.from site.now.spared.now self.new.pool) }
    {
        if self.all.len() <= kept {
            return Ok(());
        }
        self.all.truncate(kept);
        let pool = OpenBlocks::new(alloc, site, &self.all)?;
        self.pool = pool;
        Ok(())
    }

    /// Adds the runs of an object, on all blocks or on those that are not spared, and how many each of its asks has; false where they do
    /// not hold it. The runs from number `first` on are those of objects.
    fn put_asks(
        &mut self,
        all: bool,
        cuts: &mut Vec<u32>,
        site: &Site<'_>,
        object: &Object,
        first: usize,
    ) -> Result<bool, NoMemory>
        requires asks { All IsAsk object.now.runs }
        requires first { first ≤ length self.old.all.items }
        requires kept { CanBeKept (volume_of site.now.geometry.now) self.old.all.items }
        requires pool { IsOpen (volume_of site.now.geometry.now) self.old.all.items site.now.reserved.now site.now.from site.now.spared.now self.old.pool }
        ensures { IfOk result (λ placed. AreAsksPut (volume_of site.now.geometry.now) site.now.reserved.now site.now.from site.now.spared.now all object.now first self.old.all.items self.new.all.items
            cuts.old.items cuts.new.items self.new.pool placed) }
    {
        let asks = object.runs.as_slice();
        let mut left = object.most as usize;
        for (i, ask) in asks.iter().enumerate() {
            let most = left.saturating_sub(asks.len() - 1 - i);
            let Some(count) = self.put_ask(all, site, ask, most)? else {
                return Ok(false);
            };
            cuts.push(count as u32)?;
            left -= count;
        }
        Ok(true)
    }

    /// Adds the runs of an ask, which may be so many, on all blocks or on those that are not spared, and says how many they are; `None`
    /// where they do not hold it.
    fn put_ask(
        &mut self,
        all: bool,
        site: &Site<'_>,
        ask: &RunAsk,
        most: usize,
    ) -> Result<Option<usize>, NoMemory>
        requires ask { IsAsk ask.now }
        requires kept { CanBeKept (volume_of site.now.geometry.now) self.old.all.items }
        requires pool { IsOpen (volume_of site.now.geometry.now) self.old.all.items site.now.reserved.now site.now.from site.now.spared.now self.old.pool }
        ensures { IfOk result (λ count. IsAskPut (volume_of site.now.geometry.now) site.now.reserved.now site.now.from site.now.spared.now all most ask.now self.old.all.items self.new.all.items
            self.new.pool count) }
    {
        let mut rest = *ask;
        for n in 0..most {
            let Some(blocks) = self.put_piece(all, site, &rest, n > 0)? else {
                return Ok(None);
            };
            if blocks == rest.blocks {
                return Ok(Some(n + 1));
            }
            rest = rest_of(&rest, blocks);
        }
        Ok(None)
    }

    /// Adds a run for all that is asked for or for its first blocks, on all blocks or on those that are not spared, and says how many these
    /// are; `None` where no block is left.
    fn put_piece(
        &mut self,
        all: bool,
        site: &Site<'_>,
        ask: &RunAsk,
        split: bool,
    ) -> Result<Option<u32>, NoMemory>
        requires ask { IsAsk ask.now }
        requires kept { CanBeKept (volume_of site.now.geometry.now) self.old.all.items }
        requires pool { IsOpen (volume_of site.now.geometry.now) self.old.all.items site.now.reserved.now site.now.from site.now.spared.now self.old.pool }
        ensures kept { OnOk result (CanBeKept (volume_of site.now.geometry.now) self.new.all.items) }
        ensures pool { OnOk result (IsOpen (volume_of site.now.geometry.now) self.new.all.items site.now.reserved.now site.now.from site.now.spared.now self.new.pool) }
        ensures piece { IfOk result (λ blocks. MatchOption blocks
            ((piece_of (lowest (volume_of site.now.geometry.now) site.now.reserved.now site.now.from (spared_in all site.now.spared.now) self.old.all.items) split ask.now.blocks ≡ None) × (self.new.all.items ≡ self.old.all.items))
            (λ n. (start : ℕ) × (piece_of (lowest (volume_of site.now.geometry.now) site.now.reserved.now site.now.from (spared_in all site.now.spared.now) self.old.all.items) split ask.now.blocks ≡ Some (start, n))
            × (self.new.all.items ≡ self.old.all.items ++ run_at start (front_of ask.now n) ∷ []))) }
        ensures few { IfOk result (λ blocks. MatchOption blocks (Unit {0}) (λ n. (1 ≤ n) × (n ≤ ask.now.blocks))) }
    {
        let Some(piece) = self.pool.piece(all, ask.blocks as u64, split) else {
            return Ok(None);
        };
        let (start, blocks) = (piece.start, piece.blocks);
        self.pool.take(piece);
        self.all.push(run_of(start, blocks, ask))?;
        Ok(Some(blocks as u32))
    }
}

/// What is asked for behind its first blocks.
fn rest_of(ask: &RunAsk, blocks: u32) -> RunAsk
    requires few { blocks ≤ ask.now.blocks }
    requires fits { IsAsk ask.now }
    ensures { result ≡ rest_of ask.now blocks }
{
    let offset = if is_file_data(ask) {
        ask.offset_word + blocks as u64
    } else {
        ask.offset_word
    };
    RunAsk {
        blocks: ask.blocks - blocks,
        owner: ask.owner,
        offset_word: offset,
    }
}

/// Whether the blocks hold data of a file, or of its attributes, so that their offsets go up.
fn is_file_data(ask: &RunAsk) -> bool
    ensures { result ≡ is_file_data ask.now.owner ask.now.offset_word }
{
    ask.owner < NEGATIVE && ask.offset_word / TREE_BLOCK % 2 == 0
}

/// What the runs of an object are for.
fn place_of_object(object: &Object) -> Unplaced
    ensures { result ≡ place_of_object object.now.kind object.now.ino }
{
    match object.kind {
        ObjectKind::Directory => Unplaced::Directory(object.ino),
        ObjectKind::Symlink | ObjectKind::Data => Unplaced::File(object.ino),
    }
}

/// The run that the first blocks of an ask get.
fn run_of(start: u64, blocks: u64, ask: &RunAsk) -> Run
    ensures { result ≡ run_at start (front_of ask.now blocks) }
{
    Run {
        start,
        count: blocks,
        owner: ask.owner,
        offset_word: ask.offset_word,
    }
}
