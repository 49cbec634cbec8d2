//! The bank: so many blocks of 4096 bytes, one behind the other.

ghost use Rattle.std.specs.Prelude.{◌≡◌, ℕ, ◌+◌, ◌*◌, ◌/◌, ◌^◌, ◌≤◌, ◌<◌, List, [], ◌∷◌, ◌++◌, length, take, drop, replicate, Some, IsTrue, IfOk, OnOk, slice_get, slice_set, slice_index, slice_index_or, slice_range};
ghost use Rattle.std.specs.List.{All, concat};
ghost use Rattle.std.specs.Fork.{AcceptsEach, ChangesEach};
ghost use Rattle.xfs_disk.specs.Blocks.{Image, IsImage};
ghost use Rattle.xfs_disk.specs.Faults.{HasCause};
ghost use Rattle.xfs_disk.specs.Reads.{OnlyReads};
ghost use Rattle.std.specs.Option.{ForSome};
ghost use Rattle.xfs_collections.specs.Scattered.{NamesEach};
ghost use Rattle.xfs_collections.specs.Bank.{AreCuts, AreNeighbours, HasRun, parts_of, overwritten, with_run, IsFilledBank};

use crate::order::reading_order;
use crate::parts::change_parts;
use std::alloc::Global;
use std::marker::{Model, Sync};
use std::thread::Threads;
use xfs_disk::{BLOCK_SIZE, Disk, Failed, NoMemory};

/// So many blocks of 4096 bytes. Contracts see the list of the blocks.
#[derive(Drop)]
pub struct BlockBank {
    bytes: Vec<u8>,
}

impl Model for BlockBank {
    ghost use Rattle.std.specs.Prelude.{◌≡◌, ◌/◌, ◌%◌, List, ℕ, length};
    ghost use Rattle.xfs_disk.specs.Memory.{blocks_of_bytes};

    ghost Value = { List (List ℕ) };

    ghost view = { λ bank. blocks_of_bytes (length bank.bytes.items / 4096) bank.bytes.items };

    ghost invariant = { λ bank. length bank.bytes.items % 4096 ≡ 0 };
}

impl BlockBank {
    ghost use Rattle.std.specs.Borrow.{sem};
    ghost use Rattle.xfs_collections.specs.Lending.{LendsBlock};

    /// A bank of `n` blocks of zeros.
    pub fn make(alloc: Global, n: usize) -> Result<BlockBank, NoMemory>
        ensures { IfOk result (λ bank. bank ≡ replicate n (replicate 4096 0)) }
    {
        let Some(size) = n.checked_mul(BLOCK_SIZE) else {
            return Err(NoMemory);
        };
        let bytes = vec![in alloc; 0; size]?;
        Ok(BlockBank { bytes })
    }

    /// Puts a block behind the others.
    pub fn push(&mut self, block: &[u8]) -> Result<(), NoMemory>
        requires whole { length block.now ≡ 4096 }
        ensures { OnOk result (self.new ≡ self.old ++ block.now ∷ []) }
    {
        self.bytes.extend_from_slice(block)?;
        Ok(())
    }

    /// How many blocks the bank has.
    pub fn len(&self) -> usize
        ensures count { result ≡ length self.now }
        ensures image { IsImage result self.now }
    {
        blocks_in(&self.bytes)
    }

    /// The bytes of block `i`.
    pub fn view(&self, i: usize) -> &[u8]
        requires inside { i < length self.now }
        ensures block { slice_get self.now i ≡ Some result.now }
        ensures size { length result.now ≡ 4096 }
    {
        let bytes = self.bytes.as_slice();
        let start = i * BLOCK_SIZE;
        &bytes[start..start + BLOCK_SIZE]
    }

    /// The bytes of block `i`, to be written.
    pub fn view_mut(&mut self, i: usize) -> &mut [u8]
        requires inside { i < length self.old }
        ensures* writes_back { sem 𝓛 (LendsBlock self.entry i result) }
        ensures block { slice_get self.old i ≡ Some result.now }
        ensures size { length result.now ≡ 4096 }
        ensures set { (bytes : List ℕ) → length bytes ≡ 4096 → overwritten self.old i bytes ≡ slice_set self.old i bytes }
    {
        let bytes = &mut self.bytes;
        let start = i * BLOCK_SIZE;
        bytes.slice_mut(start..start + BLOCK_SIZE)
    }

    /// Calls `f` once with each part of the bank and its number, from 0. Part j has the bytes of the
    /// blocks from cut j - 1 (0 for the first) up to cut j, and the last part those of the rest. Takes
    /// no memory.
    pub fn each_part<R: Threads + Sync, F: Fn(usize, &mut [u8]) + Sync>(
        &mut self,
        _rt: &R,
        cuts: &[usize],
        f: &F,
    )
        requires cuts { AreCuts 0 (length self.old) cuts.now }
        requires accepts { AcceptsEach F.Fn f.now (parts_of cuts.now self.old) }
        ensures parts { ChangesEach F.Fn f.now (parts_of cuts.now self.old) (parts_of cuts.now self.new) }
        ensures len { length self.new ≡ length self.old }
        ensures blocks { (bank : Image) (j : ℕ) → length bank ≡ length self.old → j ≤ length cuts.now →
            slice_get (parts_of cuts.now bank) j ≡ Some (concat (slice_range bank (slice_index (0 ∷ cuts.now) j) (slice_index_or cuts.now j (length bank)))) }
        ensures count { (bank : Image) → length (parts_of cuts.now bank) ≡ length cuts.now + 1 }
        ensures joined { (bank : Image) → concat (parts_of cuts.now bank) ≡ concat bank }
    {
        change_parts(f, 0, 0, cuts, &mut self.bytes);
    }

    /// Makes block `i` the disk's block `places[i]`. The blocks are read in ascending order of their
    /// places; where there is no memory for that, in the order of the list. After `Failed` any of these
    /// blocks may have been made so, and the others are as they were.
    pub fn fill<D: Disk>(&mut self, disk: &mut D, places: &[u64]) -> Result<(), Failed>
        requires room { length places.now ≤ length self.old }
        requires inside { All (λ place. place < D.size disk.old) places.now }
        ensures filled { OnOk result (IsFilledBank (D.holds disk.old) places.now self.old self.new) }
        ensures rest { drop (length places.now) self.new ≡ drop (length places.now) self.old }
        ensures len { length self.new ≡ length self.old }
        ensures cause { HasCause (D.faults disk.old) (D.faults disk.new) result }
        ensures disk { OnlyReads D.size D.holds D.write_faults D.writes D.tells_stops D.moment D.may_leave D.left_since disk.old disk.new }
        ensures reads { D.reads disk.new ≤ D.reads disk.old + length places.now }
    {
        if places.is_sorted() {
            return self.fill_in_turn(disk, places);
        }
        let alloc = *self.bytes.allocator();
        match reading_order(alloc, places) {
            Ok(order) => self.fill_by(disk, places, &order),
            Err(NoMemory) => self.fill_in_turn(disk, places),
        }
    }

    /// The same, in the order of the list. Places that follow one another are read by one call.
    fn fill_in_turn<D: Disk>(&mut self, disk: &mut D, places: &[u64]) -> Result<(), Failed>
        requires room { length places.now ≤ length self.old }
        requires inside { All (λ place. place < D.size disk.old) places.now }
        ensures filled { OnOk result (IsFilledBank (D.holds disk.old) places.now self.old self.new) }
        ensures rest { drop (length places.now) self.new ≡ drop (length places.now) self.old }
        ensures len { length self.new ≡ length self.old }
        ensures cause { HasCause (D.faults disk.old) (D.faults disk.new) result }
        ensures disk { OnlyReads D.size D.holds D.write_faults D.writes D.tells_stops D.moment D.may_leave D.left_since disk.old disk.new }
        ensures reads { D.reads disk.new ≤ D.reads disk.old + length places.now }
    {
        let mut i = 0;
        while i < places.len() {
            let count = run_length(&places[i..]);
            match self.read_blocks(disk, places[i], i, count) {
                Ok(()) => {}
                Err(Failed) => return Err(Failed),
            }
            i += count;
        }
        Ok(())
    }

    /// The same, in the order of these pairs, which name each index of the list.
    fn fill_by<D: Disk>(
        &mut self,
        disk: &mut D,
        places: &[u64],
        order: &[(u64, usize)],
    ) -> Result<(), Failed>
        requires room { length places.now ≤ length self.old }
        requires inside { All (λ place. place < D.size disk.old) places.now }
        requires each { NamesEach (length places.now) order.now }
        requires count { length order.now ≡ length places.now }
        ensures filled { OnOk result (IsFilledBank (D.holds disk.old) places.now self.old self.new) }
        ensures rest { drop (length places.now) self.new ≡ drop (length places.now) self.old }
        ensures len { length self.new ≡ length self.old }
        ensures cause { HasCause (D.faults disk.old) (D.faults disk.new) result }
        ensures disk { OnlyReads D.size D.holds D.write_faults D.writes D.tells_stops D.moment D.may_leave D.left_since disk.old disk.new }
        ensures reads { D.reads disk.new ≤ D.reads disk.old + length places.now }
    {
        for k in 0..order.len() {
            match self.read_named(disk, places, order[k].1) {
                Ok(()) => {}
                Err(Failed) => return Err(Failed),
            }
        }
        Ok(())
    }

    /// Reads the place of index `i` into block `i`, if the list has that index.
    fn read_named<D: Disk>(&mut self, disk: &mut D, places: &[u64], i: usize) -> Result<(), Failed>
        requires room { length places.now ≤ length self.old }
        requires inside { All (λ place. place < D.size disk.old) places.now }
        ensures held { OnOk result (i < length places.now → ForSome (D.holds disk.old) (λ image. self.new ≡ slice_set self.old i (slice_index_or image (slice_index_or places.now i 0) []))) }
        ensures past { length places.now ≤ i → self.new ≡ self.old }
        ensures rest { drop (length places.now) self.new ≡ drop (length places.now) self.old }
        ensures len { length self.new ≡ length self.old }
        ensures cause { HasCause (D.faults disk.old) (D.faults disk.new) result }
        ensures disk { OnlyReads D.size D.holds D.write_faults D.writes D.tells_stops D.moment D.may_leave D.left_since disk.old disk.new }
        ensures reads { D.reads disk.new ≤ D.reads disk.old + 1 }
    {
        if i >= places.len() {
            return Ok(());
        }
        self.read_block(disk, places[i], i)
    }

    /// Reads blocks that follow one another, from `place` on, into block `i` and those behind it.
    fn read_blocks<D: Disk>(
        &mut self,
        disk: &mut D,
        place: u64,
        i: usize,
        count: usize,
    ) -> Result<(), Failed>
        requires inside { place + count ≤ D.size disk.old }
        requires numbers { place + count ≤ 2 ^ 64 }
        requires room { i + count ≤ length self.old }
        requires some { 0 < count }
        ensures held { OnOk result (ForSome (D.holds disk.old) (λ image. HasRun image place i count self.new)) }
        ensures first { take i self.new ≡ take i self.old }
        ensures rest { drop (i + count) self.new ≡ drop (i + count) self.old }
        ensures len { length self.new ≡ length self.old }
        ensures cause { HasCause (D.faults disk.old) (D.faults disk.new) result }
        ensures disk { OnlyReads D.size D.holds D.write_faults D.writes D.tells_stops D.moment D.may_leave D.left_since disk.old disk.new }
        ensures reads { D.reads disk.new ≤ D.reads disk.old + count }
    {
        match disk.read_run(place, self.view_run_mut(i, count)) {
            Ok(()) => Ok(()),
            Err(Failed) => Err(Failed),
        }
    }

    /// The bytes of so many blocks from block `i` on, to be written.
    fn view_run_mut(&mut self, i: usize, count: usize) -> &mut [u8]
        requires inside { i + count ≤ length self.old }
        requires some { 0 < count }
        ensures* writes_back { sem 𝓛 (LendsBlock self.entry i result) }
        ensures size { length result.now ≡ count * 4096 }
        ensures set { (bytes : List ℕ) → length bytes ≡ count * 4096 → overwritten self.old i bytes ≡ with_run self.old i count bytes }
    {
        let bytes = &mut self.bytes;
        let start = i * BLOCK_SIZE;
        bytes.slice_mut(start..start + count * BLOCK_SIZE)
    }

    /// Reads a block into block `i`.
    fn read_block<D: Disk>(&mut self, disk: &mut D, place: u64, i: usize) -> Result<(), Failed>
        requires inside { place < D.size disk.old }
        requires room { i < length self.old }
        ensures held { OnOk result (ForSome (D.holds disk.old) (λ image. self.new ≡ slice_set self.old i (slice_index_or image place []))) }
        ensures over { (bytes : List ℕ) × (self.new ≡ slice_set self.old i bytes) }
        ensures len { length self.new ≡ length self.old }
        ensures cause { HasCause (D.faults disk.old) (D.faults disk.new) result }
        ensures disk { OnlyReads D.size D.holds D.write_faults D.writes D.tells_stops D.moment D.may_leave D.left_since disk.old disk.new }
        ensures reads { D.reads disk.new ≤ D.reads disk.old + 1 }
    {
        match disk.read(place, self.view_mut(i)) {
            Ok(()) => Ok(()),
            Err(Failed) => Err(Failed),
        }
    }
}

/// How many blocks the bytes are.
fn blocks_in(bytes: &[u8]) -> usize
    ensures count { result ≡ length bytes.now / 4096 }
    ensures fit { All (λ b. b < 256) bytes.now }
{
    bytes.len() / BLOCK_SIZE
}

/// How many places at the front follow one another.
fn run_length(places: &[u64]) -> usize
    requires some { 0 < length places.now }
    ensures some { 0 < result }
    ensures within { result ≤ length places.now }
    ensures run { AreNeighbours result places.now }
{
    for n in 1..places.len() {
        if !stands_behind(places[0], places[n], n) {
            return n;
        }
    }
    places.len()
}

/// Whether a place is `n` behind another.
fn stands_behind(first: u64, place: u64, n: usize) -> bool
    ensures { IsTrue result → place ≡ first + n }
{
    place >= first && place - first == n as u64
}
