//! What the data blocks of a directory state all together.

ghost use Rattle.std.specs.Prelude.{◌≡◌, ◌<◌, ◌++◌, [], ◌∷◌, true, false, not, length, map, filter, IfOk, IfErr, OnOk};
ghost use Rattle.std.specs.List.{flat_map, list_any};
ghost use Rattle.xfs_dirindex.specs.Faults.{OnUnsoundIndex};
ghost use Rattle.xfs_dirindex.specs.Mapped.{mapped_block, mapped, is_data};
ghost use Rattle.xfs_dirindex.specs.Data.{is_self, is_parent_name, is_dots, have_no_dots, begin_with_dots, stand_first, magic_of, area_in, is_sound_data, is_first_block, is_later, are_data, due_pair, due_pairs, pairs_in, all_pairs, longest_span, best_in, all_bests};

use crate::layouts::{INDEX_START, data_magic};
use crate::pairs::Pair;
use crate::seen::{DirSeen, IndexFault};
use std::alloc::{AllocError, Global};
use xfs_dirdata::{DataBlock, DirDataFault, EntryRec, FreeSpan, read_data};
use xfs_word::{get32, name_hash};

/// The byte offsets of the entries of the directory itself and of its parent.
const OWN_PLACE: u16 = 64;

const PARENT_PLACE: u16 = 80;

/// The longest unused span of a data block.
#[derive(Clone, Copy)]
pub struct Best {
    /// The data block, by its number in the file.
    pub offset: u64,
    /// How many bytes the span has.
    pub length: u16,
}

/// What data blocks state.
#[derive(Drop)]
pub struct StatedData {
    /// The pairs that an index has to have.
    pub due: Vec<Pair>,
    /// The longest unused span of each block.
    pub bests: Vec<Best>,
}

impl StatedData {
    /// What no block states.
    pub fn new(alloc: Global) -> StatedData
        ensures due { result.due.items ≡ [] }
        ensures bests { result.bests.items ≡ [] }
    {
        StatedData {
            due: Vec::new(alloc),
            bests: Vec::new(alloc),
        }
    }
}

/// Reads the data blocks of a directory in leaf or node form.
#[tactic(auto, unfolding(crate::specs::Data::all_pairs, crate::specs::Data::all_bests))]
pub fn read_blocks(alloc: Global, dir: &DirSeen) -> Result<StatedData, IndexFault>
    requires mapped { length dir.now.blocks ≡ length dir.now.offsets.items }
    ensures sound { OnOk result (are_data dir.now.dir (mapped dir.now.offsets.items dir.now.blocks) ≡ true) }
    ensures unsound { IfErr result (λ fault. OnUnsoundIndex fault (are_data dir.now.dir (mapped dir.now.offsets.items dir.now.blocks) ≡ false)) }
    ensures due { IfOk result (λ taken. taken.due.items ≡ all_pairs dir.now.dir (mapped dir.now.offsets.items dir.now.blocks)) }
    ensures bests { IfOk result (λ taken. taken.bests.items ≡ all_bests dir.now.dir (mapped dir.now.offsets.items dir.now.blocks)) }
{
    let count = dir.blocks.len();
    if count == 0 {
        return Err(IndexFault::Unsound);
    }
    let mut taken = StatedData::new(alloc);
    let first = dir.blocks.view(0);
    match take_first(alloc, dir.dir, false, dir.offsets[0], first, &mut taken) {
        Ok(()) => {}
        Err(fault) => return Err(fault),
    }
    for i in 1..count {
        let block = dir.blocks.view(i);
        match take_later(alloc, dir.dir, dir.offsets[i], block, &mut taken) {
            Ok(()) => {}
            Err(fault) => return Err(fault),
        }
    }
    Ok(taken)
}

/// Takes up the first block of a directory.
#[tactic(auto, unfolding(crate::specs::Data::is_first_block))]
pub fn take_first(
    alloc: Global,
    dir: u64,
    whole: bool,
    offset: u64,
    block: &[u8],
    taken: &mut StatedData,
) -> Result<(), IndexFault>
    requires { length block.now ≡ 4096 }
    ensures sound { OnOk result (is_first_block dir whole (mapped_block offset block.now) ≡ true) }
    ensures unsound { IfErr result (λ fault. OnUnsoundIndex fault (is_first_block dir whole (mapped_block offset block.now) ≡ false)) }
    ensures due { OnOk result (taken.new.due.items ≡ taken.old.due.items ++ pairs_in dir whole (mapped_block offset block.now)) }
    ensures bests { OnOk result (taken.new.bests.items ≡ taken.old.bests.items ++ best_in dir whole (mapped_block offset block.now) ∷ []) }
{
    if offset != 0 {
        return Err(IndexFault::Unsound);
    }
    let data = take_block(alloc, dir, whole, offset, block, taken)?;
    if !begin_with_dots(dir, &data.entries) {
        return Err(IndexFault::Unsound);
    }
    if !stand_first(&data.places) {
        return Err(IndexFault::Unsound);
    }
    Ok(())
}

/// Takes up a later block of a directory, if it is a data block.
#[tactic(auto, unfolding(crate::specs::Data::is_later))]
fn take_later(
    alloc: Global,
    dir: u64,
    offset: u64,
    block: &[u8],
    taken: &mut StatedData,
) -> Result<(), IndexFault>
    requires { length block.now ≡ 4096 }
    ensures sound { OnOk result (is_later dir (mapped_block offset block.now) ≡ true) }
    ensures unsound { IfErr result (λ fault. OnUnsoundIndex fault (is_later dir (mapped_block offset block.now) ≡ false)) }
    ensures due { OnOk result (taken.new.due.items ≡ taken.old.due.items ++ flat_map (pairs_in dir false) (filter is_data (mapped_block offset block.now ∷ []))) }
    ensures bests { OnOk result (taken.new.bests.items ≡ taken.old.bests.items ++ map (best_in dir false) (filter is_data (mapped_block offset block.now ∷ []))) }
{
    if offset >= INDEX_START {
        return Ok(());
    }
    let data = take_block(alloc, dir, false, offset, block, taken)?;
    if !have_no_dots(&data.entries) {
        return Err(IndexFault::Unsound);
    }
    Ok(())
}

/// Takes up what a data block states.
#[tactic(auto, unfolding(crate::specs::Data::is_sound_data, crate::specs::Data::area_in, crate::specs::Data::pairs_in, crate::specs::Data::best_in))]
fn take_block(
    alloc: Global,
    dir: u64,
    whole: bool,
    offset: u64,
    block: &[u8],
    taken: &mut StatedData,
) -> Result<DataBlock, IndexFault>
    requires block { length block.now ≡ 4096 }
    requires low { offset < 0x800000 }
    ensures sound { OnOk result (is_sound_data dir whole (mapped_block offset block.now) ≡ true) }
    ensures unsound { IfErr result (λ fault. OnUnsoundIndex fault (is_sound_data dir whole (mapped_block offset block.now) ≡ false)) }
    ensures entries { IfOk result (λ read. read.entries.items ≡ (area_in dir whole (mapped_block offset block.now)).entries) }
    ensures places { IfOk result (λ read. read.places.items ≡ (area_in dir whole (mapped_block offset block.now)).places) }
    ensures due { OnOk result (taken.new.due.items ≡ taken.old.due.items ++ pairs_in dir whole (mapped_block offset block.now)) }
    ensures bests { OnOk result (taken.new.bests.items ≡ taken.old.bests.items ++ best_in dir whole (mapped_block offset block.now) ∷ []) }
{
    if get32(block, 0) != data_magic(whole) {
        return Err(IndexFault::Unsound);
    }
    let data = match read_data(alloc, dir, block, whole) {
        Ok(data) => data,
        Err(DirDataFault::Unsound) => return Err(IndexFault::Unsound),
        Err(DirDataFault::NoMemory) => return Err(IndexFault::NoMemory),
    };
    take_pairs(offset, &data.entries, &data.places, &mut taken.due)?;
    taken.bests.push(Best {
        offset,
        length: longest_span(&data.free),
    })?;
    Ok(data)
}

/// Takes up the pairs that are due for entries of a file block, which stand at these byte offsets.
fn take_pairs(
    offset: u64,
    entries: &[EntryRec],
    places: &[u16],
    due: &mut Vec<Pair>,
) -> Result<(), AllocError>
    requires { offset < 0x800000 }
    ensures { OnOk result (due.new.items ≡ due.old.items ++ due_pairs offset entries.now places.now) }
{
    let count = entries.len().min(places.len());
    due.reserve(count)?;
    for i in 0..count {
        due.push(due_pair(offset, &entries[i], places[i]))?;
    }
    Ok(())
}

/// The pair that is due for an entry of a file block, which stands at a byte offset.
fn due_pair(offset: u64, entry: &EntryRec, place: u16) -> Pair
    requires { offset < 0x800000 }
    ensures { result ≡ due_pair offset entry.now place }
{
    Pair {
        hash: name_hash(entry.name.bytes()),
        address: (offset * 4096 + place as u64) / 8,
    }
}

/// How many bytes the longest of these unused spans has.
fn longest_span(free: &[FreeSpan]) -> u16
    ensures { result ≡ longest_span free.now }
{
    let mut length = 0;
    for span in free {
        length = span.length.max(length);
    }
    length
}

/// Whether the first two entries are those of the directory and of its parent, and no other has their
/// names.
fn begin_with_dots(dir: u64, entries: &[EntryRec]) -> bool
    ensures { result ≡ begin_with_dots dir entries.now }
{
    let [own, parent, rest @ ..] = entries else {
        return false;
    };
    if !is_self(own.name.bytes()) {
        return false;
    }
    if own.ino != dir {
        return false;
    }
    if !is_parent_name(parent.name.bytes()) {
        return false;
    }
    have_no_dots(rest)
}

/// Whether the first two entries stand right behind the header, by their byte offsets.
fn stand_first(places: &[u16]) -> bool
    ensures { result ≡ stand_first places.now }
{
    match places {
        [own, parent, ..] => *own == OWN_PLACE && *parent == PARENT_PLACE,
        _ => false,
    }
}

/// Whether no entry is that of the directory or of its parent.
fn have_no_dots(entries: &[EntryRec]) -> bool
    ensures { result ≡ have_no_dots entries.now }
{
    !has_dots(entries)
}

/// Whether some entry is.
fn has_dots(entries: &[EntryRec]) -> bool
    ensures { result ≡ list_any is_dots entries.now }
{
    for entry in entries {
        if is_dots(entry) {
            return true;
        }
    }
    false
}

/// Whether an entry has the name of the directory itself or of its parent.
#[tactic(auto, unfolding(crate::specs::Data::is_dots))]
pub fn is_dots(entry: &EntryRec) -> bool
    ensures { result ≡ is_dots entry.now }
{
    let name = entry.name.bytes();
    is_self(name) || is_parent_name(name)
}

/// Whether a name is ".".
#[tactic(auto, unfolding(crate::specs::Data::is_self))]
fn is_self(name: &[u8]) -> bool
    ensures { result ≡ is_self name.now }
{
    name.len() == 1 && name[0] == b'.'
}

/// Whether a name is "..", that of the parent.
#[tactic(auto, unfolding(crate::specs::Data::is_parent_name))]
pub fn is_parent_name(name: &[u8]) -> bool
    ensures { result ≡ is_parent_name name.now }
{
    if name.len() != 2 {
        return false;
    }
    name[0] == b'.' && name[1] == b'.'
}
