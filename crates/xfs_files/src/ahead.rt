//! The blocks of a file that were read ahead, many by one call of the system.

ghost use Rattle.std.specs.Prelude.{◌≡◌, ◌*◌, ◌^◌, ◌<◌, ◌≤◌, length, take, drop, IsTrue, IfOk};
ghost use Rattle.std.specs.Option.{ForSome};

use crate::system::ByteFile;
use std::alloc::Global;
use xfs_disk::{BLOCK_SIZE, NoMemory};

/// The most blocks that are read ahead, and their bytes.
const MOST_AHEAD: u64 = 64;

const AHEAD_SIZE: usize = 262144;

/// Blocks are first read ahead up to the next multiple of so many: a chunk of inodes has them.
const FIRST_AHEAD: u64 = 8;

/// The bytes of a block, as a distance in a file.
const BLOCK_BYTES: u64 = BLOCK_SIZE as u64;

/// Blocks of a file that follow one another.
///
/// Blocks are read ahead only where the one behind the last is read whole, so that a block that stands alone costs what it did: first
/// those up to the next multiple of eight, since chunks of inodes begin and end there, then eight, and then twice as many each time up to
/// sixty-four. The first bytes of a block are read alone where it is not held; once those of more blocks in a row were asked for than a
/// chunk has, blocks are read ahead for them too.
#[derive(Drop)]
pub(crate) struct Ahead {
    bytes: Vec<u8>,
    /// The first block.
    first: u64,
    /// How many there are.
    count: u64,
    /// How many are read ahead next.
    next: u64,
    /// The block behind the last one whose first bytes were asked for.
    front: u64,
    /// Of how many blocks in a row they were, beside the first.
    fronts: u64,
    ghost held_fit: { count * 4096 ≤ length bytes.items },
    ghost next_fit: { next ≤ 64 },
}

impl Ahead {
    ghost use Rattle.xfs_files.specs.Ahead.{HoldsPart};

    /// No block, and no room for any.
    pub(crate) fn none(alloc: Global) -> Ahead
        ensures { (told : _) → HoldsPart told result }
    {
        Ahead {
            bytes: Vec::new(alloc),
            first: 0,
            count: 0,
            next: FIRST_AHEAD,
            front: 0,
            fronts: 0,
        }
    }

    /// No block, before any is read.
    pub(crate) fn make(alloc: Global) -> Result<Ahead, NoMemory>
        ensures { IfOk result (λ ahead. (told : _) → HoldsPart told ahead) }
    {
        Ok(Ahead {
            bytes: vec![in alloc; 0; AHEAD_SIZE]?,
            first: 0,
            count: 0,
            next: FIRST_AHEAD,
            front: 0,
            fronts: 0,
        })
    }

    /// Gives up all blocks.
    pub(crate) fn drop_all(&mut self)
        ensures { (told : _) → HoldsPart told self.new }
    {
        self.count = 0;
    }

    /// Gives up all blocks; the one behind this is expected next.
    pub(crate) fn expect_behind(&mut self, at: u64)
        ensures { (told : _) → HoldsPart told self.new }
    {
        self.count = 0;
        self.first = at.saturating_add(1);
        self.next = FIRST_AHEAD - self.first % FIRST_AHEAD;
    }

    /// Reads blocks ahead from this one on, where the first bytes of enough blocks before it were asked for, one after the other.
    pub(crate) fn look_front<F: ByteFile>(&mut self, file: &mut F, at: u64)
        requires range { at * 4096 < 2 ^ 64 }
        requires held { HoldsPart (F.bytes file.old) self.old }
        ensures held { HoldsPart (F.bytes file.new) self.new }
        ensures bytes { F.bytes file.new ≡ F.bytes file.old }
    {
        self.count_front(at);
        if self.fronts >= FIRST_AHEAD {
            self.look(file, at);
        }
    }

    /// Counts a block whose first bytes are asked for. Where it is the first behind enough others, what is held is given up, and this block
    /// is expected next.
    fn count_front(&mut self, at: u64)
        ensures { (told : _) → HoldsPart told self.old → HoldsPart told self.new }
    {
        self.fronts = if at == self.front {
            self.fronts.saturating_add(1)
        } else {
            0
        };
        self.front = at.saturating_add(1);
        if self.fronts == FIRST_AHEAD {
            self.count = 0;
            self.first = at;
            self.next = FIRST_AHEAD;
        }
    }

    /// Copies the first bytes of a block, as many as are asked for, where it is held.
    pub(crate) fn give(&self, at: u64, into: &mut [u8]) -> bool
        requires part { length into.old ≤ 4096 }
        ensures { IsTrue result → (told : _) → HoldsPart told self.now → ForSome told (λ all. into.new ≡ take (length into.old) (drop (at * 4096) all)) }
    {
        if at < self.first || at - self.first >= self.count {
            return false;
        }
        let start = (at - self.first) as usize * BLOCK_SIZE;
        into.copy_from_slice(&self.bytes[start..start + into.len()]);
        true
    }

    /// Reads blocks ahead from this one on, where it is the one behind the last.
    pub(crate) fn look<F: ByteFile>(&mut self, file: &mut F, at: u64)
        requires range { at * 4096 < 2 ^ 64 }
        requires held { HoldsPart (F.bytes file.old) self.old }
        ensures held { HoldsPart (F.bytes file.new) self.new }
        ensures bytes { F.bytes file.new ≡ F.bytes file.old }
    {
        if at != self.first.saturating_add(self.count) {
            return;
        }
        let size = self.bytes.len().min(self.next as usize * BLOCK_SIZE);
        let got = fill_front(file, at * BLOCK_BYTES, &mut self.bytes, size);
        self.first = at;
        self.count = (got / BLOCK_SIZE) as u64;
        self.next = next_after(self.next);
    }
}

/// How many blocks are read ahead where so many were.
fn next_after(count: u64) -> u64
    requires { count ≤ 64 }
    ensures { result ≤ 64 }
{
    if count < FIRST_AHEAD {
        FIRST_AHEAD
    } else {
        MOST_AHEAD.min(2 * count)
    }
}

/// The same into the front of the bytes that are read ahead.
fn fill_front<F: ByteFile>(file: &mut F, start: u64, bytes: &mut Vec<u8>, size: usize) -> usize
    requires fits { size ≤ length bytes.old.items }
    ensures within { result ≤ size }
    ensures len { length bytes.new.items ≡ length bytes.old.items }
    ensures read { ForSome (F.bytes file.old) (λ all. take result bytes.new.items ≡ take result (drop start all)) }
    ensures bytes { F.bytes file.new ≡ F.bytes file.old }
{
    fill(file, start, bytes.slice_mut(..size))
}

/// Reads into a slice by one call from this byte of the file on, and says how many bytes; none where that fails.
fn fill<F: ByteFile>(file: &mut F, start: u64, into: &mut [u8]) -> usize
    ensures within { result ≤ length into.old }
    ensures read { ForSome (F.bytes file.old) (λ all. take result into.new ≡ take result (drop start all)) }
    ensures bytes { F.bytes file.new ≡ F.bytes file.old }
{
    match file.read_some(start, into) {
        Ok(count) => count,
        Err(_) => 0,
    }
}
