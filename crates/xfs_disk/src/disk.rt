//! A disk: numbered blocks of 4096 bytes that can be read, written and synced, and may fail.

ghost use Rattle.std.specs.Prelude.{◌≡◌, ℕ, ◌+◌, ◌/◌, ◌%◌, ◌^◌, ◌≤◌, ◌<◌, ◌⊎◌, List, length, take, Option, Some, OnOk, OnErr, IfOk, slice_get, slice_set};
ghost use Rattle.std.specs.Option.{ForSome};
ghost use Rattle.xfs_disk.specs.Blocks.{AreBlocksFrom, Image, IsImage, bytes_of_block};
ghost use Rattle.xfs_disk.specs.Counts.{CountsDone, raised_times};
ghost use Rattle.xfs_disk.specs.Faults.{HasCause};
ghost use Rattle.xfs_disk.specs.Stops.{EachOf, Elapses, GoesOn};

use crate::failed::Failed;

/// The bytes of a block.
pub const BLOCK_SIZE: usize = 4096;

/// A disk of numbered blocks of 4096 bytes each.
///
/// Contracts see its number of blocks `size`, its contents `holds` where it tells them, and four counts
/// that never fall: `reads` and `writes` of the blocks that were read and written, `faults` of failed reads,
/// `write_faults` of failed writes and syncs. A count that stands at 2^64 - 1 counts as risen. Where it tells its stops, `may_leave disk b v` says that a stop
/// at this moment may leave the bytes v in block b, and `left_since disk t image` that a stop at some
/// moment from t on might have left that image.
pub trait Disk {
    ghost size: { Self → ℕ };

    ghost holds: { Self → Option Image };

    ghost faults: { Self → ℕ };

    ghost write_faults: { Self → ℕ };

    ghost reads: { Self → ℕ };

    ghost writes: { Self → ℕ };

    ghost tells_stops: { Self → Type 0 } = { λ _. ⊥ };

    ghost moment: { Self → ℕ } = { λ _. 0 };

    ghost may_leave: { Self → ℕ → List ℕ → Type 0 } = { λ _ _ _. Unit {0} };

    ghost left_since: { Self → ℕ → Image → Type 0 } = { λ _ _ _. Unit {0} };

    /// How many reads have failed.
    fn faults(&self) -> u64
        ensures count { result ≡ faults self.now };

    /// How many blocks the disk has.
    fn blocks(&mut self) -> Result<u64, Failed>
        ensures count { IfOk result (λ n. n ≡ size self.old) }
        ensures size { size self.new ≡ size self.old }
        ensures holds { holds self.new ≡ holds self.old }
        ensures cause { HasCause (faults self.old) (faults self.new) result }
        ensures write_faults { write_faults self.new ≡ write_faults self.old }
        ensures reads { reads self.new ≡ reads self.old }
        ensures writes { writes self.new ≡ writes self.old }
        ensures stops { tells_stops self.old → (b : ℕ) (v : List ℕ) → may_leave self.new b v → may_leave self.old b v }
        ensures past { tells_stops self.old → GoesOn (moment self.old) (moment self.new) (left_since self.old) (left_since self.new) }
        ensures tells { tells_stops self.old → tells_stops self.new };

    /// Reads the block of number `at`.
    fn read(&mut self, at: u64, into: &mut [u8]) -> Result<(), Failed>
        requires inside { at < size self.old }
        requires whole { length into.old ≡ 4096 }
        ensures bytes { OnOk result (ForSome (holds self.old) (λ image. slice_get image at ≡ Some into.new)) }
        ensures size { size self.new ≡ size self.old }
        ensures holds { holds self.new ≡ holds self.old }
        ensures cause { HasCause (faults self.old) (faults self.new) result }
        ensures write_faults { write_faults self.new ≡ write_faults self.old }
        ensures reads { CountsDone (reads self.old) (reads self.new) result }
        ensures writes { writes self.new ≡ writes self.old }
        ensures stops { tells_stops self.old → (b : ℕ) (v : List ℕ) → may_leave self.new b v → may_leave self.old b v }
        ensures past { tells_stops self.old → GoesOn (moment self.old) (moment self.new) (left_since self.old) (left_since self.new) }
        ensures tells { tells_stops self.old → tells_stops self.new };

    /// Reads the blocks from number `at` on, one behind the other, as many as `into` has room for. A disk that has no shorter way
    /// reads them one by one.
    fn read_run(&mut self, at: u64, into: &mut [u8]) -> Result<(), Failed>
        requires inside { at + length into.old / 4096 ≤ size self.old }
        requires whole { length into.old % 4096 ≡ 0 }
        requires numbers { at + length into.old / 4096 ≤ 2 ^ 64 }
        ensures bytes { OnOk result (ForSome (holds self.old) (λ image. AreBlocksFrom image at (length into.old / 4096) into.new)) }
        ensures size { size self.new ≡ size self.old }
        ensures holds { holds self.new ≡ holds self.old }
        ensures cause { HasCause (faults self.old) (faults self.new) result }
        ensures write_faults { write_faults self.new ≡ write_faults self.old }
        ensures reads { reads self.new ≤ reads self.old + length into.old / 4096 }
        ensures counted { OnOk result (reads self.new ≡ raised_times (length into.old / 4096) (reads self.old)) }
        ensures writes { writes self.new ≡ writes self.old }
        ensures stops { tells_stops self.old → (b : ℕ) (v : List ℕ) → may_leave self.new b v → may_leave self.old b v }
        ensures past { tells_stops self.old → GoesOn (moment self.old) (moment self.new) (left_since self.old) (left_since self.new) }
        ensures tells { tells_stops self.old → tells_stops self.new }
    {
        for i in 0..into.len() / BLOCK_SIZE {
            let start = i * BLOCK_SIZE;
            match self.read(at + i as u64, &mut into[start..start + BLOCK_SIZE]) {
                Ok(()) => {}
                Err(Failed) => return Err(Failed),
            }
        }
        Ok(())
    }

    /// Reads the first bytes of the block of number `at`, as many as `into` has.
    fn read_front(&mut self, at: u64, into: &mut [u8]) -> Result<(), Failed>
        requires inside { at < size self.old }
        requires part { length into.old ≤ 4096 }
        ensures bytes { OnOk result (ForSome (holds self.old) (λ image. into.new ≡ take (length into.old) (bytes_of_block image at))) }
        ensures size { size self.new ≡ size self.old }
        ensures holds { holds self.new ≡ holds self.old }
        ensures cause { HasCause (faults self.old) (faults self.new) result }
        ensures write_faults { write_faults self.new ≡ write_faults self.old }
        ensures reads { CountsDone (reads self.old) (reads self.new) result }
        ensures writes { writes self.new ≡ writes self.old }
        ensures stops { tells_stops self.old → (b : ℕ) (v : List ℕ) → may_leave self.new b v → may_leave self.old b v }
        ensures past { tells_stops self.old → GoesOn (moment self.old) (moment self.new) (left_since self.old) (left_since self.new) }
        ensures tells { tells_stops self.old → tells_stops self.new }
    {
        let mut block = [0; BLOCK_SIZE];
        match self.read(at, &mut block) {
            Ok(()) => {
                into.copy_from_slice(&block[..into.len()]);
                Ok(())
            }
            Err(Failed) => Err(Failed),
        }
    }

    /// Writes the block of number `at`. After `Failed` it is old or new.
    fn write(&mut self, at: u64, from: &[u8]) -> Result<(), Failed>
        requires inside { at < size self.old }
        requires whole { length from.now ≡ 4096 }
        ensures written { OnOk result (ForSome (holds self.old) (λ image. holds self.new ≡ Some (slice_set image at from.now))) }
        ensures old_or_new { OnErr result (ForSome (holds self.old) (λ image.
            (holds self.new ≡ Some image) ⊎ (holds self.new ≡ Some (slice_set image at from.now)))) }
        ensures size { size self.new ≡ size self.old }
        ensures faults { faults self.new ≡ faults self.old }
        ensures cause { HasCause (write_faults self.old) (write_faults self.new) result }
        ensures reads { reads self.new ≡ reads self.old }
        ensures writes { CountsDone (writes self.old) (writes self.new) result }
        ensures stops { tells_stops self.old → (b : ℕ) (v : List ℕ) → may_leave self.new b v → may_leave self.old b v ⊎ ((b ≡ at) × (v ≡ from.now)) }
        ensures time { tells_stops self.old → Elapses (moment self.old) (moment self.new) (left_since self.old) (left_since self.new) (EachOf (may_leave self.new)) }
        ensures tells { tells_stops self.old → tells_stops self.new };

    /// Waits until a stop leaves just what the disk holds.
    fn sync(&mut self) -> Result<(), Failed>
        ensures size { size self.new ≡ size self.old }
        ensures holds { holds self.new ≡ holds self.old }
        ensures faults { faults self.new ≡ faults self.old }
        ensures cause { HasCause (write_faults self.old) (write_faults self.new) result }
        ensures reads { reads self.new ≡ reads self.old }
        ensures writes { writes self.new ≡ writes self.old }
        ensures kept { OnOk result (tells_stops self.old → ForSome (holds self.old) (λ image.
            (b : ℕ) (v : List ℕ) → may_leave self.new b v → slice_get image b ≡ Some v)) }
        ensures stops { tells_stops self.old → (b : ℕ) (v : List ℕ) → may_leave self.new b v → may_leave self.old b v }
        ensures past { tells_stops self.old → GoesOn (moment self.old) (moment self.new) (left_since self.old) (left_since self.new) }
        ensures tells { tells_stops self.old → tells_stops self.new };

    // What the disk holds has its number of blocks, each whole.
    ghost shape: { (disk : Self) → ForSome (holds disk) (IsImage (size disk)) };

    // What a stop may leave now counts from each earlier moment on.
    ghost counts_now: { (disk : Self) (t : ℕ) (image : Image) → tells_stops disk → t ≤ moment disk → EachOf (may_leave disk) image → left_since disk t image };

    // A stop from this moment on leaves what a stop may leave now.
    ghost only_now: { (disk : Self) (image : Image) → tells_stops disk → left_since disk (moment disk) image → EachOf (may_leave disk) image };
}
