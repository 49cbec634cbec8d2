//! The candidates: the entries that can name their files, of equal names in a directory the first.

ghost use Rattle.std.specs.Prelude.{◌≡◌, ℕ, ◌<◌, ◌+◌, ◌^◌, ◌==◌, ◌||◌, true, false, map, length, IfOk, MatchOption};
ghost use Rattle.std.specs.List.{All};
ghost use Rattle.xfs_links.specs.Entries.{AreFiles, is_kept_node, is_reserved_inode, passes, candidate_entries};
ghost use Rattle.xfs_links.specs.Places.{candidate_entry, IsPlacedCandidate, IsPlacedAt};

use crate::lookup::place_near;
use crate::met::MetNames;
use crate::records::NodeRec;
use std::alloc::Global;
use xfs_dirdata::EntryRec;
use xfs_disk::NoMemory;
use xfs_volume::is_name;

/// An entry that can name its file.
#[derive(Clone, Copy)]
pub struct Candidate {
    /// Its place among the entries.
    pub entry: usize,
    /// The place of its directory among the files.
    pub directory: u32,
    /// The place of the file that it names.
    pub target: u32,
}

/// The candidates among the entries, in their order.
pub fn find_candidates(
    alloc: Global,
    files: &[NodeRec],
    entries: &[EntryRec],
    root: u64,
) -> Result<Vec<Candidate>, NoMemory>
    requires files { AreFiles files.now }
    requires known { All (λ e. is_kept_node files.now e.dir ≡ true) entries.now }
    requires root { root < 2 ^ 32 }
    ensures list { IfOk result (λ found. map (candidate_entry entries.now) found.items ≡ candidate_entries files.now root entries.now) }
    ensures placed { IfOk result (λ found. All (IsPlacedCandidate files.now entries.now) found.items) }
{
    let mut met = MetNames::new(alloc);
    let mut found = Vec::new(alloc);
    let mut last = Candidate {
        entry: 0,
        directory: 0,
        target: 0,
    };
    for (i, entry) in entries.iter().enumerate() {
        let Some(candidate) = candidate_of(files, &last, entry, i, root) else {
            continue;
        };
        last = candidate;
        if !met.add(entry.dir, entry.name.bytes())? {
            continue;
        }
        found.push(candidate)?;
    }
    Ok(found)
}

/// The entry as a candidate, where it can name its file. Its directory may be that of the last candidate, and the file stand
/// behind that which that one names.
fn candidate_of(
    files: &[NodeRec],
    last: &Candidate,
    entry: &EntryRec,
    i: usize,
    root: u64,
) -> Option<Candidate>
    requires files { AreFiles files.now }
    requires known { is_kept_node files.now entry.now.dir ≡ true }
    requires root { root < 2 ^ 32 }
    ensures { MatchOption result (passes files.now root entry.now ≡ false) (λ c. (passes files.now root entry.now ≡ true) × IsPlacedAt files.now entry.now i c) }
{
    if !is_name(entry.name.bytes()) || is_reserved_inode(root, entry.ino) {
        return None;
    }
    let target = place_near(files, last.target as usize + 1, entry.ino)?;
    let directory = place_near(files, last.directory as usize, entry.dir)?;
    Some(Candidate {
        entry: i,
        directory,
        target,
    })
}

/// Whether the number is the root's, or that of a system inode.
pub fn is_reserved_inode(root: u64, ino: u64) -> bool
    requires { root < 2 ^ 32 }
    ensures { result ≡ is_reserved_inode root ino }
{
    ino == root || ino == root + 1 || ino == root + 2
}
