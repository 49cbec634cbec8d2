//! Whether files and entries are listed as `connect` wants them.

ghost use Rattle.std.specs.Prelude.{◌≡◌, ◌<◌, ◌^◌, true, IsTrue};
ghost use Rattle.std.specs.List.{All};
ghost use Rattle.xfs_links.specs.Entries.{AreFiles, AreEntries, NodesAscend, DirectoriesAscend, is_directory_number};

use xfs_dirdata::EntryRec;
use xfs_links::NodeRec;

const LIMIT: u64 = 1 << 32;

pub fn are_listed(files: &[NodeRec], entries: &[EntryRec], root: u64) -> bool
    ensures files { IsTrue result → AreFiles files.now }
    ensures entries { IsTrue result → AreEntries files.now entries.now }
    ensures root { IsTrue result → is_directory_number files.now root ≡ true }
{
    if files.len() as u64 >= LIMIT || !ascend(files) || !are_low(files) {
        return false;
    }
    if !are_grouped(entries) || !are_known(files, entries) {
        return false;
    }
    is_known(files, root)
}

fn is_known(files: &[NodeRec], ino: u64) -> bool
    ensures { result ≡ is_directory_number files.now ino }
{
    files.iter().any(|file| file.ino == ino && file.kind == 4)
}

fn ascend(files: &[NodeRec]) -> bool
    ensures { IsTrue result → NodesAscend 0 files.now }
{
    let mut low = 0;
    for file in files {
        if file.ino < low || file.ino >= LIMIT {
            return false;
        }
        low = file.ino + 1;
    }
    true
}

fn are_low(files: &[NodeRec]) -> bool
    ensures { IsTrue result → All (λ f. f.ino < 2 ^ 32) files.now }
{
    files.iter().all(|file| file.ino < LIMIT)
}

fn are_grouped(entries: &[EntryRec]) -> bool
    ensures { IsTrue result → DirectoriesAscend 0 entries.now }
{
    let mut low = 0;
    for entry in entries {
        if entry.dir < low {
            return false;
        }
        low = entry.dir;
    }
    true
}

fn are_known(files: &[NodeRec], entries: &[EntryRec]) -> bool
    ensures { IsTrue result → All (λ e. is_directory_number files.now e.dir ≡ true) entries.now }
{
    for entry in entries {
        if !is_known(files, entry.dir) {
            return false;
        }
    }
    true
}
