//! The walk from the root over the entries.

ghost use Rattle.std.specs.Prelude.{◌≡◌, ◌==◌, OnOk, IfOk};
ghost use Rattle.std.specs.List.{list_any};
ghost use Rattle.xfs_dirdata.specs.declared.records.EntryRec.{EntryRec};
ghost use Rattle.xfs_naming.specs.Naming.{AreNamed};
ghost use Rattle.xfs_naming.specs.Ordered.{IsOrdered, IsWalked, HasShortWays};
ghost use Rattle.xfs_naming.specs.Private.Walking.{HasMarked};

use crate::lookups::is_directory_at;
use crate::naming::Names;
use crate::reached::reach;
use crate::runs::records_by_number;
use std::alloc::Global;
use std::collections::BTreeSet;
use xfs_dirdata::EntryRec;
use xfs_disk::NoMemory;

/// Marks a number as reached where it is a directory's; one that was not reached before waits.
fn mark(
    names: &Names,
    near: &mut usize,
    ino: u64,
    reached: &mut BTreeSet<u64>,
    waiting: &mut Vec<u64>,
) -> Result<(), NoMemory>
    requires { IsOrdered names.now }
    ensures { OnOk result (HasMarked names.now.files.now (λ x. ino == x) reached.old.keys reached.new.keys waiting.old.items waiting.new.items) }
{
    if !is_directory_at(names, near, ino) {
        return Ok(());
    }
    if reach(reached, ino)? {
        waiting.push(ino)?;
    }
    Ok(())
}

/// Marks what these entries name.
fn mark_named(
    names: &Names,
    own: &[EntryRec],
    reached: &mut BTreeSet<u64>,
    waiting: &mut Vec<u64>,
) -> Result<(), NoMemory>
    requires { IsOrdered names.now }
    ensures { OnOk result (HasMarked names.now.files.now (λ x. list_any (λ (e : EntryRec). e.ino == x) own.now) reached.old.keys reached.new.keys waiting.old.items waiting.new.items) }
{
    let mut near = 0;
    for entry in own {
        mark(names, &mut near, entry.ino, reached, waiting)?;
    }
    Ok(())
}

/// The directories that are reached from the root; the root is one of them even where it is none.
pub fn walk(alloc: Global, names: &Names) -> Result<BTreeSet<u64>, NoMemory>
    requires ordered { IsOrdered names.now }
    requires named { AreNamed names.now.files.now names.now.entries.now names.now.dirs.now }
    ensures walked { IfOk result (λ reached. IsWalked names.now reached.keys) }
    ensures ways { IfOk result (λ _. HasShortWays names.now) }
{
    let mut reached = BTreeSet::new(alloc);
    let mut waiting = Vec::new(alloc);
    reach(&mut reached, names.root)?;
    waiting.push(names.root)?;
    while let Some(dir) = waiting.pop() {
        mark_named(
            names,
            records_by_number(names.entries, dir),
            &mut reached,
            &mut waiting,
        )?;
    }
    Ok(reached)
}
