//! Files that have their bytes by one name: these are held once.

ghost use Rattle.std.specs.Prelude.{◌≡◌, ◌<◌, ◌≤◌, length, IfOk, MatchOption};
ghost use Rattle.xfs_mkfs.specs.Sharing.{IsContentBefore, have_one_name, is_so_named};

use std::alloc::Global;
use std::collections::BTreeMap;
use xfs_disk::{NoMemory, Word};
use xfs_filled::Content;
use xfs_proto::{ProtoKind, ProtoNode};

/// Of each file the place of the first that has its bytes by the same name: its own, where no file before it has.
pub fn list_firsts(alloc: Global, nodes: &[ProtoNode]) -> Result<Vec<usize>, NoMemory>
    ensures { IfOk result (λ firsts. length firsts.items ≡ length nodes.now) }
{
    let mut places = BTreeMap::new(alloc);
    let mut firsts = Vec::new(alloc);
    for k in 0..nodes.len() {
        let first = first_of(&mut places, &nodes[k].kind, k)?;
        firsts.push(first)?;
    }
    Ok(firsts)
}

/// The place at which the name of a file stands, where it stands, and else the file's own.
fn first_of<'a>(
    places: &mut BTreeMap<&'a [u8], usize>,
    kind: &'a ProtoKind,
    k: usize,
) -> Result<usize, NoMemory> {
    let ProtoKind::Regular { name, .. } = kind else {
        return Ok(k);
    };
    let first = places.entry(name.bytes())?.or_insert(k);
    Ok(*first)
}

/// The bytes of the file at a place, where the file at another has them by the same name, and they were read.
pub fn content_before(
    nodes: &[ProtoNode],
    contents: &[Content],
    k: usize,
    first: usize,
) -> Result<Option<Content>, NoMemory>
    requires inside { k < length nodes.now }
    requires few { length contents.now ≤ length nodes.now }
    ensures { IfOk result (λ found. MatchOption found (Unit {0}) (IsContentBefore nodes.now contents.now k)) }
{
    if first >= contents.len() {
        return Ok(None);
    }
    if !have_one_name(&nodes[first].kind, &nodes[k].kind) {
        return Ok(None);
    }
    let bytes = contents[first].share()?;
    Ok(Some(bytes))
}

/// Whether two files have their bytes by one name.
fn have_one_name(one: &ProtoKind, other: &ProtoKind) -> bool
    ensures { result ≡ have_one_name one.now other.now }
{
    match one {
        ProtoKind::Regular { name, .. } => is_so_named(other, name),
        _ => false,
    }
}

/// Whether a file has its bytes by this name.
fn is_so_named(kind: &ProtoKind, name: &Word) -> bool
    ensures { result ≡ is_so_named kind.now name.now }
{
    match kind {
        ProtoKind::Regular { name: own, .. } => own.bytes() == name.bytes(),
        _ => false,
    }
}
