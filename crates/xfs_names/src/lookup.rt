//! Files by number.

ghost use Rattle.std.specs.Prelude.{◌≡◌};
ghost use Rattle.xfs_links.specs.Entries.{NodesAscend, is_kept_node, is_directory_number};
ghost use Rattle.xfs_names.specs.Wanted.{kind_at};

use xfs_links::{DIRECTORY, NodeRec};

/// The kind of the file with a number; 0 where there is none. `near` is a place at which the file may stand, and then the one
/// behind it: what is asked for by ascending numbers is found so, without a search.
pub fn kind_near(nodes: &[NodeRec], near: &mut usize, ino: u64) -> u8
    requires { NodesAscend 0 nodes.now }
    ensures { result ≡ kind_at nodes.now ino }
{
    let place = *near;
    if place < nodes.len() && nodes[place].ino == ino {
        *near = place + 1;
        return nodes[place].kind;
    }
    match nodes.binary_search_by_key(&ino, |node| node.ino) {
        Ok(place) => {
            *near = place.wrapping_add(1);
            nodes[place].kind
        }
        Err(_) => 0,
    }
}

/// Whether a file has the number.
pub fn is_kept(nodes: &[NodeRec], ino: u64) -> bool
    requires { NodesAscend 0 nodes.now }
    ensures { result ≡ is_kept_node nodes.now ino }
{
    match nodes.binary_search_by_key(&ino, |node| node.ino) {
        Ok(_) => true,
        Err(_) => false,
    }
}

/// Whether the file with a number is a directory. `near` is a place at which it may stand, and then the one behind it.
pub fn is_directory_near(nodes: &[NodeRec], near: &mut usize, ino: u64) -> bool
    requires { NodesAscend 0 nodes.now }
    ensures { result ≡ is_directory_number nodes.now ino }
{
    kind_near(nodes, near, ino) == DIRECTORY
}
