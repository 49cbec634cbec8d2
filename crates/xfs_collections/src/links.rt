//! Links: what stands behind and in front of each node and of each list's end.

ghost use Rattle.std.specs.Prelude.{◌≡◌, ℕ, ◌==◌, ◌<◌, ◌+◌, nat_lt, cond, if◌then◌else◌, length, Option, Some, None};
ghost use Rattle.xfs_collections.specs.Links.{after_of, before_of, list_of};

/// A node or the end of a list.
#[derive(Clone, Copy)]
pub struct NodeLink {
    /// The link behind it.
    pub after: usize,
    /// The link in front of it.
    pub before: usize,
    /// The list that the node is on.
    pub list: Option<u32>,
}

/// Ties the links on both sides of a node to each other, and notes that the node is on no list.
pub fn take_off(links: &mut [NodeLink], node: usize)
    requires node { node < length links.old }
    requires ahead { after_of links.old node < length links.old }
    requires back { before_of links.old node < length links.old }
    ensures after { (k : ℕ) → after_of links.new k ≡ cond (k == before_of links.old node) (after_of links.old node) (after_of links.old k) }
    ensures before { (k : ℕ) → before_of links.new k ≡ cond (k == after_of links.old node) (before_of links.old node) (before_of links.old k) }
    ensures list { (k : ℕ) → list_of links.new k ≡ cond (k == node) None (list_of links.old k) }
    ensures size { length links.new ≡ length links.old }
{
    let NodeLink { after, before, .. } = links[node];
    tie(links, before, after);
    note(links, node, None);
}

/// Ties a node in between a list's end and the link in front of it.
pub fn put_in_front(links: &mut [NodeLink], end: usize, node: usize, list: u32)
    requires end { end < length links.old }
    requires node { node < length links.old }
    requires back { before_of links.old end < length links.old }
    ensures after { (k : ℕ) → after_of links.new k ≡ cond (k == node) end (cond (k == before_of links.old end) node (after_of links.old k)) }
    ensures before { (k : ℕ) → before_of links.new k ≡ cond (k == end) node (cond (k == node) (before_of links.old end) (before_of links.old k)) }
    ensures list { (k : ℕ) → list_of links.new k ≡ cond (k == node) (Some list) (list_of links.old k) }
    ensures size { length links.new ≡ length links.old }
{
    let last = links[end].before;
    tie(links, last, node);
    tie(links, node, end);
    note(links, node, Some(list));
}

/// Puts link `back` behind link `front`.
fn tie(links: &mut [NodeLink], front: usize, back: usize)
    requires front { front < length links.old }
    requires back { back < length links.old }
    ensures after { (k : ℕ) → after_of links.new k ≡ cond (k == front) back (after_of links.old k) }
    ensures before { (k : ℕ) → before_of links.new k ≡ cond (k == back) front (before_of links.old k) }
    ensures list { (k : ℕ) → list_of links.new k ≡ list_of links.old k }
    ensures size { length links.new ≡ length links.old }
{
    let link = &mut links[front];
    link.after = back;
    let link = &mut links[back];
    link.before = front;
}

/// Notes the list that a node is on.
fn note(links: &mut [NodeLink], node: usize, list: Option<u32>)
    requires inside { node < length links.old }
    ensures after { (k : ℕ) → after_of links.new k ≡ after_of links.old k }
    ensures before { (k : ℕ) → before_of links.new k ≡ before_of links.old k }
    ensures list { (k : ℕ) → list_of links.new k ≡ cond (k == node) list (list_of links.old k) }
    ensures size { length links.new ≡ length links.old }
{
    let link = &mut links[node];
    link.list = list;
}

/// The end of a list, behind the links of the nodes.
pub fn end_of(nodes: u32, list: u32) -> usize
    ensures { result ≡ nodes + list }
{
    nodes as usize + list as usize
}

/// The node whose link this is; `None` for the end of a list.
pub fn node_at(nodes: u32, link: usize) -> Option<u32>
    ensures { result ≡ (if nat_lt link nodes then Some link else None) }
{
    if link < nodes as usize {
        Some(link as u32)
    } else {
        None
    }
}
