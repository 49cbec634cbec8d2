//! The weave: doubly linked lists of nodes.

ghost use Rattle.std.specs.Prelude.{◌≡◌, ℕ, ◌<◌, List, [], ◌∷◌, length, drop, reverse, replicate, IfOk, MatchOption, IfSome, None, true, slice_get};
ghost use Rattle.xfs_collections.specs.Lists.{Woven, has_node, next_behind, list_at, with_list, IsOn, IsFree, put_last, taken_off, ListsApart};

use crate::links::{NodeLink, end_of, node_at, put_in_front, take_off};
use std::alloc::Global;
use std::marker::Model;
use xfs_disk::NoMemory;

/// Lists of nodes, each node on one list at most. Nodes and lists are numbered from 0. Each call but
/// `make` takes the same few steps however long the lists are, and no memory.
#[derive(Drop)]
pub struct Weave {
    nodes: u32,
    lists: u32,
    /// A link for each node, and behind these the end of each list, which ties its last node to its first.
    links: Vec<NodeLink>,
}

impl Model for Weave {
    ghost use Rattle.xfs_collections.specs.Lists.{Woven};
    ghost use Rattle.xfs_collections.specs.Links.{woven_of, AreWoven};

    ghost Value = { Woven };

    ghost view = { λ w. woven_of w.nodes w.lists w.links.items };

    ghost invariant = { λ w. AreWoven w.nodes w.lists w.links.items };
}

impl Weave {
    /// A weave of so many nodes, all of them on no list, and so many lists.
    pub fn make(alloc: Global, nodes: u32, lists: u32) -> Result<Weave, NoMemory>
        ensures nodes { IfOk result (λ weave. weave.nodes ≡ nodes) }
        ensures lists { IfOk result (λ weave. weave.lists ≡ replicate lists []) }
    {
        let count = nodes as usize + lists as usize;
        let mut links = Vec::with_capacity(alloc, count)?;
        for end in 0..count {
            links.push(NodeLink {
                after: end,
                before: end,
                list: None,
            })?;
        }
        Ok(Weave {
            nodes,
            lists,
            links,
        })
    }

    /// Puts a node that is on no list behind the last one of a list.
    pub fn push_back(&mut self, list: u32, node: u32)
        requires list { list < length self.old.lists }
        requires node { node < self.old.nodes }
        requires free { IsFree self.old node }
        ensures put { self.new ≡ put_last self.old list node }
    {
        let end = end_of(self.nodes, list);
        put_in_front(&mut self.links, end, node as usize, list);
    }

    /// Takes the first node off a list; `None` where the list is empty.
    pub fn pop_front(&mut self, list: u32) -> Option<u32>
        requires list { list < length self.old.lists }
        ensures first { result ≡ slice_get (list_at self.old list) 0 }
        ensures rest { self.new ≡ with_list self.old list (drop 1 (list_at self.old list)) }
        ensures inside { IfSome result (λ node. node < self.old.nodes) }
    {
        let node = self.first(list)?;
        self.unlink(node);
        Some(node)
    }

    /// Takes a node off its list.
    pub fn unlink(&mut self, node: u32)
        requires node { node < self.old.nodes }
        requires listed { (l : ℕ) × IsOn self.old l node }
        ensures off { self.new ≡ taken_off self.old node }
    {
        take_off(&mut self.links, node as usize);
    }

    /// Takes a node off its list, if it is on one, and puts it behind the last node of a list.
    pub fn move_to(&mut self, list: u32, node: u32)
        requires list { list < length self.old.lists }
        requires node { node < self.old.nodes }
        ensures moved { self.new ≡ put_last (taken_off self.old node) list node }
    {
        if self.list_of(node).is_some() {
            self.unlink(node);
        }
        self.push_back(list, node);
    }

    /// The list that a node is on.
    pub fn list_of(&self, node: u32) -> Option<u32>
        requires node { node < self.now.nodes }
        ensures list { MatchOption result (IsFree self.now node) (λ list. IsOn self.now list node) }
        ensures apart { ListsApart self.now }
    {
        self.links[node as usize].list
    }

    /// The first node of a list.
    pub fn first(&self, list: u32) -> Option<u32>
        requires list { list < length self.now.lists }
        ensures first { result ≡ slice_get (list_at self.now list) 0 }
        ensures inside { IfSome result (λ node. node < self.now.nodes) }
        ensures apart { ListsApart self.now }
    {
        let end = end_of(self.nodes, list);
        node_at(self.nodes, self.links[end].after)
    }

    /// The node behind a node on its list; `None` too where it is on no list.
    pub fn next(&self, node: u32) -> Option<u32>
        requires node { node < self.now.nodes }
        ensures listed { (l : ℕ) → IsOn self.now l node → result ≡ next_behind node (list_at self.now l) }
        ensures free { IsFree self.now node → result ≡ None }
    {
        let link = self.links[node as usize];
        if link.list.is_none() {
            return None;
        }
        node_at(self.nodes, link.after)
    }

    /// The node in front of a node on its list; `None` too where it is on no list.
    pub fn prev(&self, node: u32) -> Option<u32>
        requires node { node < self.now.nodes }
        ensures listed { (l : ℕ) → IsOn self.now l node → result ≡ next_behind node (reverse (list_at self.now l)) }
        ensures free { IsFree self.now node → result ≡ None }
    {
        let link = self.links[node as usize];
        if link.list.is_none() {
            return None;
        }
        node_at(self.nodes, link.before)
    }
}
