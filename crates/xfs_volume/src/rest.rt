//! What most files have nothing of: attributes, a tree of extents, a symbolic link's target, a device's number.

ghost use Rattle.std.specs.Prelude.{◌≡◌, [], IfOk, IsTrue};
ghost use Rattle.xfs_volume.specs.Rest.{no_rest, parts_of};

use std::alloc::{AllocError, Global};
use std::marker::Model;
use xfs_attr::Attr;
use xfs_word::Extent;

/// What most files have nothing of. Where a file has none of it, it takes 16 bytes and no memory of its own.
#[derive(Debug, Drop)]
pub struct Rest {
    parts: Option<Box<Parts>>,
}

/// What of it a file has.
#[derive(Debug, Drop)]
struct Parts {
    /// The extents of its attributes, in the order of the attribute fork.
    attr_extents: Vec<Extent>,
    /// The block numbers of its tree of extents, level by level, each from the left.
    tree: Vec<u64>,
    attrs: Vec<Attr>,
    /// The target of a symbolic link; empty for another file.
    target: Vec<u8>,
    /// The number of a device: its major number in the upper 14 bits, its minor number in the lower 18; 0 for
    /// another file.
    device: u32,
}

impl Model for Rest {
    ghost use Rattle.xfs_volume.specs.Rest.{RestOf, rest_of};

    ghost Value = { RestOf };

    ghost view = { λ rest. rest_of rest.parts };
}

impl Rest {
    /// What a file has that has none of it.
    pub fn none() -> Rest
        ensures { result ≡ no_rest }
    {
        Rest { parts: None }
    }

    /// These extents of the attributes, blocks of the tree of extents, attributes, this target and this number of a device.
    pub fn new(
        alloc: Global,
        attr_extents: Vec<Extent>,
        tree: Vec<u64>,
        attrs: Vec<Attr>,
        target: Vec<u8>,
        device: u32,
    ) -> Result<Rest, AllocError>
        ensures { IfOk result (λ rest. rest ≡ record { attr_extents = attr_extents.items; tree = tree.items; attrs = attrs.items; target = target.items; device = device }) }
    {
        let parts = Parts {
            attr_extents,
            tree,
            attrs,
            target,
            device,
        };
        if parts.is_none() {
            return Ok(Rest::none());
        }
        Ok(Rest {
            parts: Some(Box::new(alloc, parts)?),
        })
    }

    /// The extents of the attributes, in the order of the attribute fork.
    pub fn attr_extents(&self) -> &[Extent]
        ensures { result.now ≡ self.now.attr_extents }
    {
        match &self.parts {
            Some(parts) => parts.attr_extents.as_slice(),
            None => &[],
        }
    }

    /// The block numbers of the tree of extents, level by level, each from the left.
    pub fn tree(&self) -> &[u64]
        ensures { result.now ≡ self.now.tree }
    {
        match &self.parts {
            Some(parts) => parts.tree.as_slice(),
            None => &[],
        }
    }

    /// The attributes.
    pub fn attrs(&self) -> &[Attr]
        ensures { result.now ≡ self.now.attrs }
    {
        match &self.parts {
            Some(parts) => parts.attrs.as_slice(),
            None => &[],
        }
    }

    /// The target of a symbolic link; empty for another file.
    pub fn target(&self) -> &[u8]
        ensures { result.now ≡ self.now.target }
    {
        match &self.parts {
            Some(parts) => parts.target.as_slice(),
            None => &[],
        }
    }

    /// The number of a device: its major number in the upper 14 bits, its minor number in the lower 18; 0 for another file.
    pub fn device(&self) -> u32
        ensures { result ≡ self.now.device }
    {
        match &self.parts {
            Some(parts) => parts.device,
            None => 0,
        }
    }

    /// Has the file give up the blocks of its tree.
    pub fn clear_tree(&mut self)
        ensures { self.new ≡ record self.old { tree = [] } }
    {
        match &mut self.parts {
            Some(parts) => parts.tree.clear(),
            None => {}
        }
    }
}

impl Parts {
    /// Whether a file with these parts has none of what most files have nothing of.
    fn is_none(&self) -> bool
        ensures { IsTrue result → parts_of self.now ≡ no_rest }
    {
        self.attr_extents.is_empty()
            && self.tree.is_empty()
            && self.attrs.is_empty()
            && self.target.is_empty()
            && self.device == 0
    }
}
