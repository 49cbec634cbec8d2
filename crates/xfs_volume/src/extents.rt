//! The extents of a file.

ghost use Rattle.std.specs.Prelude.{◌≡◌, ◌++◌, [], ◌∷◌, IfOk, OnOk};
ghost use Rattle.xfs_volume.specs.Extents.{extents_of};

use std::alloc::{AllocError, Global};
use std::marker::Model;
use std::slice;
use xfs_word::Extent;

/// The extents of a file, in file order, which contracts see as their list. Most files have one: it stands in the list itself, and
/// takes no memory of its own. A list of several stands apart, so that each file's record has room for one extent and no more.
#[derive(Debug, Drop)]
pub struct Extents {
    held: Held,
}

/// What a list of extents holds. A list that is made with room for several is one of `Several` from the first on.
#[derive(Debug, Drop)]
enum Held {
    Nothing,
    One(Extent),
    Several(Box<Vec<Extent>>),
}

impl Model for Extents {
    ghost use Rattle.std.specs.Prelude.{List};
    ghost use Rattle.xfs_word.specs.declared.extents.Extent.{Extent};
    ghost use Rattle.xfs_volume.specs.Extents.{extents_of};

    ghost Value = { List Extent };

    ghost view = { λ list. extents_of list.held };
}

impl Extents {
    /// No extent.
    pub fn new() -> Extents
        ensures { result ≡ [] }
    {
        Extents {
            held: Held::Nothing,
        }
    }

    /// No extent, with room for so many.
    pub fn with_capacity(alloc: Global, count: usize) -> Result<Extents, AllocError>
        ensures { IfOk result (λ extents. extents ≡ []) }
    {
        if count < 2 {
            return Ok(Extents::new());
        }
        Extents::several(alloc, Vec::with_capacity(alloc, count)?)
    }

    /// The list of these extents.
    pub fn from_vec(alloc: Global, items: Vec<Extent>) -> Result<Extents, AllocError>
        ensures { IfOk result (λ extents. extents ≡ items.items) }
    {
        match items.as_slice() {
            [] => Ok(Extents::new()),
            [extent] => Ok(Extents::one(*extent)),
            _ => Extents::several(alloc, items),
        }
    }

    /// The list of a copy of these extents.
    pub fn from_slice(alloc: Global, items: &[Extent]) -> Result<Extents, AllocError>
        ensures { IfOk result (λ extents. extents ≡ items.now) }
    {
        match items {
            [] => Ok(Extents::new()),
            [extent] => Ok(Extents::one(*extent)),
            _ => Extents::several(alloc, Vec::from_slice(alloc, items)?),
        }
    }

    /// Adds an extent behind the others.
    pub fn push(&mut self, alloc: Global, extent: Extent) -> Result<(), AllocError>
        ensures { OnOk result (self.new ≡ self.old ++ extent ∷ []) }
    {
        self.held.push(alloc, extent)?;
        Ok(())
    }

    /// The extents of the list.
    pub fn as_slice(&self) -> &[Extent]
        ensures { result.now ≡ self.now }
    {
        match &self.held {
            Held::Nothing => &[],
            Held::One(extent) => slice::from_ref(extent),
            Held::Several(list) => list.as_slice(),
        }
    }

    /// The list of this extent.
    fn one(extent: Extent) -> Extents
        ensures { result ≡ extent ∷ [] }
    {
        Extents {
            held: Held::One(extent),
        }
    }

    /// The list of these extents, put apart.
    fn several(alloc: Global, items: Vec<Extent>) -> Result<Extents, AllocError>
        ensures { IfOk result (λ extents. extents ≡ items.items) }
    {
        Ok(Extents {
            held: Held::Several(Box::new(alloc, items)?),
        })
    }
}

impl Held {
    /// Adds an extent behind the others.
    fn push(&mut self, alloc: Global, extent: Extent) -> Result<(), AllocError>
        ensures { OnOk result (extents_of self.new ≡ extents_of self.old ++ extent ∷ []) }
    {
        match self {
            Held::Nothing => *self = Held::One(extent),
            Held::One(first) => *self = Held::two(alloc, *first, extent)?,
            Held::Several(list) => list.push(extent)?,
        }
        Ok(())
    }

    /// Two extents.
    fn two(alloc: Global, first: Extent, second: Extent) -> Result<Held, AllocError>
        ensures { IfOk result (λ held. extents_of held ≡ first ∷ second ∷ []) }
    {
        let items = vec![in alloc; first, second]?;
        Ok(Held::Several(Box::new(alloc, items)?))
    }
}
