//! Where the trees of a group begin, by its headers.

use crate::heads::Heads;
use xfs_kinds::{Bno, Cnt, Fino, Ino, Rmap};

/// The root of a tree, an AG block, and how many levels the tree has.
#[derive(Clone, Copy)]
pub(crate) struct Root {
    pub block: u32,
    pub levels: u32,
}

/// A kind of tree of which each group has one.
pub(crate) trait GroupKind: Sized {
    ghost use Rattle.std.specs.Prelude.{◌≡◌, ℕ, Option};
    ghost use Rattle.xfs_groups.specs.declared.heads.Heads.{Heads};
    ghost use Rattle.xfs_groups.specs.declared.roots.Root.{Root};

    ghost kind_of: { ℕ → Self };

    ghost root_of: { Heads → Option Root };

    /// The kind of the tree of a group.
    fn in_group(ag: u32) -> Self
        ensures { result ≡ kind_of ag };

    /// The root of the tree, where the header that names it reads.
    fn root(heads: &Heads) -> Option<Root>
        ensures { result ≡ root_of heads.now };
}

impl GroupKind for Bno {
    ghost use Rattle.xfs_groups.specs.Private.Roots.{bno_root};

    ghost kind_of = { λ ag. record { ag = ag } };

    ghost root_of = { bno_root };

    fn in_group(ag: u32) -> Bno {
        Bno { ag }
    }

    fn root(heads: &Heads) -> Option<Root> {
        let agf = heads.agf?;
        Some(Root {
            block: agf.bnoroot,
            levels: agf.bnolevel,
        })
    }
}

impl GroupKind for Cnt {
    ghost use Rattle.xfs_groups.specs.Private.Roots.{cnt_root};

    ghost kind_of = { λ ag. record { ag = ag } };

    ghost root_of = { cnt_root };

    fn in_group(ag: u32) -> Cnt {
        Cnt { ag }
    }

    fn root(heads: &Heads) -> Option<Root> {
        let agf = heads.agf?;
        Some(Root {
            block: agf.cntroot,
            levels: agf.cntlevel,
        })
    }
}

impl GroupKind for Ino {
    ghost use Rattle.xfs_groups.specs.Private.Roots.{ino_root};

    ghost kind_of = { λ ag. record { ag = ag } };

    ghost root_of = { ino_root };

    fn in_group(ag: u32) -> Ino {
        Ino { ag }
    }

    fn root(heads: &Heads) -> Option<Root> {
        let agi = heads.agi?;
        Some(Root {
            block: agi.root,
            levels: agi.level,
        })
    }
}

impl GroupKind for Fino {
    ghost use Rattle.xfs_groups.specs.Private.Roots.{fino_root};

    ghost kind_of = { λ ag. record { ag = ag } };

    ghost root_of = { fino_root };

    fn in_group(ag: u32) -> Fino {
        Fino { ag }
    }

    fn root(heads: &Heads) -> Option<Root> {
        let agi = heads.agi?;
        Some(Root {
            block: agi.free_root,
            levels: agi.free_level,
        })
    }
}

impl GroupKind for Rmap {
    ghost use Rattle.xfs_groups.specs.Private.Roots.{rmap_root};

    ghost kind_of = { λ ag. record { ag = ag } };

    ghost root_of = { rmap_root };

    fn in_group(ag: u32) -> Rmap {
        Rmap { ag }
    }

    fn root(heads: &Heads) -> Option<Root> {
        let agf = heads.agf?;
        Some(Root {
            block: agf.rmaproot,
            levels: agf.rmaplevel,
        })
    }
}
