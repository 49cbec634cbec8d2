//! What is placed can be written. Nothing here computes; the functions carry laws about the definitions.

ghost use Rattle.std.specs.Prelude.{◌≡◌, ◌<◌, ◌++◌, ◌^◌, length, Ok};
ghost use Rattle.std.specs.List.{All};
ghost use Rattle.xfs_geom.specs.Volumes.{volume_of};
ghost use Rattle.xfs_place.specs.Objects.{ServeAsks, asks_of};
ghost use Rattle.xfs_place.specs.Standing.{AreOfPool};
ghost use Rattle.xfs_place.specs.Wanted.{CanBeKept, ArePlaced, all_kept, kept_runs};
ghost use Rattle.xfs_render.specs.Readiness.{HasBytes, IsWritable};
ghost use Rattle.xfs_render.specs.Rendering.{IsReady};

use crate::bytes::Bytes;
use xfs_place::{Placed, Wanted};

/// What `place` gives for a request is ready for `render`: its trees can be packed and its free lists be written. The request
/// names lawful records of inodes, owners of what is kept, and the root's cluster among it; the bytes beside it are a superblock
/// of the volume and blocks of which the slots can be made. It does nothing.
pub fn placed_is_ready(_wanted: &Wanted, _placed: &Placed, _bytes: &Bytes)
    requires wanted { IsWritable _wanted.now }
    requires runs { all_kept _wanted.now ≡ Ok (kept_runs _wanted.now ++ _placed.now.runs) }
    requires cuts { ServeAsks (asks_of _wanted.now.objects) _placed.now.cuts _placed.now.runs }
    requires groups { ArePlaced (volume_of _wanted.now.geometry) (kept_runs _wanted.now ++ _placed.now.runs) _wanted.now.reserved _wanted.now.inodes
        _wanted.now.geometry.agcount _placed.now.groups }
    requires apart { CanBeKept (volume_of _wanted.now.geometry) (kept_runs _wanted.now ++ _placed.now.runs) }
    requires pool { AreOfPool (volume_of _wanted.now.geometry) (kept_runs _wanted.now ++ _placed.now.runs) _wanted.now.reserved _wanted.now.inodes
        _wanted.now.geometry.agcount _placed.now.groups }
    requires bytes { HasBytes _wanted.now _bytes.now }
    ensures { IsReady _wanted.now _placed.now _bytes.now }
{}

/// Lawful records of inodes are as few as `place` asks. It does nothing.
pub fn chunks_are_few(_wanted: &Wanted)
    requires { IsWritable _wanted.now }
    ensures { All (λ group. length group.records < 2 ^ 32) _wanted.now.inodes }
{}
