//! The votes of backup superblocks for the volumes that they state.

ghost use Rattle.std.specs.Prelude.{◌≡◌, ℕ, ◌+◌, ◌^◌, ◌<◌, ◌∷◌, ◌++◌, ◌&&◌, ◌||◌, ◌==◌, nat_lt, [], List, length, Some, None, OnOk, IfSome, MatchOption, if◌then◌else◌, is_none};
ghost use Rattle.xfs_geom.specs.Polls.{tally_at, with_vote, leading, IsDecided, IsPoll};
ghost use Rattle.xfs_geom.specs.Volumes.{volume_of, stated_volume};
ghost use Rattle.xfs_geom.specs.declared.geometry.Geometry.{Geometry};
ghost use Rattle.xfs_geom.specs.Election.{Vote, same_volume, vote_in, winner};

use crate::election::Elected;
use crate::geometry::Geometry;
use crate::reading::read_super;
use std::alloc::Global;
use std::collections::BTreeMap;
use xfs_disk::NoMemory;

/// The votes for a volume.
#[derive(Clone, Copy)]
pub struct Tally {
    /// The superblock at the lowest block that states the volume.
    pub first: Elected,
    /// How many superblocks state it.
    pub votes: u64,
}

/// The votes that were counted so far.
#[derive(Drop)]
pub struct Poll {
    /// The votes for each volume that has any.
    tallies: BTreeMap<Geometry, Tally>,
    /// The tally of the volume with the most votes, or of the first of those with as many.
    leader: Option<Tally>,
}

impl Poll {
    /// A poll of no votes.
    pub fn new(alloc: Global) -> Poll
        ensures { (blocks : ℕ) → IsPoll blocks 1 [] result }
    {
        Poll {
            tallies: BTreeMap::new(alloc),
            leader: None,
        }
    }

    /// The first superblock of those for the volume with the most votes.
    pub fn leader(&self) -> Option<Elected>
        ensures { (blocks end : ℕ) (votes : List Vote) → IsPoll blocks end votes self.now
            → MatchOption result (winner votes ≡ None) (IsDecided blocks votes) }
    {
        self.leader.map(|tally| tally.first)
    }

    /// Counts the vote of the superblock in a sector, where it is accepted at the block `place` of an
    /// image of so many blocks.
    pub fn ask(&mut self, sector: &[u8], place: u64, blocks: u64) -> Result<(), NoMemory>
        requires sector { length sector.now ≡ 512 }
        requires polled { (votes : List Vote) × IsPoll blocks place votes self.old }
        ensures { OnOk result ((votes : List Vote) → IsPoll blocks place votes self.old
            → IsPoll blocks (place + 1) (votes ++ vote_in sector.now place blocks) self.new) }
    {
        match read_super(sector, place, blocks) {
            Ok(geometry) => self.count(Elected::new(geometry, place, sector)),
            Err(_) => Ok(()),
        }
    }

    /// Counts a vote.
    fn count(&mut self, vote: Elected) -> Result<(), NoMemory>
        requires { IfSome (tally_at self.old vote.geometry) (λ tally. tally.votes + 1 < 2 ^ 64) }
        ensures tally { OnOk result ((g : Geometry) → tally_at self.new g ≡ (if same_volume (volume_of vote.geometry) (volume_of g)
            then Some (with_vote (tally_at self.old vote.geometry) vote) else tally_at self.old g)) }
        ensures leader { OnOk result (self.new.leader ≡ Some (leading self.old.leader (with_vote (tally_at self.old vote.geometry) vote))) }
    {
        let tally = with_vote(self.tally_of(&vote.geometry), vote);
        self.put_tally(&vote.geometry, tally)?;
        self.leader = Some(leading(self.leader, tally));
        Ok(())
    }

    /// The tally of a volume, where it has votes.
    fn tally_of(&self, geometry: &Geometry) -> Option<Tally>
        ensures { result ≡ tally_at self.now geometry.now }
    {
        self.tallies.get(geometry).copied()
    }

    /// Puts the tally of a volume.
    fn put_tally(&mut self, geometry: &Geometry, tally: Tally) -> Result<(), NoMemory>
        ensures tally { OnOk result ((g : Geometry) → tally_at self.new g ≡ (if same_volume (volume_of geometry.now) (volume_of g) then Some tally else tally_at self.old g)) }
        ensures leader { self.new.leader ≡ self.old.leader }
    {
        self.tallies.insert(*geometry, tally)?;
        Ok(())
    }
}

/// The tally of a volume once a vote is counted. The first of its votes stays.
fn with_vote(tally: Option<Tally>, vote: Elected) -> Tally
    requires { IfSome tally (λ tally. tally.votes + 1 < 2 ^ 64) }
    ensures { result ≡ with_vote tally vote }
{
    match tally {
        Some(tally) => Tally {
            first: tally.first,
            votes: tally.votes + 1,
        },
        None => Tally {
            first: vote,
            votes: 1,
        },
    }
}

/// The one of two tallies that has more votes, or as many and the first of them at a lower block.
fn leading(leader: Option<Tally>, tally: Tally) -> Tally
    ensures { result ≡ leading leader tally }
{
    let Some(leader) = leader else {
        return tally;
    };
    if is_ahead(
        tally.votes,
        tally.first.from,
        leader.votes,
        leader.first.from,
    ) {
        tally
    } else {
        leader
    }
}

/// Whether so many votes, of which the first stands at block `from`, come before those of the leader.
fn is_ahead(votes: u64, from: u64, leader: u64, leader_from: u64) -> bool
    ensures { result ≡ (nat_lt leader votes || (leader == votes && nat_lt from leader_from)) }
{
    leader < votes || leader == votes && from < leader_from
}
