//! Blocks, addresses and inode numbers of a volume.

ghost use Rattle.std.specs.Prelude.{◌≡◌, ℕ, ◌+◌, ◌*◌, ◌^◌, ◌<◌, ◌≤◌, Some, IfSome};

use crate::geometry::Geometry;

impl Geometry {
    ghost use Rattle.xfs_geom.specs.Groups.{block_of_address};
    ghost use Rattle.xfs_geom.specs.Conversions.{group_length, is_fixed, address_of, block_at, inode_of, slot_at};
    ghost use Rattle.xfs_geom.specs.Volumes.{volume_of};

    /// How many blocks an allocation group has.
    pub fn group_length(&self, ag: u32) -> u32
        requires { ag < self.now.agcount }
        ensures value { result ≡ group_length (volume_of self.now) ag }
        ensures least { 64 ≤ result }
        ensures most { result ≤ self.now.agblocks }
        ensures inside { ag * self.now.agblocks + result ≤ self.now.dblocks }
    {
        if ag + 1 == self.agcount {
            (self.dblocks - self.start_of_group(ag)) as u32
        } else {
            self.agblocks
        }
    }

    /// Whether a block has a fixed use: it is the first of its group, or of the log.
    pub fn is_fixed(&self, block: u64) -> bool
        requires { block < self.now.dblocks }
        ensures { result ≡ is_fixed (volume_of self.now) block }
    {
        block % self.agblocks as u64 == 0
            || self.log <= block && block < self.log + self.logblocks as u64
    }

    /// The number of the block at an address, or `None` where its group or its AG block is outside.
    #[tactic(auto, unfolding(crate::specs::Conversions::block_at))]
    pub fn block_of_address(&self, address: u64) -> Option<u64>
        ensures value { result ≡ block_at (volume_of self.now) address }
        ensures inside { IfSome result (λ block. block < self.now.dblocks) }
        ensures inverse { IfSome result (λ block. address_of (volume_of self.now) block ≡ address) }
    {
        let size = self.size_of_addresses();
        let group = address / size;
        if group >= self.agcount as u64 {
            return None;
        }
        let ag = group as u32;
        let ag_block = address % size;
        if ag_block >= self.group_length(ag) as u64 {
            return None;
        }
        Some(self.start_of_group(ag) + ag_block)
    }

    /// The number that an address gives a block, whether or not the volume has that block.
    pub fn number_of_address(&self, address: u64) -> u64
        ensures { result ≡ block_of_address self.now.agblocks self.now.agblklog address }
    {
        let size = self.size_of_addresses();
        address / size * self.agblocks as u64 + address % size
    }

    /// The address of a block.
    pub fn address_of_block(&self, block: u64) -> u64
        requires { block < self.now.dblocks }
        ensures value { result ≡ address_of (volume_of self.now) block }
        ensures inverse { block_at (volume_of self.now) result ≡ Some block }
        ensures low { result < 2 ^ 27 }
    {
        let agblocks = self.agblocks as u64;
        block / agblocks * self.size_of_addresses() + block % agblocks
    }

    /// The block and the slot of an inode, or `None` where the block is outside.
    #[tactic(auto, unfolding(crate::specs::Conversions::slot_at, crate::specs::Conversions::inode_of))]
    pub fn slot_of_inode(&self, ino: u64) -> Option<(u64, u8)>
        ensures value { result ≡ slot_at (volume_of self.now) ino }
        ensures inside { IfSome result (λ place. place.0 < self.now.dblocks) }
        ensures slot { IfSome result (λ place. place.1 < 8) }
        ensures inverse { IfSome result (λ place. inode_of (volume_of self.now) place.0 place.1 ≡ ino) }
    {
        let block = self.block_of_address(ino / 8)?;
        Some((block, (ino % 8) as u8))
    }

    /// The number of the inode in a slot of a block.
    #[tactic(auto, unfolding(crate::specs::Conversions::slot_at, crate::specs::Conversions::inode_of))]
    pub fn inode_of_slot(&self, block: u64, slot: u8) -> u64
        requires block { block < self.now.dblocks }
        requires slot { slot < 8 }
        ensures value { result ≡ inode_of (volume_of self.now) block slot }
        ensures inverse { slot_at (volume_of self.now) result ≡ Some (block, slot) }
        ensures low { result < 2 ^ 30 }
    {
        self.address_of_block(block) * 8 + slot as u64
    }

    /// The number of AG blocks that an address can tell apart.
    fn size_of_addresses(&self) -> u64
        ensures value { result ≡ 2 ^ self.now.agblklog }
        ensures enough { self.now.agblocks ≤ result }
        ensures least { result < 2 * self.now.agblocks }
    {
        1 << self.agblklog
    }
}
