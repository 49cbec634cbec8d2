//! The types of objects, and the places at which they stand.

ghost use Rattle.std.specs.Prelude.{◌≡◌, ◌==◌, ◌<◌, bytes_eq, length};
ghost use Rattle.std.specs.List.{find};
ghost use Rattle.xfs_objects.specs.declared.objects.ObjectType.{ObjectType};
ghost use Rattle.xfs_objects.specs.Objects.{object_in, object_size, type_name, type_named};

/// The types of objects, under the names of xfs_db.
#[derive(Clone, Copy, PartialEq, Eq)]
pub enum ObjectType {
    Sb,
    Agf,
    Agi,
    Agfl,
    Bnobt,
    Cntbt,
    Inobt,
    Finobt,
    Rmapbt,
    Bmapbt,
    Inode,
    /// Bytes of no type.
    Data,
}

/// Every type.
const ALL: [ObjectType; 12] = [
    ObjectType::Sb,
    ObjectType::Agf,
    ObjectType::Agi,
    ObjectType::Agfl,
    ObjectType::Bnobt,
    ObjectType::Cntbt,
    ObjectType::Inobt,
    ObjectType::Finobt,
    ObjectType::Rmapbt,
    ObjectType::Bmapbt,
    ObjectType::Inode,
    ObjectType::Data,
];

/// The bytes of a sector.
pub const SECTOR_SIZE: usize = 512;

/// Where an object stands: a block of the image, a sector of the block, and the object's type.
#[derive(Clone, Copy)]
pub struct ObjectPlace {
    pub block: u64,
    pub sector: u8,
    pub kind: ObjectType,
}

impl ObjectType {
    /// The type of this name.
    #[tactic(auto, unfolding(crate::specs::Objects::type_named))]
    pub fn named(name: &[u8]) -> Option<ObjectType>
        ensures { result ≡ type_named name.now }
    {
        find_named(&ALL, name)
    }

    /// The name of the type.
    pub fn name(self) -> &'static str
        ensures { result.now ≡ type_name self }
    {
        match self {
            ObjectType::Sb => "sb",
            ObjectType::Agf => "agf",
            ObjectType::Agi => "agi",
            ObjectType::Agfl => "agfl",
            ObjectType::Bnobt => "bnobt",
            ObjectType::Cntbt => "cntbt",
            ObjectType::Inobt => "inobt",
            ObjectType::Finobt => "finobt",
            ObjectType::Rmapbt => "rmapbt",
            ObjectType::Bmapbt => "bmapbt",
            ObjectType::Inode => "inode",
            ObjectType::Data => "data",
        }
    }

    /// Whether objects of the type have one sector, and else a whole block.
    pub fn is_sector(self) -> bool
        ensures { result ≡ (object_size self == 512) }
    {
        match self {
            ObjectType::Sb
            | ObjectType::Agf
            | ObjectType::Agi
            | ObjectType::Agfl
            | ObjectType::Inode => true,
            _ => false,
        }
    }

    /// The object of this type in a sector of a block.
    pub fn object(self, sector: u8, block: &[u8]) -> &[u8]
        requires sector { sector < 8 }
        requires block { length block.now ≡ 4096 }
        ensures value { result.now ≡ object_in self sector block.now }
        ensures size { length result.now ≡ object_size self }
    {
        if self.is_sector() {
            let rest = block.split_at(SECTOR_SIZE * sector as usize).1;
            rest.split_at(SECTOR_SIZE).0
        } else {
            block
        }
    }
}

/// The first of the types that has this name.
fn find_named(kinds: &[ObjectType], name: &[u8]) -> Option<ObjectType>
    ensures { result ≡ find (λ (kind : ObjectType). bytes_eq (type_name kind) name.now) kinds.now }
{
    for kind in kinds {
        if kind.name().as_bytes() == name {
            return Some(*kind);
        }
    }
    None
}
