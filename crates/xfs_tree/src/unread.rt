//! Why a tree does not read.

/// The first block that breaks a rule, by level from the root and then from the left, and the rule. Of a
/// block outside the volume that an extent tree names, the number is all ones.
///
/// The rules, as they are judged: 1 the block lies in the group (for an inode's tree in the volume), has no
/// fixed use and is not of the root's cluster; 2 it was not met before; 3 it is sealed with its owner; 4 it has
/// its level; 5 it holds 1 record or child up to its capacity, a leaf that is the root also none; 6 its records
/// are lawful, also behind those of the leaf in front, or its keys ascend; 7 its low key and, where keys are
/// pairs, its high key are those that its parent states; 8 its siblings are its neighbours on the level.
#[derive(Clone, Copy, Debug, PartialEq, Eq)]
pub struct Unread {
    pub block: u64,
    pub rule: u8,
}
