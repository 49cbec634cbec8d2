//! The geometry of a new volume, and the bounds that it keeps.

ghost use Rattle.std.specs.Prelude.{◌≡◌, ℕ, ◌+◌, ◌-◌, ◌*◌, ◌/◌, ◌^◌, ◌≤◌, ◌<◌, IsTrue, Some, None, IfErr, IfOk, IfSome};
ghost use Rattle.xfs_geom.specs.Groups.{blocks_of_group};
ghost use Rattle.xfs_geom.specs.Shape.{HasAddresses, HasGroups};
ghost use Rattle.xfs_empty.specs.Sizes.{IsChosenGeometry, groups_by, has_log_room, has_room, kernel_log, log_blocks, of_size, so_many, too_small, where_kept};

use crate::asked::SizesAsked;
use xfs_geom::Geometry;

/// The most blocks of a volume.
const MOST_BLOCKS: u64 = 1 << 26;

/// The bounds of allocation groups: how many, and the blocks of each and of the last.
const LEAST_GROUPS: u64 = 2;

const MOST_GROUPS: u64 = 512;

const LEAST_GROUP_BLOCKS: u64 = 1024;

const LEAST_LAST_BLOCKS: u64 = 64;

/// How many allocation groups there are where nothing is asked.
const GROUPS: u64 = 4;

/// The bounds of the log, the part of the volume that it takes where nothing is asked, its first AG block, and how many
/// blocks of its group are left behind it.
const LEAST_LOG: u64 = 512;

const MOST_LOG: u64 = 521_728;

const LOG_PART: u64 = 1024;

const LOG_START: u64 = 6;

const BEHIND_LOG: u64 = 64;

/// The blocks of a log that kernels ask for, and of the groups beside it.
const KERNEL_LOG: u64 = 2560;

const KERNEL_GROUP: u64 = 4096;

/// The least and the greatest number of bits of an AG block.
const LEAST_BITS: u8 = 10;

const MOST_BITS: u8 = 26;

/// The allocation groups of a volume: the blocks of each, but the last may have fewer, and how many they are.
#[derive(Clone, Copy)]
pub struct GroupSizes {
    pub size: u64,
    pub count: u64,
}

/// The geometry of a new volume on a disk of so many blocks; or which bound it breaks: that of blocks (1), of groups (2)
/// or of the log (3), the first of them.
#[tactic(auto, unfolding(crate::specs::Sizes::too_small))]
pub fn choose(asked: &SizesAsked, blocks: u64, uuid: [u8; 16]) -> Result<Geometry, u8>
    ensures refused { IfErr result (λ what. too_small asked.now blocks ≡ Some what) }
    ensures fits { IfOk result (λ g. too_small asked.now blocks ≡ None) }
    ensures chosen { IfOk result (λ g. IsChosenGeometry asked.now blocks uuid g) }
{
    let dblocks = asked.blocks.unwrap_or(blocks);
    if dblocks > blocks || dblocks > MOST_BLOCKS {
        return Err(1);
    }
    let Some(groups) = split(asked.agblocks, asked.agcount, dblocks) else {
        return Err(2);
    };
    let logblocks = log_blocks(asked.logblocks, &groups, dblocks);
    if !has_log_room(&groups, dblocks, logblocks) {
        return Err(3);
    }
    Ok(geometry(dblocks, &groups, logblocks, uuid))
}

/// The geometry of a volume of these groups and this log.
fn geometry(dblocks: u64, groups: &GroupSizes, logblocks: u64, uuid: [u8; 16]) -> Geometry
    requires groups { HasGroups dblocks groups.now.size groups.now.count }
    requires log { IsTrue (has_log_room groups.now dblocks logblocks) }
    ensures dblocks { result.dblocks ≡ dblocks }
    ensures agblocks { result.agblocks ≡ groups.now.size }
    ensures agcount { result.agcount ≡ groups.now.count }
    ensures log { result.log ≡ result.agcount / 2 * result.agblocks + 6 }
    ensures logblocks { result.logblocks ≡ logblocks }
    ensures rootino { result.rootino ≡ 128 }
    ensures logsectlog { result.logsectlog ≡ 0 }
    ensures uuid { result.uuid ≡ uuid }
{
    Geometry {
        dblocks,
        agblocks: groups.size as u32,
        agcount: groups.count as u32,
        agblklog: bits_of(groups.size),
        log: groups.count / 2 * groups.size + LOG_START,
        logblocks: logblocks as u32,
        rootino: 128,
        logsectlog: 0,
        uuid,
    }
}

/// The groups of a volume of so many blocks, where they keep their bounds.
fn split(size: Option<u64>, count: Option<u64>, dblocks: u64) -> Option<GroupSizes>
    requires { dblocks ≤ 2 ^ 26 }
    ensures value { result ≡ where_kept (groups_by size count dblocks) dblocks }
    ensures kept { IfSome result (λ g. HasGroups dblocks g.size g.count) }
{
    match size {
        Some(size) => split_by_size(dblocks, size),
        None => split_by_count(dblocks, count.unwrap_or(GROUPS)),
    }
}

/// Groups of so many blocks, where these and their number keep their bounds.
fn split_by_size(dblocks: u64, size: u64) -> Option<GroupSizes>
    requires { dblocks ≤ 2 ^ 26 }
    ensures value { result ≡ where_kept (of_size dblocks size) dblocks }
    ensures kept { IfSome result (λ g. HasGroups dblocks g.size g.count) }
{
    if size < LEAST_GROUP_BLOCKS || size > dblocks {
        return None;
    }
    let count = (dblocks + size - 1) / size;
    keep_groups(GroupSizes { size, count }, dblocks)
}

/// So many groups, where their number and their blocks keep their bounds.
fn split_by_count(dblocks: u64, count: u64) -> Option<GroupSizes>
    requires { dblocks ≤ 2 ^ 26 }
    ensures value { result ≡ where_kept (so_many dblocks count) dblocks }
    ensures kept { IfSome result (λ g. HasGroups dblocks g.size g.count) }
{
    if count < LEAST_GROUPS || count > MOST_GROUPS {
        return None;
    }
    let size = (dblocks + count - 1) / count;
    keep_groups(GroupSizes { size, count }, dblocks)
}

/// The groups, where they keep their bounds.
fn keep_groups(groups: GroupSizes, dblocks: u64) -> Option<GroupSizes>
    requires few { dblocks ≤ 2 ^ 26 }
    requires size { groups.size ≤ 2 ^ 26 }
    requires covered { dblocks ≤ groups.count * groups.size }
    ensures value { result ≡ where_kept groups dblocks }
    ensures kept { IfSome result (λ g. HasGroups dblocks g.size g.count) }
{
    let GroupSizes { size, count } = groups;
    if count < LEAST_GROUPS || count > MOST_GROUPS || size < LEAST_GROUP_BLOCKS {
        return None;
    }
    if (count - 1) * size + LEAST_LAST_BLOCKS > dblocks {
        return None;
    }
    Some(groups)
}

/// The blocks of the log: those that are asked for, or else as many as the volume and kernels say.
fn log_blocks(asked: Option<u64>, groups: &GroupSizes, dblocks: u64) -> u64
    requires { HasGroups dblocks groups.now.size groups.now.count }
    ensures { result ≡ log_blocks asked groups.now dblocks }
{
    let part = LEAST_LOG.max(dblocks / LOG_PART);
    asked.unwrap_or(part.max(kernel_log(groups, dblocks)))
}

/// The blocks of a log that kernels ask for, or 0 where groups are too small for kernels or for this log.
fn kernel_log(groups: &GroupSizes, dblocks: u64) -> u64
    requires { HasGroups dblocks groups.now.size groups.now.count }
    ensures { result ≡ kernel_log groups.now dblocks }
{
    if groups.size >= KERNEL_GROUP && has_room(groups, dblocks, KERNEL_LOG) {
        KERNEL_LOG
    } else {
        0
    }
}

/// The log's group has 64 blocks behind it.
fn has_room(groups: &GroupSizes, dblocks: u64, logblocks: u64) -> bool
    requires groups { HasGroups dblocks groups.now.size groups.now.count }
    requires log { logblocks ≤ 521728 }
    ensures { result ≡ has_room groups.now dblocks logblocks }
{
    LOG_START + logblocks + BEHIND_LOG <= group_blocks(groups, dblocks, groups.count / 2)
}

/// The log has 512 to 521,728 blocks, and its group has room for it.
fn has_log_room(groups: &GroupSizes, dblocks: u64, logblocks: u64) -> bool
    requires { HasGroups dblocks groups.now.size groups.now.count }
    ensures { result ≡ has_log_room groups.now dblocks logblocks }
{
    if logblocks < LEAST_LOG || logblocks > MOST_LOG {
        return false;
    }
    has_room(groups, dblocks, logblocks)
}

/// The blocks of a group: the last has what is left of the volume.
fn group_blocks(groups: &GroupSizes, dblocks: u64, group: u64) -> u64
    requires inside { group < groups.now.count }
    requires bounds { HasGroups dblocks groups.now.size groups.now.count }
    ensures { result ≡ blocks_of_group dblocks groups.now.size groups.now.count group }
{
    if group + 1 == groups.count {
        dblocks - group * groups.size
    } else {
        groups.size
    }
}

/// The least number of bits that hold an AG block of a group of so many blocks.
fn bits_of(size: u64) -> u8
    requires large { 1024 ≤ size }
    requires small { size ≤ 2 ^ 26 }
    ensures { HasAddresses size result }
{
    for bits in LEAST_BITS..MOST_BITS {
        if size <= 1 << bits {
            return bits;
        }
    }
    MOST_BITS
}
