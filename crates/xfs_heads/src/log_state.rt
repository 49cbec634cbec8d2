//! What is told of a log beside the headers: whether it is clean. `xfs_log` finds it.

/// Whether a log is clean. The head of a clean log has the cycle in the upper half of its number, and the
/// sector at which the next record begins in the lower.
#[derive(Clone, Copy, Debug, PartialEq, Eq)]
pub enum LogState {
    Clean { head: u64 },
    Dirty,
}
