//! A law about the log sequence numbers of a rebuilt volume. The function does nothing; its contract is the laws.

ghost use Rattle.xfs_restored.specs.Laws.KeptLsns.{RewrittenLsnsAreBehindBehind, RewrittenLsnsAreBehindKept};

/// Where the superblock, the headers and the trees state no log sequence number and the log is the due one, no number is above its
/// head (`behind`), so the laws of the log are kept (`kept`).
pub fn rewritten_lsns_are_behind()
    ensures behind { RewrittenLsnsAreBehindBehind }
    ensures kept { RewrittenLsnsAreBehindKept }
{}
