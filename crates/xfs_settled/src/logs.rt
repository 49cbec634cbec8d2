//! A law about blank logs. The function does nothing; its contract is the law.

ghost use Rattle.xfs_settled.specs.Laws.Logs.{BlankLogsAreOne};

/// Two images whose logs are blank, in one cycle, have the same blocks there.
pub fn blank_logs_are_one()
    ensures { BlankLogsAreOne }
{}
