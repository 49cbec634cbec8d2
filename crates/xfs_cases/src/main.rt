//! Plays cases of the tools' top call on volumes in memory: standard input has the cases, a few lines of text each, and standard output
//! gets how each went (`xfs_player`).
#![tactic(auto)]

use std::io::{self, BufRead, BufReader};
use xfs_player::Player;

fn main(rt: HostRuntime) -> io::Result<()> {
    let alloc = rt.alloc();
    let mut player = Player::new(alloc);
    for line in BufReader::new(alloc, rt.reader())?.lines(alloc) {
        let line = line?;
        player.take(&rt, line.as_str())?;
    }
    player.end_case(&rt)
}
