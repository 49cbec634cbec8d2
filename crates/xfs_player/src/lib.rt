//! Plays cases of the tools' top call on volumes in memory.
//!
//! `Player` takes the lines of the cases one after the other; `case` and `player` say which lines there are. For each case it prints
//! `ok` and its name where all goes as the case says, and else what does not. It stands apart from the program that reads the lines, since
//! a program is proved once for each compiler that builds it.
#![tactic(auto)]

mod answers;
mod calls;
mod case;
mod disk;
mod library;
mod numbers;
mod player;
mod refusal;
mod stops;
mod vast;
mod volume;

pub use player::Player;
