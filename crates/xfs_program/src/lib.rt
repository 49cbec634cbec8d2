//! The program, but for `main`: what it does between the system (`xfs_system`) and the tools.
//!
//! It takes the words, the time and random numbers from a `Host`, judges what the words do with the image that the last of them names,
//! has it opened for that, makes the tools' call and ends with its code. It stands apart from the program, since a program is proved
//! once for each compiler that builds it. `xfs` does this alone:
//!
//! ```text
//! let mut environment = over_streams(FileLibrary::new(&rt), rt.stdin(), rt.stdout(), rt.stderr());
//! perform(&rt, rt.alloc(), &mut environment)
//! ```
#![tactic(auto)]

mod calling;
mod performing;
mod purpose;

pub use performing::perform;
