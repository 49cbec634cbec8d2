//! The tools' top call.
//!
//! The one call that the program makes: words, a disk and the standard streams in; an answer, its line and an exit status
//! out. Whoever wants the tools elsewhere, as in a test over a disk in memory, makes the same call.
//!
//! The program `xfs` calls it so:
//!
//! ```text
//! let status = run(&rt, rt.alloc(), &words, &mut disk, &mut files, &mut input, &mut out, &mut err, &stamp, &NoGate);
//! ```
#![tactic(auto)]

mod answer;
mod command_line;
mod damaging;
mod debugger;
mod explaining;
mod generating;
mod help_words;
mod maker;
mod texts;
mod top;

pub use answer::{Answer, Status};
pub use command_line::{Call, RepairWords, is_debugger, is_maker, judge};
pub use help_words::text_asked;
pub use texts::put_answer;
pub use top::run;
pub use xfs_mend::Summary;
