//! Claims at small cases, and a hundred thousand files on one run.

mod cases;
mod many;
mod sound;
