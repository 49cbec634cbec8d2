//! Sessions over objects in memory.

mod sessions;
mod volume;
