//! What a directory that was built reads as where its blocks stand in runs of an image. Nothing here computes: the definitions stand in
//! `specs/`, and the functions carry laws about them.
//!
//! A repair that builds directories anew and a new volume with files both place their directories as they are asked for
//! (`asks_for`), and map them by the runs that they get (`extent_of_run`). So the laws of both take from here that the runs of an ask
//! have its file blocks in order (`runs_of_asks_join`, `asks_share_runs`, `runs_map_in_order`), and that a directory whose blocks stand
//! in them reads as whole, with the entries and the parent that are wanted (`built_directories_read`).
#![tactic(auto)]

mod directories;
mod pieces;

pub use directories::built_directories_read;
pub use pieces::{asks_share_runs, runs_map_in_order, runs_of_asks_join};
