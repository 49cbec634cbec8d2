//! Tests of all that judges, gathers, places and builds whole volumes. They stand in a crate of their own, since a crate is proved once more
//! with its tests.
//!
//! A test gives what has many lists to `drop` in the end: where it leaves scope instead, its proof goes through each list anew.
#![tactic(auto)]

#[cfg(test)]
mod catalogs;
#[cfg(test)]
mod checks;
#[cfg(test)]
mod claims;
#[cfg(test)]
mod dirs;
#[cfg(test)]
mod groups;
#[cfg(test)]
mod items;
#[cfg(test)]
mod journal;
#[cfg(test)]
mod laws;
#[cfg(test)]
mod links;
#[cfg(test)]
mod names;
#[cfg(test)]
mod naming;
#[cfg(test)]
mod order;
#[cfg(test)]
mod place;
#[cfg(test)]
mod reads;
#[cfg(test)]
mod render;
#[cfg(test)]
mod request;
#[cfg(test)]
mod salvage;
#[cfg(test)]
mod scan;
#[cfg(test)]
mod small_volume;
#[cfg(test)]
mod space;
#[cfg(test)]
mod text;
