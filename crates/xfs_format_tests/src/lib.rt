//! Tests of all that reads and writes objects of the format. They stand in a crate of their own, since a crate is proved once more with its tests.
#![tactic(auto)]

#[cfg(test)]
mod attr;
#[cfg(test)]
mod bank;
#[cfg(test)]
mod checks;
#[cfg(test)]
mod dirbuild;
#[cfg(test)]
mod dirdata;
#[cfg(test)]
mod dirindex;
#[cfg(test)]
mod disk;
#[cfg(test)]
mod geom;
#[cfg(test)]
mod heads;
#[cfg(test)]
mod inode;
#[cfg(test)]
mod kinds;
#[cfg(test)]
mod options;
#[cfg(test)]
mod proto;
#[cfg(test)]
mod runs;
#[cfg(test)]
mod shared;
#[cfg(test)]
mod shell;
#[cfg(test)]
mod text;
#[cfg(test)]
mod tree;
#[cfg(test)]
mod volume;
#[cfg(test)]
mod weave;
#[cfg(test)]
mod word;
