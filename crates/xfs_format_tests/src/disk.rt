//! What no clause says: the bytes that reach the system, and that calls which take memory succeed.

mod memory;
mod real;
