//! A stamp: what time it is, and numbers drawn at random.

ghost use Rattle.std.specs.Prelude.{ℕ, ◌<◌, ◌^◌};

/// The time and the random numbers that a call is handed in.
#[derive(Clone, Copy, PartialEq, Eq)]
pub struct Stamp {
    /// Seconds since 1970, below 2^31.
    pub seconds: u32,
    /// Nanoseconds, below 10^9.
    pub nanos: u32,
    /// The generation number of inodes that are made.
    pub generation: u32,
    /// The identifier of a volume that is made.
    pub uuid: [u8; 16],
    pub ghost seconds_fit: { seconds < 2 ^ 31 },
    pub ghost nanos_fit: { nanos < 10 ^ 9 },
}
