//! Arrays of numbers in on-disk objects.

ghost use Rattle.std.specs.Prelude.{◌≡◌, ℕ, ◌+◌, ◌*◌, ◌<◌, ◌≤◌, length};
ghost use Rattle.xfs_word.specs.Field.{field_of, KeepsBeside, KeepsParts};
ghost use Rattle.xfs_heads.specs.Heads.{numbers};

use xfs_word::{Form, get32, put32};

/// An array of numbers of 4 bytes: its name, the byte offset of its first number in the object, how many
/// numbers it has, and how each is shown.
#[derive(Clone, Copy)]
pub struct ArrayLayout {
    pub name: &'static str,
    pub offset: usize,
    pub count: usize,
    pub form: Form,
}

impl ArrayLayout {
    /// The big-endian number at an index.
    pub fn read(&self, bytes: &[u8], index: usize) -> u32
        requires { self.now.offset + 4 * index + 4 ≤ length bytes.now }
        ensures { result ≡ field_of bytes.now (self.now.offset + 4 * index) 4 }
    {
        get32(bytes, self.offset + 4 * index)
    }

    /// Writes the number at an index, big-endian.
    pub fn write(&self, bytes: &mut [u8], index: usize, value: u32)
        requires { self.now.offset + 4 * index + 4 ≤ length bytes.old }
        ensures put { field_of bytes.new (self.now.offset + 4 * index) 4 ≡ value }
        ensures keeps { KeepsBeside bytes.old bytes.new (self.now.offset + 4 * index) 4 }
        ensures keeps_parts { KeepsParts bytes.old bytes.new (self.now.offset + 4 * index) 4 }
    {
        put32(bytes, self.offset + 4 * index, value);
    }

    /// Reads as many numbers as `values` has.
    #[tactic(auto, unfolding(crate::specs::Heads::numbers))]
    pub fn read_all(&self, bytes: &[u8], values: &mut [u32])
        requires { self.now.offset + 4 * length values.old ≤ length bytes.now }
        ensures { values.new ≡ numbers bytes.now self.now.offset (length values.old) }
    {
        for (index, value) in values.iter_mut().enumerate() {
            *value = self.read(bytes, index);
        }
    }

    /// Writes these numbers.
    #[tactic(auto, unfolding(crate::specs::Heads::numbers))]
    pub fn write_all(&self, bytes: &mut [u8], values: &[u32])
        requires { self.now.offset + 4 * length values.now ≤ length bytes.old }
        ensures put { numbers bytes.new self.now.offset (length values.now) ≡ values.now }
        ensures keeps { KeepsBeside bytes.old bytes.new self.now.offset (4 * length values.now) }
        ensures keeps_parts { KeepsParts bytes.old bytes.new self.now.offset (4 * length values.now) }
    {
        for (index, value) in values.iter().enumerate() {
            self.write(bytes, index, *value);
        }
    }
}
