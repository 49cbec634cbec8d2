//! Bytes that several hold.

ghost use Rattle.std.specs.Prelude.{◌≡◌, IfOk};

use std::alloc::Global;
use std::marker::Model;
use std::rc::Rc;
use xfs_disk::NoMemory;

/// Bytes that several hold. They never change. Contracts see the list of the bytes.
#[derive(Drop)]
pub struct SharedBytes {
    bytes: Rc<Vec<u8>>,
}

impl Model for SharedBytes {
    ghost use Rattle.std.specs.Prelude.{List, ℕ};

    ghost Value = { List ℕ };

    ghost view = { λ shared. shared.bytes.value.items };
}

impl SharedBytes {
    /// These bytes, with one holder.
    pub fn make(alloc: Global, bytes: Vec<u8>) -> Result<SharedBytes, NoMemory>
        ensures { IfOk result (λ shared. shared ≡ bytes.items) }
    {
        match Rc::new(alloc, bytes) {
            Ok(bytes) => Ok(SharedBytes { bytes }),
            Err(_) => Err(NoMemory),
        }
    }

    /// The same bytes, for one more holder.
    pub fn share(&self) -> Result<SharedBytes, NoMemory>
        ensures { IfOk result (λ shared. shared ≡ self.now) }
    {
        let bytes = self.bytes.clone()?;
        Ok(SharedBytes { bytes })
    }

    /// The bytes.
    pub fn bytes(&self) -> &[u8]
        ensures { result.now ≡ self.now }
    {
        self.bytes.as_ref().as_slice()
    }
}
