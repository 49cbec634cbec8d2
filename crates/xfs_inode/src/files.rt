//! What a slot reads as with the blocks that it names.

ghost use Rattle.std.specs.Prelude.{◌≡◌, IfOk};

use std::alloc::{AllocError, Global};
use std::marker::Model;
use xfs_volume::FileRec;

/// What the slot of an inode and the blocks that it names read as.
#[derive(Debug, Drop)]
pub enum FileRead {
    /// The slot holds no file.
    Free,
    /// A file.
    File(BoxedFile),
    /// A file whose attributes do not read; it is given without any.
    FileWithoutAttrs(BoxedFile),
    /// A file with a feature that is not supported: 1 an attribute's value outside its leaf, 2 attributes in more
    /// than one block, 3 a real-time file, 4 blocks shared by files, 5 times of 64 bits, 6 counts of 64 bits.
    Unsupported { what: u8 },
    /// Neither free nor a file.
    Unsound,
}

/// A file that stands apart, so that it need not move with what is said of it: it has some 220 bytes. Contracts see the file.
#[derive(Debug, Drop)]
pub struct BoxedFile {
    file: Box<FileRec>,
}

impl Model for BoxedFile {
    ghost use Rattle.xfs_volume.specs.declared.files.FileRec.{FileRec};

    ghost Value = { FileRec };

    ghost view = { λ boxed. boxed.file.value };
}

impl BoxedFile {
    /// The file, set apart.
    pub fn new(alloc: Global, file: FileRec) -> Result<BoxedFile, AllocError>
        ensures { IfOk result (λ boxed. boxed ≡ file) }
    {
        Ok(BoxedFile {
            file: Box::new(alloc, file)?,
        })
    }

    /// The file.
    pub fn as_file(&self) -> &FileRec
        ensures { result.now ≡ self.now }
    {
        &self.file
    }

    /// The file, no longer apart.
    pub fn into_file(self) -> FileRec
        ensures { result ≡ self }
    {
        let BoxedFile { file } = self;
        Box::into_inner(file)
    }
}
