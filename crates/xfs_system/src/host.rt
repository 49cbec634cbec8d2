//! What the program asks of the system.

ghost use Rattle.std.specs.Prelude.{◌≡◌, ℕ, Bool, List, None, IsSome, OnErr, OnOk, IfOk};
ghost use Rattle.std.specs.Duration.{as_nanos};
ghost use Rattle.std.specs.declared.fs.options.OpenOptions.{OpenOptions};
ghost use Rattle.xfs_files.specs.FileDisk.{file_of};

use crate::in_use::is_image_in_use;
use crate::streams::hold_streams;
use crate::words::read_words;
use std::alloc::{AllocError, Global};
use std::env::Env;
use std::fs::{OpenFile, OpenOptions};
use std::io::{Error, ErrorKind, Read, Seek, Write};
use std::os::unix::fs::{FileExt, FileTypeExt};
use std::random::RandomSource;
use std::rt::{Clock, Files};
use std::time::{Duration, SystemTime, UNIX_EPOCH};
use std::{fs, io, str};
use xfs_disk::{Disk, Word};
use xfs_files::FileDisk;

/// The system that the program runs on.
///
/// Contracts see what it said: that it `gives_words`, that so many nanoseconds passed since 1970 began (`tells_time`), that it `draws`
/// these bytes at random, that it `lacks_streams`; that it `opens` a name so, as this image, or `refuses` to; and whether it
/// `says_used` of a name. An image that `is_none` stands on no file.
pub trait Host {
    /// An image that was opened.
    type Image: Disk + Drop;

    /// What is held while the program runs.
    type Held: Drop;

    ghost gives_words: { Self → List (List ℕ) → Type 0 } = { λ _ _. Unit {0} };

    ghost tells_time: { Self → ℕ → Type 0 } = { λ _ _. Unit {0} };

    ghost draws: { Self → List ℕ → Type 0 } = { λ _ _. Unit {0} };

    ghost lacks_streams: { Self → Type 0 } = { λ _. Unit {0} };

    ghost opens: { Self → List ℕ → OpenOptions → Self.Image → Type 0 } = { λ _ _ _ _. Unit {0} };

    ghost refuses: { Self → List ℕ → OpenOptions → Type 0 } = { λ _ _ _. Unit {0} };

    ghost says_used: { Self → List ℕ → Bool → Type 0 } = { λ _ _ _. Unit {0} };

    ghost is_none: { Self.Image → Type 0 } = { λ _. Unit {0} };

    /// The words of the command line: a tool, its options and an image.
    fn words(&self, alloc: Global) -> Result<Vec<Word>, AllocError>
        ensures { IfOk result (λ words. gives_words self.now words.items) };

    /// How long it is since 1970 began.
    fn time(&self) -> Duration
        ensures { tells_time self.now (as_nanos result) };

    /// Fills the slice with random bytes.
    fn draw(&self, bytes: &mut [u8]) -> io::Result<()>
        ensures { OnOk result (draws self.now bytes.new) };

    /// Holds the standard streams, so that no file is opened in the place of one.
    fn hold_streams(&self) -> io::Result<Self::Held>
        ensures { OnErr result (lacks_streams self.now) };

    /// Opens the file of this name as an image.
    fn open_name(&self, how: &OpenOptions, name: &str) -> io::Result<Self::Image>
        ensures opened { IfOk result (opens self.now name.now how.now) }
        ensures refused { OnErr result (refuses self.now name.now how.now) };

    /// The image that stands on no file: each call of it fails.
    fn no_image(&self) -> Self::Image
        ensures { is_none result };

    /// Whether the image that a word names is in use.
    fn has_in_use(&self, word: &Word) -> bool
        ensures { says_used self.now word.now result };
}

impl<R: Clock + RandomSource + Env + Files + AllocGlobal + Clone + Drop> Host for R
where
    R::File: FileExt,
{
    type Image = FileDisk<R::File>;

    type Held = [R::File; 3];

    ghost opens = { λ _ _ _ disk. IsSome (file_of disk) };

    ghost is_none = { λ disk. file_of disk ≡ None };

    fn words(&self, alloc: Global) -> Result<Vec<Word>, AllocError> {
        read_words(self, alloc)
    }

    /// A clock that can't be read counts as one that stands at its start.
    fn time(&self) -> Duration {
        match SystemTime::now(self) {
            Ok(now) => now.duration_since(UNIX_EPOCH).unwrap_or(Duration::ZERO),
            Err(_) => Duration::ZERO,
        }
    }

    fn draw(&self, bytes: &mut [u8]) -> io::Result<()> {
        self.fill_bytes(bytes)
    }

    fn hold_streams(&self) -> io::Result<[R::File; 3]> {
        hold_streams(self)
    }

    /// A pipe is no disk: to open one would wait for who writes into it.
    fn open_name(&self, how: &OpenOptions, name: &str) -> io::Result<FileDisk<R::File>> {
        if is_pipe(self, name) {
            return Err(Error::from(ErrorKind::NotSeekable));
        }
        disk_of(self.alloc(), how.open(self, name)?)
    }

    fn no_image(&self) -> FileDisk<R::File> {
        FileDisk::unopened(self.alloc())
    }

    fn has_in_use(&self, word: &Word) -> bool {
        is_image_in_use(self, word)
    }
}

/// Whether the file of this name is a pipe.
fn is_pipe<R: Files>(system: &R, name: &str) -> bool {
    match fs::metadata(system, name) {
        Ok(attributes) => attributes.file_type().is_fifo(),
        Err(_) => false,
    }
}

/// The disk of an opened file. A directory is none, though it may be opened for reading.
fn disk_of<F: Read + Write + Seek + OpenFile + FileExt + Drop>(
    alloc: Global,
    file: F,
) -> io::Result<FileDisk<F>>
    ensures { IfOk result (λ disk. IsSome (file_of disk)) }
{
    if file.metadata()?.is_dir() {
        return Err(Error::from(ErrorKind::IsADirectory));
    }
    FileDisk::open(alloc, file)
}
