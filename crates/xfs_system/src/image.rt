//! The image file that a command line names.

ghost use Rattle.std.specs.Prelude.{◌≡◌, Bool, IsTrue, IfOk, OnErr};
ghost use Rattle.xfs_system.specs.Opening.{IsHad, IsImageOf, IsLost, IsTaken, IsTakenBy, for_reading, for_writing, image_word};

use crate::host::Host;
use crate::purpose::Purpose;
use std::fs::OpenOptions;
use std::io::{Eprint, Error, ErrorKind};
use std::{io, str};
use xfs_disk::Word;

/// Opens the image that the last word names, and tells where that can't be done: then each call of the disk
/// fails. `None` where the call may write an image that is in use, which is told too.
pub fn take_image<H: Host + Eprint>(host: &H, words: &[Word], purpose: Purpose) -> Option<H::Image>
    ensures { IsTaken (H.opens host.now) (H.refuses host.now) (H.says_used host.now) H.is_none (image_word words.now) purpose result }
{
    match words.last() {
        Some(word) => take_named(host, word, purpose),
        None => Some(host.no_image()),
    }
}

/// The same for the word that names the image.
fn take_named<H: Host + Eprint>(host: &H, word: &Word, purpose: Purpose) -> Option<H::Image>
    ensures { IsTakenBy (H.opens host.now) (H.refuses host.now) (H.says_used host.now) H.is_none word.now purpose result }
{
    match purpose {
        Purpose::Nothing => Some(host.no_image()),
        Purpose::Reads => Some(open_told(host, word, false)),
        Purpose::Writes => {
            if host.has_in_use(word) {
                let _ = eprintln!(host; "xfs: in use: {}", name_of(word));
                None
            } else {
                Some(open_told(host, word, true))
            }
        }
    }
}

/// The image's name, to be shown.
fn name_of(word: &Word) -> &str {
    str::from_utf8(word.bytes()).unwrap_or("?")
}

/// Opens the file that a word names, and tells where that can't be done.
fn open_told<H: Host + Eprint>(host: &H, word: &Word, writes: bool) -> H::Image
    ensures { IsImageOf (H.opens host.now) (H.refuses host.now) H.is_none word.now writes result }
{
    match open_image(host, word, writes) {
        Ok(image) => image,
        Err(error) => {
            let _ = eprintln!(host; "xfs: {}: {error}", name_of(word));
            host.no_image()
        }
    }
}

/// Opens the file that a word names, to be read and maybe written. Where it may be written, and only reading
/// can be had, for that.
fn open_image<H: Host>(host: &H, word: &Word, writes: bool) -> io::Result<H::Image>
    ensures had { IfOk result (IsHad (H.opens host.now) (H.refuses host.now) word.now writes) }
    ensures lost { OnErr result (IsLost (H.refuses host.now) word.now) }
{
    let Ok(name) = str::from_utf8(word.bytes()) else {
        return Err(Error::from(ErrorKind::InvalidFilename));
    };
    if writes && let Ok(image) = host.open_name(&for_writing(), name) {
        return Ok(image);
    }
    host.open_name(&for_reading(), name)
}

/// How a file is opened that is read alone.
fn for_reading() -> OpenOptions
    ensures { result ≡ for_reading }
{
    let mut options = OpenOptions::new();
    options.read(true);
    options
}

/// How a file is opened that is read and written.
fn for_writing() -> OpenOptions
    ensures { result ≡ for_writing }
{
    let mut options = OpenOptions::new();
    options.read(true).write(true);
    options
}
