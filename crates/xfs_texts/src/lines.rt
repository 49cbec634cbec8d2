//! Labelled numbers and plain text, put piece by piece.

ghost use Rattle.std.specs.Prelude.{◌≡◌, ◌++◌, length, map};
ghost use Rattle.xfs_texts.specs.Private.Labels.{label_now};
ghost use Rattle.xfs_texts.specs.Lines.{PutsText, line, number_text};

use itoa::Buffer;
use xfs_disk::{Failed, Sink};
use xfs_objects::{MOST_DIGITS, write_hexadecimal};

/// A number, by the form in which it is put.
#[derive(Clone, Copy)]
pub enum Number {
    Decimal(u64),
    Large(u128),
    Hexadecimal(u64),
    /// A byte that is put as it is: a letter.
    Letter(u8),
}

/// Puts numbers with a label before each, and what ends their line.
#[tactic(auto, unfolding(crate::specs::Lines::line))]
pub fn put_line<S: Sink>(sink: &mut S, numbers: &[(&str, Number)], end: &str) -> Result<(), Failed>
    ensures { PutsText (S.took sink.old) (S.took sink.new) (S.faults sink.old) (S.faults sink.new) (line (map label_now numbers.now) end.now) result }
{
    for (label, number) in numbers {
        match put_labelled(sink, label, *number) {
            Ok(()) => {}
            Err(Failed) => return Err(Failed),
        }
    }
    put_text(sink, end)
}

/// Puts a label and a number.
fn put_labelled<S: Sink>(sink: &mut S, label: &str, number: Number) -> Result<(), Failed>
    ensures { PutsText (S.took sink.old) (S.took sink.new) (S.faults sink.old) (S.faults sink.new) (label.now ++ number_text number) result }
{
    match put_text(sink, label) {
        Ok(()) => {}
        Err(Failed) => return Err(Failed),
    }
    put_number(sink, number)
}

/// Puts a number in its base.
fn put_number<S: Sink>(sink: &mut S, number: Number) -> Result<(), Failed>
    ensures { PutsText (S.took sink.old) (S.took sink.new) (S.faults sink.old) (S.faults sink.new) (number_text number) result }
{
    match number {
        Number::Decimal(number) => put_text(sink, Buffer::new().format(number)),
        Number::Large(number) => put_text(sink, Buffer::new().format(number)),
        Number::Hexadecimal(number) => {
            let mut digits = [0; MOST_DIGITS];
            let start = write_hexadecimal(&mut digits, number);
            sink.put(&digits[start..])
        }
        Number::Letter(letter) => sink.put(&[letter]),
    }
}

/// Puts a text.
pub fn put_text<S: Sink>(sink: &mut S, text: &str) -> Result<(), Failed>
    ensures { PutsText (S.took sink.old) (S.took sink.new) (S.faults sink.old) (S.faults sink.new) text.now result }
{
    sink.put(text.as_bytes())
}
