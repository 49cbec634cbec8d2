//! Where the language stands, and how a command ends.

ghost use Rattle.std.specs.Prelude.{◌≡◌, ℕ, ◌<◌, ◌++◌, codes, None, IfOk, OnOk};
ghost use Rattle.xfs_commands.specs.declared.cursor.Verdict.TheVariants as Verdict;
ghost use Rattle.xfs_commands.specs.Commands.{goes, pops, session_of, IsEffect, IsSectorPlace, IsWithin};
ghost use Rattle.xfs_commands.specs.Cursors.{is_quit, pushed, settled_session};

use xfs_disk::NoMemory;
use xfs_objects::{ObjectPlace, ObjectType, Spot};

/// The current place, and the stack of places, the top last.
#[derive(Drop)]
pub struct Cursor {
    pub at: Option<ObjectPlace>,
    pub stack: Vec<ObjectPlace>,
}

/// How a command ended.
#[derive(Clone, Copy)]
pub enum Verdict {
    Done,
    /// It could not be run, and told why.
    Refused,
    /// No further command is to be run.
    Quit,
}

impl Verdict {
    /// Whether no further command is to be run.
    pub fn is_quit(self) -> bool
        ensures { result ≡ is_quit self }
    {
        match self {
            Verdict::Quit => true,
            Verdict::Done | Verdict::Refused => false,
        }
    }
}

impl Cursor {
    /// Goes to an object.
    pub fn go(&mut self, kind: ObjectType, spot: Spot)
        ensures session { session_of self.new ≡ (goes kind (spot.block, spot.sector) (session_of self.old)).session }
        ensures within { (n : ℕ) → IsWithin n (session_of self.old) → spot.block < n → spot.sector < 8 → IsWithin n (session_of self.new) }
    {
        self.at = Some(ObjectPlace {
            block: spot.block,
            sector: spot.sector,
            kind,
        });
    }

    /// Goes back to the place on top of the stack.
    #[tactic(auto, unfolding(crate::specs::Commands::pops))]
    pub fn pop(&mut self, text: &mut Vec<u8>) -> Result<Verdict, NoMemory>
        ensures within { (n : ℕ) → IsWithin n (session_of self.old) → IsWithin n (session_of self.new) }
        ensures effect { IfOk result (λ verdict. IsEffect (pops (session_of self.old)) verdict text.old.items text.new.items (session_of self.new) None) }
    {
        match self.stack.pop() {
            Some(place) => {
                self.at = Some(place);
                Ok(Verdict::Done)
            }
            None => refuse(text, "no address\n"),
        }
    }

    /// Puts a place onto the stack so often.
    #[tactic(auto, using(crate::proofs::Stacking::pushed_more))]
    pub fn save(&mut self, place: ObjectPlace, count: usize) -> Result<(), NoMemory>
        ensures session { OnOk result (session_of self.new ≡ pushed count place (session_of self.old)) }
        ensures within { (n : ℕ) → IsWithin n (session_of self.old) → IsSectorPlace n place → IsWithin n (session_of self.new) }
    {
        for _ in 0..count {
            self.stack.push(place)?;
        }
        Ok(())
    }

    /// Takes from the stack what lies above so many places, where a command was refused.
    pub fn drop_refused(&mut self, verdict: Verdict, kept: usize)
        ensures session { session_of self.new ≡ settled_session verdict kept (session_of self.old) }
        ensures within { (n : ℕ) → IsWithin n (session_of self.old) → IsWithin n (session_of self.new) }
    {
        match verdict {
            Verdict::Refused => self.stack.truncate(kept),
            Verdict::Done | Verdict::Quit => {}
        }
    }
}

/// Refuses a command with this line.
pub fn refuse(text: &mut Vec<u8>, line: &str) -> Result<Verdict, NoMemory>
    ensures verdict { IfOk result (λ verdict. verdict ≡ Verdict.Refused) }
    ensures text { OnOk result (text.new.items ≡ text.old.items ++ line.now) }
{
    text.extend_from_slice(line.as_bytes())?;
    Ok(Verdict::Refused)
}

/// Refuses a command with a reason and the word that it is about.
pub fn refuse_word(text: &mut Vec<u8>, reason: &str, word: &[u8]) -> Result<Verdict, NoMemory>
    ensures verdict { IfOk result (λ verdict. verdict ≡ Verdict.Refused) }
    ensures text { OnOk result (text.new.items ≡ text.old.items ++ (reason.now ++ word.now ++ codes "\n")) }
{
    text.extend_from_slice(reason.as_bytes())?;
    text.extend_from_slice(word)?;
    text.extend_from_slice(b"\n")?;
    Ok(Verdict::Refused)
}
