//! The first of some laws that is broken.

ghost use Rattle.std.specs.Prelude.{◌≡◌, [], ◌∷◌};
ghost use Rattle.xfs_volume.specs.Laws.{first_broken, law_at};

use xfs_volume::Law;

/// The first of these laws whose held number is not the one that is due.
#[tactic(auto, unfolding(xfs_volume::specs::Laws::first_broken))]
pub fn first_broken(laws: &[Law]) -> Option<Law>
    ensures { result ≡ first_broken laws.now }
{
    for law in laws {
        if law.held != law.due {
            return Some(*law);
        }
    }
    None
}

/// The law at a place, where what is held there is not what is due.
#[tactic(auto, unfolding(xfs_volume::specs::Laws::first_broken))]
pub fn broken(law: u8, place: u64, held: u128, due: u128) -> Option<Law>
    ensures { result ≡ first_broken (law_at law place held due ∷ []) }
{
    if held == due {
        return None;
    }
    Some(Law {
        law,
        place,
        held,
        due,
    })
}
