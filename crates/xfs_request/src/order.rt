//! Whether what was gathered stands in its order.

ghost use Rattle.std.specs.Prelude.{◌↔◌, IsTrue};
ghost use Rattle.xfs_request.specs.Slots.{StandByNumber};

use xfs_naming::Numbered;

/// Whether records stand in the order of their numbers.
pub(crate) fn stand_by_number<T: Numbered>(records: &[T]) -> bool
    ensures { IsTrue result ↔ StandByNumber T.key 0 records.now }
{
    let mut least = 0;
    for record in records {
        let number = record.number();
        if number < least {
            return false;
        }
        least = number;
    }
    true
}
