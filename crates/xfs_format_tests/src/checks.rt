//! Comparisons of tests. Each is proved once, where a macro would be proved at every use.

ghost use Rattle.std.specs.Prelude.{◌≡◌, Ok, IsTrue};

use std::fmt::Debug;
use std::process::Abort;

/// Fails where two values are not equal.
pub fn compare<T: PartialEq + Debug>(rt: &impl Abort, held: &T, due: &T) {
    assert_eq!(rt; *held, *due);
}

/// The same, and says at which place.
pub fn compare_at<T: PartialEq + Debug, N: Debug>(rt: &impl Abort, held: &T, due: &T, place: &N) {
    assert_eq!(rt; *held, *due, "{place:?}");
}

/// Fails where two values are not equal. They are passed by value, since a loan costs the check of each caller more than the call does.
pub fn equal<T: PartialEq + Debug + Copy>(rt: &impl Abort, held: T, due: T) {
    compare(rt, &held, &due)
}

/// The same, and says at which place.
pub fn equal_at<T: PartialEq + Debug + Copy>(rt: &impl Abort, held: T, due: T, place: &str) {
    compare_at(rt, &held, &due, &place)
}

/// Fails where what a case needs does not hold.
pub fn sure(rt: &impl Abort, holds: bool, case: &str)
    ensures { IsTrue holds }
{
    if !holds {
        panic!(rt; "not as it has to be: {case}");
    }
}

/// The value of a call that has to succeed. A test that says so has one way to its end, where `?` has as many as there are
/// calls, on each of which all that is live is dropped.
pub fn must<T, E: Drop>(rt: &impl Abort, held: Result<T, E>) -> T
    ensures { held ≡ Ok result }
{
    match held {
        Ok(value) => value,
        Err(_) => panic!(rt; "a call fails that has to succeed"),
    }
}
