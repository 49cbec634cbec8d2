//! The input, read whole.

ghost use Rattle.std.specs.Prelude.{◌≡◌, ℕ, ◌+◌, ◌^◌, ◌≤◌, ◌<◌, ◌++◌, [], length, take, drop, Some, IfOk, IfErr, IfSome};
ghost use Rattle.std.specs.Option.{ForSome};
ghost use Rattle.xfs_shell.specs.Private.Inputs.{HasInputCause, IsFilledBuffer};
ghost use Rattle.xfs_disk.specs.Faults.{HasCause};

use std::alloc::Global;
use xfs_disk::{Failed, Source};

/// The most bytes of an input.
const MOST_BYTES: usize = 1_048_576;

/// Why there is no input.
#[derive(Clone, Copy)]
pub(crate) enum InputFault {
    Failed,
    /// It has more bytes than an input may have.
    Long,
    NoMemory,
}

/// The bytes of the source, up to its end. At most one byte more than an input may have is asked for.
pub(crate) fn read_input<S: Source>(alloc: Global, input: &mut S) -> Result<Vec<u8>, InputFault>
    ensures bytes { IfOk result (λ bytes. ForSome (S.left input.old) (λ left. (bytes.items ≡ left) × (length left ≤ 1048576))) }
    ensures short { IfOk result (λ bytes. length bytes.items ≤ 1048576) }
    ensures long { IfErr result (λ fault. ForSome (S.left input.old) (λ left. fault ≡ InputFault.Long → 1048576 < length left)) }
    ensures cause { HasInputCause (S.faults input.old) (S.faults input.new) result }
{
    read_up_to(alloc, input, MOST_BYTES)
}

/// The bytes of the source, up to its end, where they are not more than `most`.
fn read_up_to<S: Source>(alloc: Global, input: &mut S, most: usize) -> Result<Vec<u8>, InputFault>
    requires { most < 2 ^ 32 }
    ensures bytes { IfOk result (λ bytes. ForSome (S.left input.old) (λ left. (bytes.items ≡ left) × (length left ≤ most))) }
    ensures short { IfOk result (λ bytes. length bytes.items ≤ most) }
    ensures long { IfErr result (λ fault. ForSome (S.left input.old) (λ left. fault ≡ InputFault.Long → most < length left)) }
    ensures cause { HasInputCause (S.faults input.old) (S.faults input.new) result }
{
    let Ok(mut bytes) = vec![in alloc; 0; most + 1] else {
        return Err(InputFault::NoMemory);
    };
    match fill(input, bytes.as_mut_slice()) {
        Ok(Some(count)) => {
            bytes.truncate(count);
            Ok(bytes)
        }
        Ok(None) => Err(InputFault::Long),
        Err(Failed) => Err(InputFault::Failed),
    }
}

/// Moves the bytes of the source to the start of a buffer, and says how many there are, or `None` where they fill it.
fn fill<S: Source>(input: &mut S, buffer: &mut [u8]) -> Result<Option<usize>, Failed>
    ensures within { IfOk result (λ end. IfSome end (λ count. count < length buffer.new)) }
    ensures filled { IfOk result (λ end. ForSome (S.left input.old) (λ left. IsFilledBuffer left buffer.new end)) }
    ensures cause { HasCause (S.faults input.old) (S.faults input.new) result }
{
    let mut count = 0;
    while count < buffer.len() {
        match take_behind(input, buffer, count) {
            Ok(0) => return Ok(Some(count)),
            Ok(taken) => count += taken,
            Err(Failed) => return Err(Failed),
        }
    }
    Ok(None)
}

/// Moves bytes of the source behind the first `count` of a buffer.
fn take_behind<S: Source>(input: &mut S, buffer: &mut [u8], count: usize) -> Result<usize, Failed>
    requires { count < length buffer.old }
    ensures within { IfOk result (λ n. count + n ≤ length buffer.new) }
    ensures moved { IfOk result (λ n. ForSome (S.left input.old) (λ left.
        (n ≤ length left) × (take (count + n) buffer.new ≡ take count buffer.old ++ take n left) × (S.left input.new ≡ Some (drop n left)))) }
    ensures end { IfOk result (λ n. n ≡ 0 → ForSome (S.left input.old) (λ left. left ≡ [])) }
    ensures cause { HasCause (S.faults input.old) (S.faults input.new) result }
{
    match input.take(&mut buffer[count..]) {
        Ok(taken) => Ok(taken),
        Err(Failed) => Err(Failed),
    }
}
