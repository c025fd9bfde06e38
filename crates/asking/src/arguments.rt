ghost use Rattle.std.specs.Prelude.{◌≡◌, length, IfOk, Err};
ghost use Rattle.asking.specs.Arguments.{Within, Takes, IsOver};

use crate::numbers::next_number;
use std::io::Read;

// Why there is no argument: the memory lent for it is too small, or the input ends before it does.
#[derive(Clone, Copy, Debug, PartialEq, Eq)]
pub enum ArgumentError {
    TooLong,
    Ended,
}

// Passes over bytes of the input, a part at a time: whether it had so many.
fn pass(input: &mut impl Read, many: u64) -> bool {
    let mut part = [0u8; 4096];
    for _ in 0..many / 4096 {
        if input.read_exact(&mut part).is_err() {
            return false;
        }
    }
    input
        .read_exact(&mut part[..(many % 4096) as usize])
        .is_ok()
}

// The next argument, in the part of the lent memory that holds it. The bound is of the result, as a slice of the room has it.
pub fn next_argument<'a, R: Read>(
    input: &mut R,
    room: &'a mut [u8],
) -> Result<&'a [u8], ArgumentError>
    ensures within { Within (length room.old) result }
    ensures read { IfOk result (λ argument. Takes (R.remaining input.old) (R.remaining input.new) argument.now) }
    ensures too_long { result ≡ Err ArgumentError.TooLong → IsOver (length room.old) (R.remaining input.old) }
{
    let many = next_number(input).ok_or(ArgumentError::Ended)?;
    // `as`, since std has no `From` between `u64` and `usize`, and a `try_from` could not fail.
    if (room.len() as u64) < many {
        return Err(if pass(input, many) {
            ArgumentError::TooLong
        } else {
            ArgumentError::Ended
        });
    }
    let argument = &mut room[..many as usize];
    input
        .read_exact(argument)
        .map_err(|_| ArgumentError::Ended)?;
    Ok(argument)
}
