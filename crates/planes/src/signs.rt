// Signs, as sides: Front is plus, On is nought and Back is minus.
ghost use Rattle.std.specs.Prelude.{◌≡◌};
ghost use Rattle.whole.specs.Sign.{sgn};
ghost use Rattle.planes.specs.Values.{side_is, side_then, side_times};

use crate::Side;
use std::cmp::Ordering;

// The sign of a number, as a side.
pub fn sign(s: i64) -> Side
    ensures { result ≡ side_is (sgn s) }
{
    match s.cmp(&0) {
        Ordering::Less => Side::Back,
        Ordering::Equal => Side::On,
        Ordering::Greater => Side::Front,
    }
}

// The first of two signs that is not zero.
pub fn first_sign(s: Side, t: Side) -> Side
    ensures { result ≡ side_then s t }
{
    match s {
        Side::On => t,
        _ => s,
    }
}

// The product of two signs.
pub fn times(s: Side, t: Side) -> Side
    ensures { result ≡ side_times s t }
{
    match s {
        Side::Front => t,
        Side::On => Side::On,
        Side::Back => match t {
            Side::Front => Side::Back,
            Side::On => Side::On,
            Side::Back => Side::Front,
        },
    }
}
