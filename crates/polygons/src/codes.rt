// The 27 codes: what a bound puts out, by the sides of the vertices before, at and after it.
ghost use Rattle.std.specs.Prelude.{◌≡◌, ◌<◌, length};
ghost use Rattle.scope.specs.Section.{table};
ghost use Rattle.theory.specs.Section.Index.{prior as the-prior, next as the-next};
ghost use Rattle.planes.specs.Values.{side_sign};
ghost use Rattle.polygons.specs.Values.{code, signal_is};
ghost use Rattle.polygons.specs.Tables.{said_at};

use crate::Signal;
use crate::Signal::{B, HB, Nothing};
use planes::Side;

// By the codes of three sides, the first of them counting nines.
static SIGNALS: [Signal; 27] = [
    Nothing, // ---
    Nothing, // --0
    HB, // --+
    Nothing, // -0-
    Nothing, // -00
    HB, // -0+
    B, // -+-
    B, // -+0
    B, // -++
    Nothing, // 0--
    Nothing, // 0-0
    HB, // 0-+
    Nothing, // 00-
    Nothing, // 000
    HB, // 00+
    B, // 0+-
    B, // 0+0
    B, // 0++
    Nothing, // +--
    Nothing, // +-0
    HB, // +-+
    Nothing, // +0-
    Nothing, // +00
    B, // +0+
    B, // ++-
    B, // ++0
    B, // +++
];

// The code of a side: 0 behind, 1 on and 2 in front.
pub fn code(s: Side) -> usize
    ensures { result ≡ code s }
{
    match s {
        Side::Back => 0,
        Side::On => 1,
        Side::Front => 2,
    }
}

// What three sides say.
pub fn signal(l: Side, m: Side, r: Side) -> Signal
    ensures { result ≡ signal_is (table (side_sign l) (side_sign m) (side_sign r)) }
{
    SIGNALS[code(l) * 9 + code(m) * 3 + code(r)]
}

// The index before i in a cycle of n.
pub fn prior(n: usize, i: usize) -> usize
    requires { i < n }
    ensures { (result ≡ the-prior n i) × (result < n) }
{
    if i == 0 {
        return n - 1;
    }
    i - 1
}

// The index after i in a cycle of n.
pub fn next(n: usize, i: usize) -> usize
    requires { i < n }
    ensures { (result ≡ the-next n i) × (result < n) }
{
    if i + 1 == n {
        return 0;
    }
    i + 1
}

// What the sides of the vertices say of bound i.
pub fn said(sides: &[Side], i: usize) -> Signal
    requires { i < length sides.now }
    ensures { result ≡ signal_is (said_at sides.now i) }
{
    let n = sides.len();
    signal(sides[prior(n, i)], sides[i], sides[next(n, i)])
}
