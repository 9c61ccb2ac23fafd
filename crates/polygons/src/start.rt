// The start of a section: the support's rectangle in the box.
ghost use Rattle.std.specs.Prelude.{◌≡◌, true, [], ◌∷◌, ◌++◌, ◌+◌, ◌<◌, ◌≤◌, leb, length};
ghost use Rattle.whole.specs.Tests.{◌and◌};
ghost use Rattle.scope.specs.Planes.{in_range, meet};
ghost use Rattle.scope.specs.Section.{way as the-way, rest};
ghost use Rattle.theory.specs.Section.{corner, corners};
ghost use Rattle.planes.specs.Values.{plane};
ghost use Rattle.polygons.specs.Values.{way_code, way_of, way_from, starts};
ghost use Rattle.polygons.specs.Tables.{box_side, look, read};
ghost use Rattle.polygons.specs.Asked.{Polygon, Supported};

use crate::Halves;
use crate::clipping::clip_on;
use crate::table::{box_side, put};
use planes::{Plane, size};

// A way, or the one after it if the coefficient is negative.
pub fn by_sign(a: i64, w: usize) -> usize
    requires { w < 6 }
    ensures { result ≡ way_from a w }
{
    if a < 0 {
        return w + 1;
    }
    w
}

// Whether x is at least y and at least z.
pub fn greatest(x: u64, y: u64, z: u64) -> bool
    ensures { result ≡ (leb y x and leb z x) }
{
    y <= x && z <= x
}

// The way of a support: the axis of the largest coefficient in size, x before y before z on a tie, and its sign.
pub fn way(s: Plane) -> usize
    ensures { result ≡ way_code (the-way (plane s)) }
{
    let x = size(s.a);
    let y = size(s.b);
    let z = size(s.c);
    if greatest(x, y, z) {
        return by_sign(s.a, 0);
    }
    if z <= y {
        return by_sign(s.b, 2);
    }
    by_sign(s.c, 4)
}

// Puts corner i of the start into t: that of the side of the box of index k, which comes after the side of index j.
#[inline(always)]
pub fn edge(s: Plane, j: usize, k: usize, t: &mut [i64], i: usize)
    requires { (in_range (plane s) ≡ true) × (j < 6) × (k < 6) × (i < 4) × (20 ≤ length t.old) }
    ensures { read t.new (i + 1) ≡ read t.old i ++ corner k (meet (plane s) (box_side j) (box_side k)) ∷ [] }
{
    put(t, i, k, planes::minors(s, box_side(j), box_side(k)));
}

// Puts the corners of four sides of the box, given by their indices, into t.
#[inline(always)]
pub fn four(s: Plane, a: usize, b: usize, c: usize, d: usize, t: &mut [i64])
    requires { (in_range (plane s) ≡ true) × (a < 6) × (b < 6) × (c < 6) × (d < 6) × (20 ≤ length t.old) }
    ensures { read t.new 4 ≡ corners (plane s) box_side (a ∷ b ∷ c ∷ d ∷ []) }
{
    edge(s, d, a, t, 0);
    edge(s, a, b, t, 1);
    edge(s, b, c, t, 2);
    edge(s, c, d, t, 3);
}

// Puts the four corners of the start into t.
// By a match and not a table: each arm is compiled for its own four sides, and their zeros leave little of the minors.
pub fn begin(s: Plane, w: usize, t: &mut [i64])
    requires { (in_range (plane s) ≡ true) × (w < 6) × (20 ≤ length t.old) }
    ensures { read t.new 4 ≡ corners (plane s) box_side (starts (way_of w)) }
{
    match w {
        0 => four(s, 4, 3, 5, 2, t), // along x: z-, y+, z+, y-
        1 => four(s, 2, 5, 3, 4, t), // against x: y-, z+, y+, z-
        2 => four(s, 0, 5, 1, 4, t), // along y: x-, z+, x+, z-
        3 => four(s, 4, 1, 5, 0, t), // against y: z-, x+, z+, x-
        4 => four(s, 2, 1, 3, 0, t), // along z: y-, x+, y+, x-
        _ => four(s, 0, 3, 1, 2, t), // against z: x-, y+, x+, y-
    }
}

// The start, clipped by the remaining axis's minus and plus plane, k and k + 1: how many corners it has.
pub fn opened(s: Plane, hs: &Halves, t: &mut [i64], out: &mut [i64]) -> usize
    requires { Supported (plane s) t.old out.old }
    ensures { Polygon (plane s) (look hs.now.numbers.now hs.now.width) 6 (rest (the-way (plane s))) t.new result }
{
    let w = way(s);
    begin(s, w, t);
    let k = w / 2 * 2;
    let n = clip_on(s, hs, k, t, 4, out);
    clip_on(s, hs, k + 1, t, n, out)
}
