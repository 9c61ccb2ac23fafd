// The clip of a polygon by the bound of an index.
ghost use Rattle.std.specs.Prelude.{◌≡◌, true, false, [], ◌∷◌, ℕ, ◌+◌, ◌*◌, ◌<◌, ◌≤◌, length};
ghost use Rattle.whole.specs.Sign.{plus};
ghost use Rattle.theory.specs.Section.{index, put_last, put_corner};
ghost use Rattle.planes.specs.Values.{plane, side_is};
ghost use Rattle.polygons.specs.Values.{signal_of};
ghost use Rattle.polygons.specs.Tables.{look, corner_at, last_to};
ghost use Rattle.polygons.specs.Asked.{side_of, SideIn, Looked, CornerIn, Puts, pair_of, PairIn, StepIn, EmitIn, Emitted, ClipIn, ClippedOn};

use crate::codes::said;
use crate::lines::{line, on_line};
use crate::table::{copy, index_at, put, vertex_at};
use crate::{Halves, Place, Signal};
use planes::{Plane, Side};

// The side of h on which the vertex of corner i lies.
pub fn side_at(h: Plane, t: &[i64], i: usize) -> Side
    requires { SideIn h t.now i }
    ensures { result ≡ side_is (side_of h t.now i) }
{
    planes::sign(h.sum_at(vertex_at(t, i)))
}

// Whether the vertices of the first n corners all lie in front of h.
pub fn all_front(h: Plane, t: &[i64], n: usize) -> bool
    requires { (i : ℕ) → i < n → SideIn h t.now i }
    ensures yes { result ≡ true → (i : ℕ) → i < n → side_of h t.now i ≡ plus }
    ensures no { result ≡ false → ((i : ℕ) → i < n → side_of h t.now i ≡ plus) → ⊥ }
{
    for i in 0..n {
        let Side::Front = side_at(h, t, i) else {
            return false;
        };
    }
    true
}

// The side of each corner, into a table as long as they are many, and whether any is in front.
pub fn sides_of(h: Plane, t: &[i64], sides: &mut [Side]) -> bool
    requires { (i : ℕ) → i < length sides.old → SideIn h t.now i }
    ensures { Looked h t.now sides.new result }
{
    let mut front = false;
    for i in 0..sides.len() {
        let s = side_at(h, t, i);
        sides[i] = s;
        front = front || matches!(s, Side::Front);
    }
    front
}

// The index put out last by the corners: that of the last corner that puts anything out.
pub fn last_out(sides: &[Side], t: &[i64]) -> usize
    requires { (i : ℕ) → i < length sides.now → CornerIn t.now i }
    ensures { result ≡ last_to sides.now t.now 0 (length sides.now) }
{
    for i in (0..sides.len()).rev() {
        let Signal::Nothing = said(sides, i) else {
            return index_at(t, i);
        };
    }
    0
}

// Puts corner i out as it is.
pub fn keep(t: &[i64], i: usize, out: &mut [i64], at: usize) -> Place
    requires { CornerIn t.now i × (5 * at + 5 ≤ length out.old) }
    ensures { Puts out.old out.new at (corner_at t.now i ∷ []) (index (corner_at t.now i)) result }
{
    let prev = index_at(t, i);
    put(out, at, prev, vertex_at(t, i));
    Place { at: at + 1, prev }
}

// A clip: the support of the polygon, the half-spaces, and the index of the bound that it is by.
#[derive(Clone, Copy)]
pub struct Clip<'a> {
    support: Plane,
    halves: Halves<'a>,
    by: usize,
}

impl Clip<'_> {
    // Puts out the clipping bound, after the bound put out last, and then the bound of index b.
    pub fn pair(&self, b: usize, out: &mut [i64], p: Place) -> Place
        requires { PairIn (plane self.now.support) self.now.halves.numbers.now self.now.halves.width self.now.by p.prev b out.old p.at }
        ensures { Puts out.old out.new p.at (pair_of (plane self.now.support) (look self.now.halves.numbers.now self.now.halves.width) self.now.by p.prev b) b result }
    {
        let s = self.support;
        let h = self.halves.bound(self.by);
        // The point of s, prev and h is that of h, s and prev: both new vertices lie on one line, whose planes are exchanged for the first.
        put(
            out,
            p.at,
            self.by,
            on_line(line(h, s), self.halves.bound(p.prev)),
        );
        put(out, p.at + 1, b, on_line(line(s, h), self.halves.bound(b)));
        Place {
            at: p.at + 2,
            prev: b,
        }
    }

    // What corner i puts out.
    pub fn step(&self, g: Signal, t: &[i64], i: usize, out: &mut [i64], p: Place) -> Place
        requires { StepIn (plane self.now.support) self.now.halves.numbers.now self.now.halves.width self.now.by g t.now i out.old p }
        ensures { Puts out.old out.new p.at (put_corner (plane self.now.support) (look self.now.halves.numbers.now self.now.halves.width) self.now.by (signal_of g) p.prev (corner_at t.now i)) (put_last (signal_of g) p.prev (corner_at t.now i)) result }
    {
        match g {
            Signal::Nothing => p,
            Signal::B => keep(t, i, out, p.at),
            Signal::HB => self.pair(index_at(t, i), out, p),
        }
    }

    // What the corners put out, by their sides: how many corners.
    pub fn emit(&self, t: &[i64], sides: &[Side], out: &mut [i64]) -> usize
        requires { EmitIn (plane self.now.support) self.now.halves.numbers.now self.now.halves.width self.now.by t.now sides.now out.old }
        ensures { Emitted (plane self.now.support) (look self.now.halves.numbers.now self.now.halves.width) self.now.by t.now sides.now out.new result }
    {
        let mut p = Place {
            at: 0,
            prev: last_out(sides, t),
        };
        for i in 0..sides.len() {
            p = self.step(said(sides, i), t, i, out, p);
        }
        p.at
    }
}

// The clip of the n corners in t by the bound of index k, left in t: how many corners it has. What it puts out goes through the table out.
// Most clips of a section leave the polygon as it is: these are told before a table of sides is made.
pub fn clip_on(s: Plane, hs: &Halves, k: usize, t: &mut [i64], n: usize, out: &mut [i64]) -> usize
    requires { ClipIn (plane s) hs.now.numbers.now hs.now.width k t.old n out.old }
    ensures { ClippedOn (plane s) (look hs.now.numbers.now hs.now.width) k t.old n t.new result }
{
    let h = hs.bound(k);
    if all_front(h, t, n) {
        return n;
    }
    let mut table = [Side::On; 135];
    let sides = &mut table[..n];
    if !sides_of(h, t, sides) {
        return 0;
    }
    let clip = Clip {
        support: s,
        halves: *hs,
        by: k,
    };
    let m = clip.emit(t, sides, out);
    copy(out, t, 5 * m);
    m
}
