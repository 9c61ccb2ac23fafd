// Polygons of a section: the start, and a clip by one bound, as document 01's "Section of a region by a plane" has them.
// A polygon stands in a table, five numbers a corner: the index of the corner's bound, and the vertex x, y, z, w at which the bound's edge
// starts. An index below 6 is a side of the box, x-, x+, y-, y+, z-, z+; the half-space of row i has the index 6 + i.
#![tactic(auto)]

ghost use Rattle.std.specs.Prelude.{◌≡◌, pos, replicate};

mod clipping;
mod codes;
mod lines;
mod start;
mod table;

pub use clipping::clip_on;
pub use start::{begin, opened, way};
pub use table::{added, index_at};

// ---- the kinds

// Half-spaces in a table, in rows that are width numbers apart: each row begins with the four numbers of a half-space.
#[derive(Clone, Copy)]
pub struct Halves<'a> {
    pub numbers: &'a [i64],
    pub width: usize,
}

// Two tables of 135 corners: a polygon stands in one, and a clip puts out into the other.
#[derive(Drop)]
pub struct Room {
    pub first: [i64; 675],
    pub second: [i64; 675],
}

impl Room {
    // Both tables with zeros.
    pub fn new() -> Room
        ensures { result ≡ record { first = replicate 675 (pos 0); second = replicate 675 (pos 0) } }
    {
        Room {
            first: [0; 675],
            second: [0; 675],
        }
    }
}

// What a bound puts out: nothing, the bound, or the clipping half-space and the bound.
#[derive(Clone, Copy)]
pub enum Signal {
    Nothing,
    B,
    HB,
}

// Where the next corner is put out, and the index put out last.
#[derive(Clone, Copy)]
pub struct Place {
    pub at: usize,
    pub prev: usize,
}

// The line of two planes: the 2x2 minors of their numbers.
#[derive(Clone, Copy)]
pub struct Line {
    pub ab: i64,
    pub ac: i64,
    pub ad: i64,
    pub bc: i64,
    pub bd: i64,
    pub cd: i64,
}
