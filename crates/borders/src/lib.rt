// The boundary planes of an operation of two trees A and B over one joined list of planes, as document 01's "Normal form" has them. A walk
// on the plane tells each (module `sides`).
// `o` has the rows of both trees and the joined list, `path` is the way to a cell, and `room` is room for a section.
#![tactic(auto)]

mod sides;

ghost use Rattle.borders.specs.Borders.{BoundaryIn, BoundaryTold, BordersIn, BordersTold};

use cuts::cut;
use polygons::Room;
use sides::side_on;
use walks::{Mark, Operands, Operation};

// ---- the kinds

// What is put into normal form: an operation, and the root codes of A and of B.
#[derive(Clone, Copy)]
pub struct Pair {
    pub op: Operation,
    pub ar: u16,
    pub br: u16,
}

// Where a walk on a plane is: what is walked, the plane's number in the joined list, in B the mark of the leaf of A above it, and the
// operation's mark in front of the plane, or None while fronts are taken.
#[derive(Clone, Copy)]
pub struct Stage {
    pub pair: Pair,
    pub plane: u16,
    pub above: Option<Mark>,
    pub front: Option<Mark>,
}

// How a row's plane lies to another plane in a cell: that plane has points in front only, behind only, or on both sides.
#[derive(Clone, Copy)]
pub enum Parted {
    Front,
    Behind,
    Both,
}

// What follows a leaf in a walk on a plane: the next walk, and its root code; or all four are done, and tell whether the marks of the two
// sides differ.
#[derive(Clone, Copy)]
pub enum Next {
    Walk(Stage, u16),
    Done(bool),
}

// ---- the list of the boundary planes

// Whether plane i of the joined list is a boundary plane.
fn is_boundary(o: &Operands, pair: Pair, path: &mut [i64], room: &mut Room, i: usize) -> bool
    requires { BoundaryIn o.now pair path.old i }
    ensures { BoundaryTold o.now pair i result }
{
    if cut(tables::row(o.planes, i), path, 0, room).is_none() {
        return false; // it misses the box
    }
    let t = Stage {
        pair,
        plane: i as u16,
        above: None,
        front: None,
    };
    side_on(o, t, path, 0, room, pair.ar)
}

// Lists the boundary planes, by their numbers in the joined list: how many they are.
pub fn list_boundary(
    o: &Operands,
    pair: Pair,
    path: &mut [i64],
    room: &mut Room,
    boundary: &mut [u16],
) -> usize
    requires { BordersIn o.now pair path.old boundary.old }
    ensures { BordersTold o.now pair boundary.new result }
{
    let mut k: usize = 0;
    for i in 0..o.planes.len() / 4 {
        if is_boundary(o, pair, path, room, i) {
            boundary[k] = i as u16;
            k += 1;
        }
    }
    k
}
