// The normal form along the list of the boundary planes, as document 01's "Normal form" has it: a uniform cell is a leaf, any other is
// split by the first listed plane that cuts it. A plane that misses a cell misses its parts, and a plane that split it does too, so a part
// goes on in the list behind that plane. Rows are put out in post-order and never taken back, as in a merge.
// All is done for an operation of two trees A and B: `o` has their rows and the joined list of their planes, `boundary` the numbers in it
// of the boundary planes, ascending; `path` is the way to the cell, and `room` is room for a section; the rows put out stand in `out`, and
// `next` is how many they are. A form answers with the code of its tree and how many rows then stand, or refuses.
#![tactic(auto)]

ghost use Rattle.std.specs.Prelude.{length};
ghost use Rattle.refusals.specs.Numbers.{numbered};
ghost use Rattle.splits.specs.Splits.{MarkIn, MarkTold, ScanIn, FirstTold, CellIn, HalvesIn, Formed, Halved};

use borders::Pair;
use cells::{Classified, classify, opposite, push};
use planes::Meeting;
use polygons::Room;
use refusals::Refusal;
use walks::{Operands, Turn, emit, side_walk};

// The first listed plane that cuts a cell: its place in the list, and a point that shows it.
#[derive(Clone, Copy)]
pub struct First {
    pub place: usize,
    pub point: Meeting,
}

// ---- a cell

// The mark of all points of the cell of the path off the planes, or None if they have both marks: the merge in the cell gives it. With no
// room for a row, which is three numbers, the merge ends at the first row that it would put out.
fn mark_of(o: &Operands, pair: Pair, path: &mut [i64], depth: usize, room: &mut Room) -> Option<u16>
    requires { MarkIn o.now pair path.old depth }
    ensures { MarkTold o.now pair path.old path.new depth result }
{
    let mut none = [0u16; 1];
    let t = Turn {
        op: pair.op,
        root: pair.br,
        above: None,
    };
    let (m, _) = side_walk(o, t, path, depth, room, &mut none, 0, pair.ar).ok()?;
    Some(m)
}

// The first listed plane, from place k on, that cuts the cell of the path.
fn first_cut(
    planes: &[i64],
    boundary: &[u16],
    path: &[i64],
    depth: usize,
    room: &mut Room,
    k: usize,
) -> Option<First>
    requires { ScanIn planes.now boundary.now path.now depth }
    ensures { FirstTold planes.now boundary.now path.now depth k (length boundary.now) result }
{
    for place in k..boundary.len() {
        let p = tables::row(planes, boundary[place] as usize);
        if let Classified::Cut(point) = classify(p, path, depth, room) {
            return Some(First { place, point });
        }
    }
    None
}

// ---- the form

// A cell that a listed plane cuts: the forms of both halves, and the row.
#[cycle(form_cell_form_halves)]
fn form_halves(
    o: &Operands,
    boundary: &[u16],
    pair: Pair,
    path: &mut [i64],
    depth: usize,
    room: &mut Room,
    out: &mut [u16],
    next: usize,
    at: First,
) -> Result<(u16, usize), Refusal>
    requires { HalvesIn o.now boundary.now pair path.old depth out.old next at }
    ensures { Halved o.now boundary.now pair path.old path.new depth out.old out.new next at.place (numbered result) }
{
    let n = boundary[at.place];
    let p = tables::row(o.planes, n as usize);
    // The halves lie one deeper, and the list goes on behind this plane.
    let below = depth + 1;
    let rest = at.place + 1;
    push(path, depth, p, at.point);
    let (front, n1) = form_cell(o, boundary, pair, path, below, room, out, next, rest)?;
    push(path, depth, opposite(p), at.point);
    let (back, n2) = form_cell(o, boundary, pair, path, below, room, out, n1, rest)?;
    emit(out, n2, n, front, back)
}

// The form of the cell of the path by the listed planes from place k on. Some listed plane cuts a cell whose points have both marks, so the
// search for it does not fail.
#[cycle(form_cell_form_halves)]
pub fn form_cell(
    o: &Operands,
    boundary: &[u16],
    pair: Pair,
    path: &mut [i64],
    depth: usize,
    room: &mut Room,
    out: &mut [u16],
    next: usize,
    k: usize,
) -> Result<(u16, usize), Refusal>
    requires { CellIn o.now boundary.now pair path.old depth out.old next k }
    ensures { Formed o.now boundary.now pair path.old path.new depth out.old out.new next k (numbered result) }
{
    if let Some(m) = mark_of(o, pair, path, depth, room) {
        return Ok((m, next));
    }
    match first_cut(o.planes, boundary, path, depth, room, k) {
        Some(at) => form_halves(o, boundary, pair, path, depth, room, out, next, at),
        None => unreachable!(),
    }
}
