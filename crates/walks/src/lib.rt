// The walks of a merge, as document 01's "Cells and the merge" has them: A trimmed to the box and, at each leaf of A that does not decide
// alone, B trimmed to that cell. A side's walk decides how planes lie to the cell; a node's walk asks for both sides, front first, and
// closes the node. Rows are put out in post-order and never taken back.
// `path` is the way to the cell, `room` is for its sections; the rows put out stand in `out`, and `next` is how many they are. A walk
// answers with the code of its tree and how many rows then stand, or refuses.
#![tactic(auto)]

mod operations;
mod rows;

ghost use Rattle.std.specs.Prelude.{◌≡◌, ◌+◌, ◌<◌};
ghost use Rattle.refusals.specs.Numbers.{numbered};
ghost use Rattle.walks.specs.Marks.{operation_of, mark_of, above_of, EndsAs};
ghost use Rattle.walks.specs.Walks.{StepIn, StepTold, SideIn, NodeIn, Did};

use cells::{Classified, classify, opposite, push};
pub use operations::{Code, Mark, Operation};
use planes::Meeting;
use polygons::Room;
use refusals::Refusal;
use rows::close;
pub use rows::{Operands, emit};

// ---- the kinds

// Where a walk is: the operation, B's root code, and, in B, the mark of the leaf of A above it.
#[derive(Clone, Copy)]
pub struct Turn {
    pub op: Operation,
    pub root: u16,
    pub above: Option<Mark>,
}

impl Turn {
    // What becomes of the mark m. In B, the operation's mark; in A, the mark that the operation gives whatever B says, or none: B is walked.
    fn ended(self, m: Mark) -> Option<Mark>
        ensures { EndsAs (operation_of self.op) (above_of self.above) (mark_of m) result }
    {
        match self.above {
            Some(a) => Some(self.op.mark(a, m)),
            None => {
                let alone = self.op.mark(m, Mark::In);
                (alone == self.op.mark(m, Mark::Out)).then_some(alone)
            }
        }
    }
}

// How a row's plane lies to a cell: it cuts it at a point, or it misses it and the walk goes on at the code of the cell's side.
#[derive(Clone, Copy)]
pub enum Reached {
    Cut(Meeting),
    Code(u16),
}

// ---- rows

// A row in the cell of the path: the place of a cut, or the code of the side that the cell lies on.
fn step(
    o: &Operands,
    above: Option<Mark>,
    path: &[i64],
    depth: usize,
    room: &mut Room,
    row: u16,
) -> Reached
    requires { StepIn o.now above path.now depth row }
    ensures { StepTold o.now above path.now depth row result }
{
    match classify(o.plane_of(above, row), path, depth, room) {
        Classified::Cut(x) => Reached::Cut(x),
        Classified::Front => Reached::Code(o.front(above, row)),
        Classified::Behind => Reached::Code(o.back(above, row)),
    }
}

// ---- the walks

// A row whose plane cuts the cell at x: both its sides, and the node closed.
#[cycle(node_walk_side_walk)]
fn node_walk(
    o: &Operands,
    t: Turn,
    path: &mut [i64],
    depth: usize,
    room: &mut Room,
    out: &mut [u16],
    next: usize,
    row: u16,
    x: Meeting,
) -> Result<(u16, usize), Refusal>
    requires { NodeIn o.now t path.old depth out.old next row x }
    ensures { Did o.now t path.old path.new depth out.old out.new next row (numbered result) }
{
    let p = o.plane_of(t.above, row);
    let f = o.front(t.above, row);
    push(path, depth, p, x);
    let (front, n1) = side_walk(o, t, path, depth + 1, room, out, next, f)?;
    let g = o.back(t.above, row);
    push(path, depth, opposite(p), x);
    let (back, n2) = side_walk(o, t, path, depth + 1, room, out, n1, g)?;
    close(out, n2, o.number_of(t.above, row), front, back)
}

// What a code becomes in the cell of the path: a row is kept where its plane cuts the cell, else the walk goes on at a child, an earlier row;
// at a leaf of A, B is walked.
#[cycle(node_walk_side_walk)]
pub fn side_walk(
    o: &Operands,
    t: Turn,
    path: &mut [i64],
    depth: usize,
    room: &mut Room,
    out: &mut [u16],
    next: usize,
    code: u16,
) -> Result<(u16, usize), Refusal>
    requires { SideIn o.now t path.old depth out.old next code }
    ensures { Did o.now t path.old path.new depth out.old out.new next code (numbered result) }
{
    match Code::from(code) {
        Code::Row(row) => match step(o, t.above, path, depth, room, row) {
            Reached::Cut(x) => node_walk(o, t, path, depth, room, out, next, row, x),
            Reached::Code(child) => side_walk(o, t, path, depth, room, out, next, child),
        },
        Code::Mark(m) => match t.ended(m) {
            Some(mark) => Ok((mark.into(), next)),
            None => {
                let below = Turn {
                    above: Some(m),
                    ..t
                };
                side_walk(o, below, path, depth, room, out, next, t.root)
            }
        },
    }
}
