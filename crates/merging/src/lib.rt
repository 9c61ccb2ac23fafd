// The merge of two solids, as document 01's "Cells and the merge" has it: lent tables in, lent tables out.
// The planes of A and B become one ascending list; the walks put rows out with its numbers. Then the planes that no row uses go, and the
// rows' numbers change.
#![tactic(auto)]

ghost use Rattle.std.specs.Prelude.{◌≤◌, length};
ghost use Rattle.scope.specs.Limits.{stated};
ghost use Rattle.refusals.specs.Numbers.{numbered};
ghost use Rattle.walks.specs.Marks.{operation_of};
ghost use Rattle.results.specs.Results.{ZerosIn};
ghost use Rattle.results.specs.Operands.{SoundIn};
ghost use Rattle.merging.specs.Promises.{SoundTold, JudgedTold, MergeTold};

use lists::JoinedList;
use polygons::Room;
use refusals::Refusal;
use results::{give, put_out};
use tables::{LentSolid, Solid, judge_rows};
use walks::{Operands, Operation, Turn, side_walk};

// ---- two solids

// The merge of two sound solids, put out into tables of zeros.
fn merge_sound(
    op: Operation,
    a: &LentSolid,
    b: &LentSolid,
    planes: &mut [i64],
    nodes: &mut [u16],
    path: &mut [i64],
) -> Result<Solid, Refusal>
    requires { SoundIn a.now b.now planes.old nodes.old path.old }
    ensures { SoundTold (operation_of op) a.now b.now planes.old planes.new nodes.old nodes.new (numbered result) }
{
    let mut joined = JoinedList::new();
    joined.join(a.planes, b.planes);
    let o = Operands {
        planes: joined.planes(),
        a: a.nodes,
        b: b.nodes,
        numbers: &joined.numbers,
    };
    let t = Turn {
        op,
        root: b.root,
        above: None,
    };
    let w = side_walk(&o, t, path, 0, &mut Room::new(), nodes, 0, a.root);
    put_out(o.planes, planes, nodes, w)
}

// ---- what is refused first

// The merge of two solids, put out into tables of zeros, or the first refusal: the operation, A, B, and then 8 and 9.
fn merge_judged(
    op: u8,
    a: &LentSolid,
    b: &LentSolid,
    planes: &mut [i64],
    nodes: &mut [u16],
    work: &mut [i64],
) -> Result<Solid, Refusal>
    requires zeros { ZerosIn planes.old nodes.old }
    requires long { stated ≤ length work.old }
    ensures { JudgedTold (length work.old) op a.now b.now planes.old planes.new nodes.old nodes.new (numbered result) }
{
    let operation = Operation::try_from(op)?;
    judge_rows(a)?;
    judge_rows(b)?;
    merge_sound(operation, a, b, planes, nodes, work)
}

// The merge of A and B by operation 1 union, 2 intersection, 3 A minus B: its planes and nodes, in the tables lent for them.
// Refused with 8 if the work table is shorter than zeros::WORK, 7 if the operation is unknown, the number of A, the number of B, 8 if the
// lent tables have too few rows or the tree over 1,000, and 9 if it uses over 64 planes. A refusal leaves all three tables zeros.
pub fn merge(
    op: u8,
    a: &LentSolid,
    b: &LentSolid,
    planes: &mut [i64],
    nodes: &mut [u16],
    work: &mut [i64],
) -> Result<Solid, Refusal>
    ensures { MergeTold op a.now.planes.now a.now.nodes.now a.now.root b.now.planes.now b.now.nodes.now b.now.root planes.old planes.new nodes.old nodes.new work.old work.new (numbered result) }
{
    let make = |planes: &mut [i64], nodes: &mut [u16], work: &mut [i64]| {
        merge_judged(op, a, b, planes, nodes, work)
    };
    give(planes, nodes, work, make)
}
