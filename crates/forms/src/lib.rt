// The normal form of a solid, as document 01's "Normal form" has it: lent tables in, lent tables out.
// All is done for an operation of two solids A and B over one joined list of planes; a single solid is its union with the empty solid.
// First the boundary planes are listed, then the box is split by them, and the planes that rows use, which are the boundary planes, become
// the form's list.
#![tactic(auto)]

ghost use Rattle.std.specs.Prelude.{◌≤◌, length};
ghost use Rattle.scope.specs.Limits.{stated};
ghost use Rattle.refusals.specs.Numbers.{numbered};
ghost use Rattle.walks.specs.Marks.{operation_of};
ghost use Rattle.results.specs.Results.{ZerosIn};
ghost use Rattle.results.specs.Operands.{SoundIn};
ghost use Rattle.forms.specs.Promises.{BothTold, SingleIn, SingleTold, JudgedTold, NormalTold};

use borders::{Pair, list_boundary};
use lists::JoinedList;
use polygons::Room;
use refusals::Refusal;
use results::{give, put_out};
use splits::form_cell;
use tables::{LentSolid, Solid, judge_rows};
use walks::{Operands, Operation};

// ---- two solids

// The normal form of an operation of two sound solids, put out into tables of zeros.
fn form_sound(
    op: Operation,
    a: &LentSolid,
    b: &LentSolid,
    planes: &mut [i64],
    nodes: &mut [u16],
    path: &mut [i64],
) -> Result<Solid, Refusal>
    requires { SoundIn a.now b.now planes.old nodes.old path.old }
    ensures { BothTold (operation_of op) a.now b.now planes.old planes.new nodes.old nodes.new (numbered result) }
{
    let mut joined = JoinedList::new();
    joined.join(a.planes, b.planes);
    let o = Operands {
        planes: joined.planes(),
        a: a.nodes,
        b: b.nodes,
        numbers: &joined.numbers,
    };
    let pair = Pair {
        op,
        ar: a.root,
        br: b.root,
    };
    let mut room = Room::new();
    let mut boundary = [0u16; 2 * Solid::MOST_PLANES];
    let k = list_boundary(&o, pair, path, &mut room, &mut boundary);
    let w = form_cell(&o, &boundary[0..k], pair, path, 0, &mut room, nodes, 0, 0);
    put_out(o.planes, planes, nodes, w)
}

// ---- a single solid

// The normal form of a sound solid, put out into tables of zeros: that of its union with the empty solid, which has no planes, no nodes and
// the mark OUT.
fn form_single(
    a: &LentSolid,
    planes: &mut [i64],
    nodes: &mut [u16],
    path: &mut [i64],
) -> Result<Solid, Refusal>
    requires { SingleIn a.now planes.old nodes.old path.old }
    ensures { SingleTold a.now planes.old planes.new nodes.old nodes.new (numbered result) }
{
    let empty = LentSolid {
        planes: &[],
        nodes: &[],
        root: Solid::OUT,
    };
    form_sound(Operation::Union, a, &empty, planes, nodes, path)
}

// The normal form of a solid, put out into tables of zeros, or the first refusal: the solid, and then 8.
fn normal_judged(
    a: &LentSolid,
    planes: &mut [i64],
    nodes: &mut [u16],
    work: &mut [i64],
) -> Result<Solid, Refusal>
    requires zeros { ZerosIn planes.old nodes.old }
    requires long { stated ≤ length work.old }
    ensures { JudgedTold (length work.old) a.now planes.old planes.new nodes.old nodes.new (numbered result) }
{
    judge_rows(a)?;
    form_single(a, planes, nodes, work)
}

// The normal form of a solid: its planes and nodes, in the tables lent for them.
// Refused with 8 if the work table is shorter than zeros::WORK, the number of the solid, and 8 if the lent tables have too few rows or the
// form over 1,000. A refusal leaves all three tables zeros.
pub fn normal(
    a: &LentSolid,
    planes: &mut [i64],
    nodes: &mut [u16],
    work: &mut [i64],
) -> Result<Solid, Refusal>
    ensures { NormalTold a.now.planes.now a.now.nodes.now a.now.root planes.old planes.new nodes.old nodes.new work.old work.new (numbered result) }
{
    let make = |planes: &mut [i64], nodes: &mut [u16], work: &mut [i64]| {
        normal_judged(a, planes, nodes, work)
    };
    give(planes, nodes, work, make)
}
