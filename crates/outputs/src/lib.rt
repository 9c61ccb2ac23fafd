// The solid that a merge or a normal form gave, written as text.
#![tactic(auto)]

ghost use Rattle.refusals.specs.Numbers.{numbered};
ghost use Rattle.outputs.specs.Outputs.{Refuses, RowsIn, RowsLent, WriteIn, WriteTold};

use refusals::Refusal;
use tables::{LentSolid, Solid};

// A refusal, as a number or as a `Refusal`, and a text of zeros.
pub fn refuse<E>(e: E, out: &mut [u8]) -> Result<usize, E>
    ensures { Refuses e out.old out.new result }
{
    zeros::clear(out);
    Err(e)
}

// The rows of a solid, which stand first in tables, lent.
pub fn rows_of<'a>(s: Solid, planes: &'a [i64], nodes: &'a [u16]) -> LentSolid<'a>
    requires { RowsIn s planes.now nodes.now }
    ensures { RowsLent s planes.now nodes.now result.planes.now result.nodes.now result.root }
{
    LentSolid {
        planes: &planes[0..4 * s.planes],
        nodes: &nodes[0..3 * s.nodes],
        root: s.root,
    }
}

// The solid that a call gave, whose rows stand in tables, written as text; or its refusal, and a text of zeros.
pub fn written(
    g: Result<Solid, Refusal>,
    planes: &[i64],
    nodes: &[u16],
    out: &mut [u8],
    work: &mut [i64],
) -> Result<usize, Refusal>
    requires { WriteIn (numbered g) planes.now nodes.now work.old }
    ensures { WriteTold (numbered g) planes.now nodes.now out.old out.new (numbered result) }
{
    match g {
        Ok(s) => solids::write(&rows_of(s, planes, nodes), out, work),
        Err(r) => refuse(r, out),
    }
}
