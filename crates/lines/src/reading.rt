// A solid that stands in a text, read line by line into lent tables.
#![tactic(auto, using(crate::proofs::Glue::told))]

ghost use Rattle.std.specs.Prelude.{◌+◌, ◌*◌, ◌≤◌, length};
ghost use Rattle.refusals.specs.Numbers.{numbered, lined};
ghost use Rattle.tables.specs.Promises.{Ready};
ghost use Rattle.lines.specs.Lines.{HeadLine, PlaneLine, NodeLine, EndLine};
ghost use Rattle.lines.specs.Reading.{Blank, PlanesIn, NodesIn, RowsIn, PlanesTold, NodesTold, RowsTold, rooms, SolidTold};

use crate::{Place, SolidRead};
use frames::Cursor;
use refusals::{LineRefusal, Refusal};
use tables::{Solid, judge_end, judge_head, judge_node, judge_plane};

// ---- one line

// The head at c, of a solid for which so many rows are lent.
fn read_head(
    text: &[u8],
    c: Cursor,
    plane_rows: usize,
    node_rows: usize,
) -> Result<(Solid, Cursor), Refusal>
    requires { c.at ≤ length text.now }
    ensures { HeadLine text.now c.at (record { plane_rows = plane_rows; node_rows = node_rows }) (numbered result) }
{
    let (head, next) = frames::head_at(text, c)?;
    judge_head(head.planes, head.nodes, head.root, plane_rows, node_rows)?;
    let solid = Solid {
        planes: head.planes,
        nodes: head.nodes,
        root: head.root,
    };
    Ok((solid, next))
}

// The plane at c, for row i.
pub fn read_plane(text: &[u8], c: Cursor, planes: &mut [i64], i: usize) -> Result<Cursor, Refusal>
    requires { (c.at ≤ length text.now) × (4 * i + 4 ≤ length planes.old) }
    ensures { PlaneLine text.now c.at i planes.old planes.new (numbered result) }
{
    let next = frames::plane_at(text, c, planes, i)?;
    judge_plane(planes, i)?;
    Ok(next)
}

// The node at c, for row i over n planes and the trees that stand; and how many trees stand then.
pub fn read_node(
    text: &[u8],
    c: Cursor,
    nodes: &mut [u16],
    n: usize,
    i: usize,
    work: &mut [i64],
    depth: usize,
) -> Result<(Cursor, usize), Refusal>
    requires { (c.at ≤ length text.now) × Ready nodes.old n i work.old depth }
    ensures { NodeLine text.now c.at n i nodes.old nodes.new work.old work.new depth (numbered result) }
{
    let next = frames::node_at(text, c, nodes, i)?;
    let trees = judge_node(nodes, n, i, work, depth)?;
    Ok((next, trees))
}

// The end at c, of n planes and the trees that stand.
pub fn read_end(
    text: &[u8],
    c: Cursor,
    n: usize,
    work: &[i64],
    depth: usize,
) -> Result<Cursor, Refusal>
    requires { (c.at ≤ length text.now) × (1000 + n ≤ length work.now) }
    ensures { EndLine text.now c.at n work.now depth (numbered result) }
{
    let next = frames::end_at(text, c)?;
    judge_end(n, work, depth)?;
    Ok(next)
}

// ---- line after line

// The n planes from a place on.
pub fn read_planes(
    text: &[u8],
    from: Place,
    n: usize,
    planes: &mut [i64],
) -> Result<Place, LineRefusal>
    requires { PlanesIn text.now from.cursor.at from.line n planes.old }
    ensures { PlanesTold text.now from.cursor.at from.line n planes.new (lined result) }
{
    let mut cursor = from.cursor;
    for i in 0..n {
        let line = from.line + i;
        cursor = read_plane(text, cursor, planes, i).map_err(|r| r.at(line))?;
    }
    let line = from.line + n;
    Ok(Place { cursor, line })
}

// The m nodes from a place on, over n planes; and how many trees they are.
pub fn read_nodes(
    text: &[u8],
    from: Place,
    n: usize,
    m: usize,
    nodes: &mut [u16],
    work: &mut [i64],
) -> Result<(Place, usize), LineRefusal>
    requires { NodesIn text.now from.cursor.at from.line n m nodes.old work.old }
    ensures { NodesTold text.now from.cursor.at from.line n m nodes.new work.new (lined result) }
{
    let mut cursor = from.cursor;
    let mut depth = 0;
    for i in 0..m {
        let line = from.line + i;
        let node = read_node(text, cursor, nodes, n, i, work, depth);
        (cursor, depth) = node.map_err(|r| r.at(line))?;
    }
    let line = from.line + m;
    Ok((Place { cursor, line }, depth))
}

// The rows of a solid and its end.
pub fn read_rows(
    text: &[u8],
    from: Place,
    s: Solid,
    planes: &mut [i64],
    nodes: &mut [u16],
    work: &mut [i64],
) -> Result<Place, LineRefusal>
    requires { RowsIn text.now from.cursor.at from.line s planes.old nodes.old work.old }
    ensures { RowsTold text.now from.cursor.at from.line s planes.new nodes.new (lined result) }
{
    let after = read_planes(text, from, s.planes, planes)?;
    let (end, depth) = read_nodes(text, after, s.planes, s.nodes, nodes, work)?;
    let cursor = read_end(text, end.cursor, s.planes, work, depth).map_err(|r| r.at(end.line))?;
    let line = end.line + 1;
    Ok(Place { cursor, line })
}

// The solid whose head stands at a place, read into tables of zeros.
pub fn read_solid(
    text: &[u8],
    from: Place,
    planes: &mut [i64],
    nodes: &mut [u16],
    work: &mut [i64],
) -> Result<SolidRead, LineRefusal>
    requires { (from.cursor.at ≤ length text.now) × (from.line ≤ 65536) × (1064 ≤ length work.old) × Blank planes.old nodes.old work.old }
    ensures { SolidTold text.now from.cursor.at from.line (rooms planes.old nodes.old) planes.new nodes.new (lined result) }
{
    let (solid, cursor) = read_head(text, from.cursor, planes.len() / 4, nodes.len() / 3).map_err(
        |r| r.at(from.line),
    )?;
    let line = from.line + 1;
    let next = read_rows(text, Place { cursor, line }, solid, planes, nodes, work)?;
    Ok(SolidRead { solid, next })
}
