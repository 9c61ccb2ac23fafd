// Frames, read: each call gives the frame that is due at a cursor, and the cursor after its line.
#![tactic(auto, using(crate::proofs::Told::told), unfolding(scope::specs::Text::word))]

ghost use Rattle.std.specs.Prelude.{◌+◌, ◌*◌, ◌≤◌, length};
ghost use Rattle.refusals.specs.Numbers.{numbered};
ghost use Rattle.frames.specs.Promises.{HeadTold, PlaneTold, NodeTold, EndTold, OperationTold, AfterTold};

use crate::line::{due, line_at};
use crate::{Cursor, Head, Kind};
use planes::Plane;
use refusals::Refusal;

// The head at c.
pub fn head_at(text: &[u8], c: Cursor) -> Result<(Head, Cursor), Refusal>
    requires { c.at ≤ length text.now }
    ensures { HeadTold text.now c.at (numbered result) }
{
    let ([_, n, m1, m0, r1, r0], next) = due::<6>(text, c, Kind::Head)?;
    let head = Head {
        planes: n as usize,
        nodes: u16::from_be_bytes([m1, m0]) as usize,
        root: u16::from_be_bytes([r1, r0]),
    };
    Ok((head, next))
}

// The operation at c: its code, whether known or not.
pub fn operation_at(text: &[u8], c: Cursor) -> Result<(u8, Cursor), Refusal>
    requires { c.at ≤ length text.now }
    ensures { OperationTold text.now c.at (numbered result) }
{
    let ([_, code], next) = due::<2>(text, c, Kind::Operation)?;
    Ok((code, next))
}

// The end at c.
pub fn end_at(text: &[u8], c: Cursor) -> Result<Cursor, Refusal>
    requires { c.at ≤ length text.now }
    ensures { EndTold text.now c.at (numbered result) }
{
    let (_, next) = due::<1>(text, c, Kind::End)?;
    Ok(next)
}

// The text after the end: there may be none.
pub fn after_end(text: &[u8], c: Cursor) -> Result<(), Refusal>
    requires { c.at ≤ length text.now }
    ensures { AfterTold text.now c.at (numbered result) }
{
    match line_at(text, c.at)? {
        None => Ok(()),
        Some(_) => Err(Refusal::NotDue),
    }
}

// The plane at c, stored in row i; a refusal leaves the table as it was.
pub fn plane_at(text: &[u8], c: Cursor, planes: &mut [i64], i: usize) -> Result<Cursor, Refusal>
    requires { (c.at ≤ length text.now) × (4 * i + 4 ≤ length planes.old) }
    ensures { PlaneTold text.now c.at i planes.old planes.new (numbered result) }
{
    let ([_, a1, a0, b1, b0, c1, c0, d3, d2, d1, d0], next) = due::<11>(text, c, Kind::Plane)?;
    let p = Plane {
        a: i64::from(i16::from_be_bytes([a1, a0])),
        b: i64::from(i16::from_be_bytes([b1, b0])),
        c: i64::from(i16::from_be_bytes([c1, c0])),
        d: i64::from(i32::from_be_bytes([d3, d2, d1, d0])),
    };
    p.store(planes, 4 * i);
    Ok(next)
}

// The node at c, stored in row i; a refusal leaves the table as it was.
pub fn node_at(text: &[u8], c: Cursor, nodes: &mut [u16], i: usize) -> Result<Cursor, Refusal>
    requires { (c.at ≤ length text.now) × (3 * i + 3 ≤ length nodes.old) }
    ensures { NodeTold text.now c.at i nodes.old nodes.new (numbered result) }
{
    let ([_, n, f1, f0, b1, b0], next) = due::<6>(text, c, Kind::Node)?;
    let row = [
        n as u16,
        u16::from_be_bytes([f1, f0]),
        u16::from_be_bytes([b1, b0]),
    ];
    nodes[3 * i..3 * i + 3].copy_from_slice(&row);
    Ok(next)
}
