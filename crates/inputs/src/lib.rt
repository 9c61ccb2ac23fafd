// The input of a merge, as document 01 has it: a line with the operation, then the solids A and B, in one text.
#![tactic(auto)]

ghost use Rattle.std.specs.Prelude.{◌≡◌};
ghost use Rattle.refusals.specs.Numbers.{lined};
ghost use Rattle.inputs.specs.Orders.{OrderIn, OrderTold};
ghost use Rattle.inputs.specs.Steps.{LastIn, LastTold, after_operation, KnownIn, KnownTold};

use frames::Cursor;
use lines::Place;
use refusals::{LineRefusal, Refusal};
use tables::Solid;

// An operation, and the counts of the two solids, whose rows stand in the tables.
#[derive(Clone, Copy)]
pub struct Order {
    pub op: u8,
    pub a: Solid,
    pub b: Solid,
}

// The solid whose head stands at a place, read into tables of zeros; nothing may follow it.
fn read_last(
    text: &[u8],
    from: Place,
    planes: &mut [i64],
    nodes: &mut [u16],
    work: &mut [i64],
) -> Result<Solid, LineRefusal>
    requires { LastIn text.now from.cursor.at from.line planes.old nodes.old work.old }
    ensures { LastTold text.now from.cursor.at from.line planes.new nodes.new (lined result) }
{
    zeros::clear(work);
    let r = lines::read_solid(text, from, planes, nodes, work);
    solids::finished(text, r)
}

// The order of an operation that was read; its solids stand from c on, where line 2 is.
fn read_known(
    text: &[u8],
    op: u8,
    c: Cursor,
    a_planes: &mut [i64],
    a_nodes: &mut [u16],
    b_planes: &mut [i64],
    b_nodes: &mut [u16],
    work: &mut [i64],
) -> Result<Order, LineRefusal>
    requires { KnownIn text.now c.at a_planes.old a_nodes.old b_planes.old b_nodes.old work.old }
    ensures { KnownTold (after_operation text.now c.at op) a_planes.new a_nodes.new b_planes.new b_nodes.new (lined result) }
{
    if op == 0 || 3 < op {
        return Err(Refusal::UnknownOperation.at(1));
    }
    let from = Place { cursor: c, line: 2 };
    let first = lines::read_solid(text, from, a_planes, a_nodes, work)?;
    let b = read_last(text, first.next, b_planes, b_nodes, work)?;
    Ok(Order {
        op,
        a: first.solid,
        b,
    })
}

// The order of a text, read into tables of zeros that have room for every operand.
pub fn read_order(
    text: &[u8],
    a_planes: &mut [i64],
    a_nodes: &mut [u16],
    b_planes: &mut [i64],
    b_nodes: &mut [u16],
    work: &mut [i64],
) -> Result<Order, LineRefusal>
    requires { OrderIn a_planes.old a_nodes.old b_planes.old b_nodes.old work.old }
    ensures { OrderTold text.now a_planes.new a_nodes.new b_planes.new b_nodes.new (lined result) }
{
    if Solid::MOST_TEXT < text.len() {
        return Err(Refusal::OverLimit.at(0));
    }
    let (op, next) = frames::operation_at(text, Cursor { at: 0 }).map_err(|r| r.at(1))?;
    read_known(text, op, next, a_planes, a_nodes, b_planes, b_nodes, work)
}
