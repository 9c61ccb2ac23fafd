// The merge of a text, step by step: the order is read into tables, merged into tables, and written.
ghost use Rattle.refusals.specs.Numbers.{numbered};
ghost use Rattle.texts.specs.Answers.{merging};
ghost use Rattle.texts.specs.Steps.{TablesIn, WorkIn, OrderIn, OrderMerged, WithTold};

use inputs::Order;
use outputs::{refuse, rows_of, written};
use refusals::Refusal;
use tables::Solid;

// The merge of A and B, whose rows stand in tables, put out into tables and written as text.
pub fn merge_read(
    o: Order,
    ap: &[i64],
    an: &[u16],
    bp: &[i64],
    bn: &[u16],
    planes: &mut [i64],
    nodes: &mut [u16],
    out: &mut [u8],
    work: &mut [i64],
) -> Result<usize, Refusal>
    requires { OrderIn o ap.now an.now bp.now bn.now planes.old nodes.old work.old }
    ensures { OrderMerged o ap.now an.now bp.now bn.now out.old out.new (numbered result) }
{
    let a = rows_of(o.a, ap, an);
    let b = rows_of(o.b, bp, bn);
    let m = merging::merge(o.op, &a, &b, planes, nodes, work);
    written(m, planes, nodes, out, work)
}

// The merge of a text, with tables lent for the operands and for the result.
pub fn merge_with(
    text: &[u8],
    ap: &mut [i64],
    an: &mut [u16],
    bp: &mut [i64],
    bn: &mut [u16],
    planes: &mut [i64],
    nodes: &mut [u16],
    out: &mut [u8],
    work: &mut [i64],
) -> Result<usize, Refusal>
    requires { TablesIn ap.old an.old bp.old bn.old planes.old nodes.old work.old }
    ensures { WithTold merging text.now out.old out.new (numbered result) }
{
    zeros::clear(ap);
    zeros::clear(an);
    zeros::clear(bp);
    zeros::clear(bn);
    match inputs::read_order(text, ap, an, bp, bn, work) {
        Ok(o) => merge_read(o, ap, an, bp, bn, planes, nodes, out, work),
        Err(l) => refuse(l.refusal, out),
    }
}

// The merge of a text, with a work table that is long enough.
pub fn merge_lent(text: &[u8], out: &mut [u8], work: &mut [i64]) -> Result<usize, Refusal>
    requires { WorkIn work.old }
    ensures { WithTold merging text.now out.old out.new (numbered result) }
{
    let mut ap = [0i64; 4 * Solid::MOST_PLANES];
    let mut an = [0u16; 3 * Solid::MOST_NODES];
    let mut bp = [0i64; 4 * Solid::MOST_PLANES];
    let mut bn = [0u16; 3 * Solid::MOST_NODES];
    let mut planes = [0i64; 2 * 4 * Solid::MOST_PLANES]; // every plane of A and of B, so that 9 can be met
    let mut nodes = [0u16; 3 * Solid::MOST_NODES];
    merge_with(
        text,
        &mut ap,
        &mut an,
        &mut bp,
        &mut bn,
        &mut planes,
        &mut nodes,
        out,
        work,
    )
}
