// The normal form of a text, step by step: the solid is read into tables, its form is put out into tables, and written.
ghost use Rattle.refusals.specs.Numbers.{numbered};
ghost use Rattle.texts.specs.Answers.{forming};
ghost use Rattle.texts.specs.Steps.{SolidIn, ResultIn, WorkIn, FormIn, SolidFormed, WithTold};

use outputs::{refuse, rows_of, written};
use refusals::Refusal;
use tables::Solid;

// The normal form of a solid, whose rows stand in tables, put out into tables and written as text.
pub fn normal_read(
    a: Solid,
    ap: &[i64],
    an: &[u16],
    planes: &mut [i64],
    nodes: &mut [u16],
    out: &mut [u8],
    work: &mut [i64],
) -> Result<usize, Refusal>
    requires { FormIn a ap.now an.now planes.old nodes.old work.old }
    ensures { SolidFormed a ap.now an.now out.old out.new (numbered result) }
{
    let m = forms::normal(&rows_of(a, ap, an), planes, nodes, work);
    written(m, planes, nodes, out, work)
}

// The normal form of a text, with tables lent for the solid and for its form.
pub fn normal_with(
    text: &[u8],
    ap: &mut [i64],
    an: &mut [u16],
    planes: &mut [i64],
    nodes: &mut [u16],
    out: &mut [u8],
    work: &mut [i64],
) -> Result<usize, Refusal>
    requires { SolidIn ap.old an.old × ResultIn planes.old nodes.old work.old }
    ensures { WithTold forming text.now out.old out.new (numbered result) }
{
    match solids::read(text, ap, an, work) {
        Ok(a) => normal_read(a, ap, an, planes, nodes, out, work),
        Err(l) => refuse(l.refusal, out),
    }
}

// The normal form of a text, with a work table that is long enough.
pub fn normal_lent(text: &[u8], out: &mut [u8], work: &mut [i64]) -> Result<usize, Refusal>
    requires { WorkIn work.old }
    ensures { WithTold forming text.now out.old out.new (numbered result) }
{
    let mut ap = [0i64; 4 * Solid::MOST_PLANES];
    let mut an = [0u16; 3 * Solid::MOST_NODES];
    let mut planes = [0i64; 2 * 4 * Solid::MOST_PLANES]; // as for a merge
    let mut nodes = [0u16; 3 * Solid::MOST_NODES];
    normal_with(text, &mut ap, &mut an, &mut planes, &mut nodes, out, work)
}
