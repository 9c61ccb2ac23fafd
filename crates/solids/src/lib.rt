// Solids as text, as document 01's "Solids as frames" has it: a text is read into lent tables, and lent tables are written as a text.
#![tactic(auto)]

ghost use Rattle.std.specs.Prelude.{◌≡◌, length, replicate};
ghost use Rattle.refusals.specs.Numbers.{numbered, lined};
ghost use Rattle.lines.specs.Reading.{Blank, rooms};
ghost use Rattle.tables.specs.Promises.{counts};
ghost use Rattle.solids.specs.Reading.{IntoTold, ReadTold};
ghost use Rattle.solids.specs.Finish.{FinishIn, Finished};
ghost use Rattle.solids.specs.Writing.{Sound, FittedTold, WriteTold};

use frames::Cursor;
use lines::{Place, SolidRead, put_solid, read_solid};
use refusals::{LineRefusal, Refusal};
use tables::{LentSolid, Solid};

// ---- reading

// A solid that was read, after which nothing may follow; what was refused is handed on.
#[tactic(auto, using(crate::specs::Finish::not_read, crate::specs::Finish::at_end, crate::specs::Finish::more))]
pub fn finished(text: &[u8], r: Result<SolidRead, LineRefusal>) -> Result<Solid, LineRefusal>
    requires { FinishIn text.now (lined r) }
    ensures { Finished text.now (lined r) (lined result) }
{
    let r = r?;
    frames::after_end(text, r.next.cursor).map_err(|e| e.at(r.next.line))?;
    Ok(r.solid)
}

// The solid of the text, read into tables of zeros.
fn read_into(
    text: &[u8],
    planes: &mut [i64],
    nodes: &mut [u16],
    work: &mut [i64],
) -> Result<Solid, LineRefusal>
    requires { Blank planes.old nodes.old work.old }
    ensures { IntoTold text.now (rooms planes.old nodes.old) (length work.old) planes.new nodes.new (lined result) }
{
    if work.len() < zeros::WORK {
        return Err(Refusal::NoRoom.at(0));
    }
    if Solid::MOST_TEXT < text.len() {
        return Err(Refusal::OverLimit.at(0));
    }
    let cursor = Cursor { at: 0 };
    let r = read_solid(text, Place { cursor, line: 1 }, planes, nodes, work);
    finished(text, r)
}

// The solid of the text, in the tables lent for it; or the first refusal with its line, and tables of zeros.
pub fn read(
    text: &[u8],
    planes: &mut [i64],
    nodes: &mut [u16],
    work: &mut [i64],
) -> Result<Solid, LineRefusal>
    ensures { ReadTold text.now planes.old planes.new nodes.old nodes.new work.old work.new (lined result) }
{
    zeros::clear(planes);
    zeros::clear(nodes);
    zeros::clear(work);
    let answer = read_into(text, planes, nodes, work);
    zeros::clear(work); // left as zeros
    let Ok(s) = answer else {
        zeros::clear(planes);
        zeros::clear(nodes);
        return answer;
    };
    Ok(s)
}

// ---- writing

// The text of a lent solid, written into characters that are zero: how many they are.
fn put_text(s: &LentSolid, text: &mut [u8]) -> Result<usize, Refusal>
    requires { Sound s.now.planes.now s.now.nodes.now (counts s.now.planes.now s.now.nodes.now s.now.root) × (text.old ≡ replicate (length text.old) 0) }
    ensures { FittedTold s.now.planes.now s.now.nodes.now (counts s.now.planes.now s.now.nodes.now s.now.root) text.old text.new (numbered result) }
{
    let size = 16 + 23 * (s.planes.len() / 4) + 13 * (s.nodes.len() / 3);
    if text.len() < size {
        return Err(Refusal::NoRoom);
    }
    put_solid(text, s);
    Ok(size)
}

// The text of a lent solid, and how many characters it has; or the first refusal, and a text of zeros.
pub fn write(s: &LentSolid, text: &mut [u8], work: &mut [i64]) -> Result<usize, Refusal>
    ensures { WriteTold s.now.planes.now s.now.nodes.now s.now.root text.old text.new work.old work.new (numbered result) }
{
    zeros::clear(text);
    match tables::judge(s, work) {
        Ok(_) => put_text(s, text),
        Err(l) => Err(l.refusal),
    }
}
