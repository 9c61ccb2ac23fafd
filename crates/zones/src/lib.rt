// The public page: every call on solids and sections. None has a precondition; each refuses by number and leaves every lent table as document 01
// says. Beside the calls of the crates below stand `merge_text` and `normal_text`, the merge and the normal form of a text: what the programs
// run.
#![tactic(auto)]

ghost use Rattle.refusals.specs.Numbers.{numbered};
ghost use Rattle.texts.specs.Answers.{merging, forming};
ghost use Rattle.zones.specs.Promises.{TextTold};

pub use forms::normal;
pub use merging::merge;
use outputs::refuse;
pub use points::point;
use refusals::Refusal;
pub use sections::section;
pub use solids::{read, write};

// The merge of a text: operation, A, B. The text of the merged solid, or the number of the first refusal and a text of zeros: 8 for a short
// work table, 3 for a text over 32,768 bytes, then line by line, then 8 and 9 for the merged solid in 128 plane rows and 1,000 node rows,
// and 8 for a text that has too little room.
pub fn merge_text(text: &[u8], out: &mut [u8], work: &mut [i64]) -> Result<usize, Refusal>
    ensures { TextTold merging text.now out.old out.new work.old work.new (numbered result) }
{
    zeros::clear(work);
    if work.len() < zeros::WORK {
        return refuse(Refusal::NoRoom, out); // before an order is read
    }
    let r = texts::merge_lent(text, out, work);
    zeros::clear(work);
    r
}

// The normal form of a text: a solid. The text of its form, or the number of the first refusal and a text of zeros: 8 for a short work
// table, 3 for a text over 32,768 bytes, then line by line, then 8 for a form of over 1,000 rows, and 8 for a text that has too little
// room.
pub fn normal_text(text: &[u8], out: &mut [u8], work: &mut [i64]) -> Result<usize, Refusal>
    ensures { TextTold forming text.now out.old out.new work.old work.new (numbered result) }
{
    zeros::clear(work);
    if work.len() < zeros::WORK {
        return refuse(Refusal::NoRoom, out); // before a solid is read
    }
    let r = texts::normal_lent(text, out, work);
    zeros::clear(work);
    r
}
