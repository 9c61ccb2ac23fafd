// The lines of a solid: read one after the other into lent tables, each judged by the rows before it, and written.
#![tactic(auto)]

mod reading;
mod writing;

use frames::Cursor;
pub use reading::read_solid;
use tables::Solid;
pub use writing::put_solid;

// Where a line begins in a text, and the line's number.
#[derive(Clone, Copy)]
pub struct Place {
    pub cursor: Cursor,
    pub line: usize,
}

// A solid that was read, and the place after its end.
#[derive(Clone, Copy)]
pub struct SolidRead {
    pub solid: Solid,
    pub next: Place,
}
