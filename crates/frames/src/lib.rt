// Frames, as document 01's "Solids as frames" has them: one frame of a text is read at a cursor, and one is written at a position.
// A reading call gives the frame that is due and the cursor after its line; else 1 for a line that is malformed, 2 for a frame of another
// kind or length and for missing text. A writing call writes one line and gives the position after it.
#![tactic(auto)]

mod characters;
mod line;
mod read;
mod write;

pub use characters::{bytes, digit, hex, nibble, put_byte, word};
pub use line::{due, line_at};
pub use read::{after_end, end_at, head_at, node_at, operation_at, plane_at};
pub use write::{put_end, put_head, put_line, put_node, put_plane, put_refusal};

// ---- the kinds, and what is read

// A position in a text, at most the text's length.
#[derive(Clone, Copy)]
pub struct Cursor {
    pub at: usize,
}

// The frames that may be due, with their first bytes.
#[derive(Clone, Copy)]
pub enum Kind {
    Head = 1,
    Plane = 2,
    Node = 3,
    End = 4,
    Operation = 5,
}

// A head: how many planes and nodes follow it, and the root code.
#[derive(Clone, Copy)]
pub struct Head {
    pub planes: usize,
    pub nodes: usize,
    pub root: u16,
}
