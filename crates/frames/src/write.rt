// Frames, written: each call writes one line at `at`, capital hexadecimal ended by LF, and gives the position after it.
#![tactic(auto, unfolding(scope::specs::Text::bytes, scope::specs::Text::refusal_line))]

ghost use Rattle.std.specs.Prelude.{◌≡◌, ◌+◌, ◌*◌, ◌≤◌, length};
ghost use Rattle.scope.specs.Solids.{entry};
ghost use Rattle.scope.specs.Text.{line, bytes, head, plane, node_row, end, refusal_line};
ghost use Rattle.theory.specs.Text.Frames.{Fits};
ghost use Rattle.planes.specs.Values.{plane as numbers};
ghost use Rattle.frames.specs.Promises.{Wrote};

use crate::characters::put_byte;
use crate::{Head, Kind};
use planes::Plane;

// The first byte of a refusal, which is written only.
const REFUSAL: u8 = 15;

// A line of these bytes.
pub fn put_line(text: &mut [u8], at: usize, bytes: &[u8]) -> usize
    requires { at + (2 * length bytes.now + 1) ≤ length text.old }
    ensures { Wrote text.old text.new at (line bytes.now) (2 * length bytes.now + 1) result }
{
    for (k, b) in bytes.iter().enumerate() {
        put_byte(text, at + 2 * k, *b);
    }
    let end = at + 2 * bytes.len();
    text[end] = b'\n';
    end + 1
}

// A head.
pub fn put_head(text: &mut [u8], at: usize, h: Head) -> usize
    requires { (at + 13 ≤ length text.old) × Fits (head h.planes h.nodes h.root) }
    ensures { Wrote text.old text.new at (line (bytes (head h.planes h.nodes h.root))) 13 result }
{
    let [m1, m0] = (h.nodes as u16).to_be_bytes();
    let [r1, r0] = h.root.to_be_bytes();
    put_line(
        text,
        at,
        &[Kind::Head as u8, h.planes as u8, m1, m0, r1, r0],
    )
}

// A node: plane number, front code, back code.
pub fn put_node(text: &mut [u8], at: usize, n: u16, f: u16, b: u16) -> usize
    requires { (at + 13 ≤ length text.old) × Fits (node_row (entry n f b)) }
    ensures { Wrote text.old text.new at (line (bytes (node_row (entry n f b)))) 13 result }
{
    let [f1, f0] = f.to_be_bytes();
    let [b1, b0] = b.to_be_bytes();
    put_line(text, at, &[Kind::Node as u8, n as u8, f1, f0, b1, b0])
}

// A plane.
pub fn put_plane(text: &mut [u8], at: usize, p: Plane) -> usize
    requires { (at + 23 ≤ length text.old) × Fits (plane (numbers p)) }
    ensures { Wrote text.old text.new at (line (bytes (plane (numbers p)))) 23 result }
{
    let [a1, a0] = (p.a as i16).to_be_bytes();
    let [b1, b0] = (p.b as i16).to_be_bytes();
    let [c1, c0] = (p.c as i16).to_be_bytes();
    let [d3, d2, d1, d0] = (p.d as i32).to_be_bytes();
    put_line(
        text,
        at,
        &[Kind::Plane as u8, a1, a0, b1, b0, c1, c0, d3, d2, d1, d0],
    )
}

// The end.
pub fn put_end(text: &mut [u8], at: usize) -> usize
    requires { at + 3 ≤ length text.old }
    ensures { Wrote text.old text.new at (line (bytes end)) 3 result }
{
    put_line(text, at, &[Kind::End as u8])
}

// A refusal's number.
pub fn put_refusal(text: &mut [u8], at: usize, n: u8) -> usize
    requires { at + 5 ≤ length text.old }
    ensures { Wrote text.old text.new at (refusal_line n) 5 result }
{
    put_line(text, at, &[REFUSAL, n])
}
