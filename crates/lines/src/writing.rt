// A solid, written line by line: head, planes, nodes, end.
ghost use Rattle.std.specs.Prelude.{◌≡◌, ◌+◌, ◌*◌, ◌≤◌, ◌<◌, length};
ghost use Rattle.std.proofs.lemmas.List.Edits.{sets};
ghost use Rattle.scope.specs.Text.{line, bytes, node_row, text as text_of};
ghost use Rattle.theory.specs.Text.Frames.{Fits};
ghost use Rattle.frames.specs.Promises.{Wrote};
ghost use Rattle.tables.specs.Rows.{entry_at};
ghost use Rattle.tables.specs.Promises.{counts};
ghost use Rattle.lines.specs.Writing.{PlanesFit, NodesFit, plane_lines, node_lines, Writes, tables_in};

use frames::Head;
use tables::{LentSolid, row};

// The lines of n planes from `at` on: the place after them.
pub fn put_planes(text: &mut [u8], at: usize, planes: &[i64], n: usize) -> usize
    requires { PlanesFit planes.now n × (at + 23 * n ≤ length text.old) }
    ensures { Wrote text.old text.new at (plane_lines planes.now n) (23 * n) result }
{
    let mut next = at;
    for i in 0..n {
        next = frames::put_plane(text, next, row(planes, i));
    }
    next
}

// The line of row i of the nodes: the place after it.
pub fn put_row(text: &mut [u8], at: usize, nodes: &[u16], i: usize) -> usize
    requires { (3 * i + 3 ≤ length nodes.now) × (at + 13 ≤ length text.old) × Fits (node_row (entry_at nodes.now i)) }
    ensures { Wrote text.old text.new at (line (bytes (node_row (entry_at nodes.now i)))) 13 result }
{
    frames::put_node(text, at, nodes[3 * i], nodes[3 * i + 1], nodes[3 * i + 2])
}

// The lines of m nodes from `at` on: the place after them.
pub fn put_nodes(text: &mut [u8], at: usize, nodes: &[u16], m: usize) -> usize
    requires { NodesFit nodes.now m × (at + 13 * m ≤ length text.old) }
    ensures { Wrote text.old text.new at (node_lines nodes.now m) (13 * m) result }
{
    let mut next = at;
    for i in 0..m {
        next = put_row(text, next, nodes, i);
    }
    next
}

// The text of a solid.
pub fn put_solid(text: &mut [u8], s: &LentSolid)
    requires { Writes s.now.planes.now s.now.nodes.now (counts s.now.planes.now s.now.nodes.now s.now.root) text.old }
    ensures { text.new ≡ sets text.old 0 (text_of (tables_in s.now.planes.now s.now.nodes.now (counts s.now.planes.now s.now.nodes.now s.now.root))) }
{
    let head = Head {
        planes: s.planes.len() / 4,
        nodes: s.nodes.len() / 3,
        root: s.root,
    };
    let at = frames::put_head(text, 0, head);
    let next = put_planes(text, at, s.planes, head.planes);
    let end = put_nodes(text, next, s.nodes, head.nodes);
    frames::put_end(text, end);
}
