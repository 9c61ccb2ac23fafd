// The tables of a solid, judged row by row as document 01's "What may be refused" has it.
// Planes are four numbers a row, nodes three: plane number, front code, back code. `judge_rows` and `judge` take any numbers.
#![tactic(auto)]

ghost use Rattle.std.specs.Prelude.{◌≡◌, ◌+◌, ◌*◌, ◌-◌, ◌/◌, ◌<◌, ◌≤◌, leb, length};
ghost use Rattle.whole.specs.Tests.{◌and◌};
ghost use Rattle.scope.specs.Judging.{root_ok, judge_head, follows, judge_lent};
ghost use Rattle.theory.specs.Text.Counts.{size_child, size_back};
ghost use Rattle.theory.specs.Text.Lent.{lent};
ghost use Rattle.planes.specs.Values.{plane};
ghost use Rattle.refusals.specs.Numbers.{numbered, lined};
ghost use Rattle.tables.specs.Rows.{plane_at, last_before};
ghost use Rattle.tables.specs.Work.{sizes_in, total, all_marked};
ghost use Rattle.tables.specs.Promises.{judged, plane_judged, end_judged, counted_in, grown, Ready, Pushes, counts, PlanesJudged, NodesReady, NodesJudged, close_judged, judgement, Judges};

use planes::Plane;
use refusals::{LineRefusal, Refusal};

// ---- the kinds

// The counts of a solid's tables, and its root code.
#[derive(Clone, Copy, Debug, PartialEq, Eq)]
pub struct Solid {
    pub planes: usize,
    pub nodes: usize,
    pub root: u16,
}

impl Solid {
    pub const MOST_PLANES: usize = 64;

    pub const MOST_NODES: usize = 1000;

    pub const MOST_TEXT: usize = 32768;

    pub const IN: u16 = 65535;

    pub const OUT: u16 = 65534;
}

// A solid in lent tables.
#[derive(Clone, Copy)]
pub struct LentSolid<'a> {
    pub planes: &'a [i64],
    pub nodes: &'a [u16],
    pub root: u16,
}

// A child: how many rows its tree has, and how many trees stand below it.
#[derive(Clone, Copy)]
struct Child {
    rows: usize,
    below: usize,
}

// ---- the head

// Whether n is at most most, and m at most more.
fn within(n: usize, most: usize, m: usize, more: usize) -> bool
    ensures { result ≡ leb n most and leb m more }
{
    n <= most && m <= more
}

// Whether the root code is the last of m rows, or a mark where there are none.
#[tactic(auto, using(crate::proofs::Heads::root_last), unfolding(scope::specs::Judging::root_ok))]
fn root_fits(m: usize, root: u16) -> bool
    ensures { result ≡ root_ok m root }
{
    if m == 0 {
        return root == Solid::IN || root == Solid::OUT;
    }
    root as usize == m - 1
}

// Counts and root code: 3 over the limits, 6 for the root code, 8 for more rows than are lent.
#[tactic(auto, unfolding(scope::specs::Judging::judge_head))]
pub fn judge_head(
    n: usize,
    m: usize,
    root: u16,
    plane_rows: usize,
    node_rows: usize,
) -> Result<(), Refusal>
    ensures { numbered result ≡ judged (judge_head (record { plane_rows = plane_rows; node_rows = node_rows }) n m root) }
{
    if !within(n, Solid::MOST_PLANES, m, Solid::MOST_NODES) {
        return Err(Refusal::OverLimit);
    }
    if !root_fits(m, root) {
        return Err(Refusal::BadTree); // the root code
    }
    if !within(n, plane_rows, m, node_rows) {
        return Err(Refusal::NoRoom);
    }
    Ok(())
}

// ---- a plane

// Row i of the planes.
pub fn row(planes: &[i64], i: usize) -> Plane
    requires { 4 * i + 3 < length planes.now }
    ensures { plane result ≡ plane_at planes.now i }
{
    Plane::load(planes, 4 * i)
}

// Whether p comes after the row before row i; row 0 has none before it.
fn ascends(planes: &[i64], i: usize, p: Plane) -> bool
    requires { 4 * i + 3 < length planes.now }
    ensures { result ≡ follows (last_before planes.now i) (plane p) }
{
    i == 0 || row(planes, i - 1).order(p).is_lt()
}

// Row i of the planes: 4 if it is not lawful, then 5 if it is not after the row before it.
pub fn judge_plane(planes: &[i64], i: usize) -> Result<(), Refusal>
    requires { 4 * i + 3 < length planes.now }
    ensures { numbered result ≡ plane_judged planes.now i }
{
    let p = row(planes, i);
    Plane::new(p.a, p.b, p.c, p.d)?;
    if !ascends(planes, i, p) {
        return Err(Refusal::PlaneList);
    }
    Ok(())
}

// ---- a node

// The child that a code names, of the trees that stand: a mark, or the last tree, whose row is due.
fn take_child(due: usize, code: u16, trees: &[i64]) -> Option<Child>
    ensures { size_child due code (sizes_in trees.now) ≡ counted_in trees.now result }
{
    if code == Solid::IN || code == Solid::OUT {
        return Some(Child {
            rows: 0,
            below: trees.len(),
        });
    }
    let last = trees.last()?;
    if code as usize != due {
        return None;
    }
    Some(Child {
        rows: planes::size(*last) as usize,
        below: trees.len() - 1,
    })
}

// The tree of row r over its children, back child first, of the trees that stand.
fn grow(front: u16, back: u16, r: usize, trees: &[i64]) -> Option<Child>
    requires { total (sizes_in trees.now) ≤ 1000 }
    ensures { size_back r front (size_child (r - 1) back (sizes_in trees.now)) ≡ grown trees.now result }
{
    let due = r.saturating_sub(1);
    let b = take_child(due, back, trees)?;
    let f = take_child(due.saturating_sub(b.rows), front, &trees[..b.below])?;
    Some(Child {
        rows: f.rows + b.rows + 1,
        below: f.below,
    })
}

// Row r of the nodes over n planes: its tree takes the place of its children's, and its plane is marked; or 6. How many trees stand then.
pub fn judge_node(
    nodes: &[u16],
    n: usize,
    r: usize,
    work: &mut [i64],
    depth: usize,
) -> Result<usize, Refusal>
    requires { Ready nodes.now n r work.old depth }
    ensures { Pushes nodes.now n r work.old depth work.new (numbered result) }
{
    let at = 3 * r;
    let p = nodes[at] as usize;
    if n <= p {
        return Err(Refusal::BadTree);
    }
    let Some(tree) = grow(nodes[at + 1], nodes[at + 2], r, &work[..depth]) else {
        return Err(Refusal::BadTree);
    };
    work[tree.below] = tree.rows as i64;
    work[Solid::MOST_NODES + p] = 1;
    Ok(tree.below + 1)
}

// ---- the end

// Whether each plane below n is marked as used.
fn all_used(work: &[i64], n: usize) -> bool
    requires { 1000 + n ≤ length work.now }
    ensures { result ≡ all_marked work.now n }
{
    work[Solid::MOST_NODES..Solid::MOST_NODES + n]
        .iter()
        .all(|mark| *mark != 0)
}

// The end: 5 for a plane that no row uses, then 6 for rows outside the root's tree.
pub fn judge_end(n: usize, work: &[i64], depth: usize) -> Result<(), Refusal>
    requires { 1000 + n ≤ length work.now }
    ensures { numbered result ≡ end_judged (all_marked work.now n) (leb depth 1) }
{
    if !all_used(work, n) {
        return Err(Refusal::PlaneList); // a plane that no row uses
    }
    if 1 < depth {
        return Err(Refusal::BadTree); // rows outside the root's tree
    }
    Ok(())
}

// ---- all rows of lent tables

// The n planes, from line 2 on.
fn judge_planes(planes: &[i64], n: usize) -> Result<(), LineRefusal>
    requires { (4 * n ≤ length planes.now) × (n ≤ 64) }
    ensures { PlanesJudged planes.now n (lined result) }
{
    for i in 0..n {
        judge_plane(planes, i).map_err(|r| r.at(2 + i))?;
    }
    Ok(())
}

// The nodes of s, from the line after its planes on: how many trees stand after them.
fn judge_nodes(nodes: &[u16], s: Solid, work: &mut [i64]) -> Result<usize, LineRefusal>
    requires { NodesReady nodes.now s work.old }
    ensures { NodesJudged nodes.now s work.new (lined result) }
{
    let mut depth = 0;
    for i in 0..s.nodes {
        depth = judge_node(nodes, s.planes, i, work, depth).map_err(|r| r.at(2 + s.planes + i))?;
    }
    Ok(depth)
}

// The line after the nodes of s: 2 for numbers left over, then the end.
fn judge_close(nodes: &[u16], s: Solid, work: &[i64], depth: usize) -> Result<(), LineRefusal>
    requires { (s.planes ≤ 64) × (s.nodes ≤ 1000) × (1064 ≤ length work.now) }
    ensures { lined result ≡ close_judged nodes.now s work.now depth }
{
    let line = 2 + s.planes + s.nodes;
    if nodes.len() % 3 != 0 {
        return Err(Refusal::NotDue.at(line));
    }
    judge_end(s.planes, work, depth).map_err(|r| r.at(line))
}

// Tables lent directly, as if written out and read.
pub fn judge_rows(s: &LentSolid) -> Result<Solid, LineRefusal>
    ensures { lined result ≡ judgement s.now.planes.now s.now.nodes.now s.now.root (judge_lent (lent s.now.planes.now s.now.nodes.now s.now.root)) }
{
    let n = s.planes.len() / 4;
    let m = s.nodes.len() / 3;
    judge_head(n, m, s.root, n, m).map_err(|r| r.at(1))?;
    judge_planes(s.planes, n)?;
    if s.planes.len() % 4 != 0 {
        return Err(Refusal::NotDue.at(2 + n));
    }
    let solid = Solid {
        planes: n,
        nodes: m,
        root: s.root,
    };
    let mut work = [0i64; Solid::MOST_NODES + Solid::MOST_PLANES]; // the sizes of trees, and the marks of planes
    let depth = judge_nodes(s.nodes, solid, &mut work)?;
    judge_close(s.nodes, solid, &work, depth)?;
    Ok(solid)
}

// Tables lent directly: 8 (line 0) if the work table is too short, else as if written out and read. The work table is left as zeros.
pub fn judge(s: &LentSolid, work: &mut [i64]) -> Result<Solid, LineRefusal>
    ensures { Judges s.now.planes.now s.now.nodes.now s.now.root work.old work.new (lined result) }
{
    zeros::clear(work);
    if work.len() < zeros::WORK {
        return Err(Refusal::NoRoom.at(0));
    }
    judge_rows(s)
}
