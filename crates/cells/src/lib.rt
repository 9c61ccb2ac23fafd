// Cells, as document 01's "Cells and the merge" has them: the path to a cell, and how a plane lies to it.
// A path is a stack of kept half-spaces, nine numbers a row: the half-space a, b, c, d, the witness x, y, z, w of its cut, a point that lies
// on its plane and in the cell of the rows before it, and the row's link. A row that holds row i's half-space need not be asked after row i:
// row i's link is the place where the row ends that is asked next.
#![tactic(auto)]

ghost use Rattle.std.specs.Prelude.{◌≡◌, true, false, [], ◌+◌, ◌*◌, ◌≤◌, length, IfSome};
ghost use Rattle.std.proofs.lemmas.List.Edits.{sets};
ghost use Rattle.scope.specs.Planes.{flip};
ghost use Rattle.planes.specs.Values.{plane, meeting};
ghost use Rattle.planes.specs.Bounds.{PlaneIn};
ghost use Rattle.polygons.specs.Tables.{row};
ghost use Rattle.cuts.specs.Paths.{Holds};
ghost use Rattle.cells.specs.Paths.{witness_at, PathIn, LinkTold, nine, Pushed, own_side, side_by, missed_by, BelowIn, MissedIn, ClassifyIn, ClassifiedIn};

use cuts::Path;
use planes::{Meeting, Plane, Side};
use polygons::Room;

// The plane cuts the cell, and a point shows it; or the cell lies in front of the plane, or behind it.
#[derive(Clone, Copy, Debug, PartialEq, Eq)]
pub enum Classified {
    Cut(Meeting),
    Front,
    Behind,
}

// ---- the rows of a path

// The witness of row i.
fn witness(path: &Path, i: usize) -> Meeting
    requires { i * 9 + 9 ≤ length path.now.rows.now }
    ensures { meeting result ≡ witness_at path.now.rows.now i }
{
    let at = i * 9 + 4;
    Meeting {
        x: path.rows[at],
        y: path.rows[at + 1],
        z: path.rows[at + 2],
        w: path.rows[at + 3],
    }
}

// Whether a half-space q holds p: it has the same normal, and no smaller d.
fn holds(q: Plane, p: Plane) -> bool
    ensures yes { result ≡ true → Holds (plane q) (plane p) }
    ensures no { result ≡ false → Holds (plane q) (plane p) → ⊥ }
{
    q.a == p.a && q.b == p.b && q.c == p.c && p.d <= q.d
}

// The half-space on the other side of a plane.
pub fn opposite(p: Plane) -> Plane
    requires { PlaneIn p.a p.b p.c p.d }
    ensures { plane result ≡ flip (plane p) }
{
    Plane {
        a: -p.a,
        b: -p.b,
        c: -p.c,
        d: -p.d,
    }
}

// The link of row `depth` if h is written there: past the row before it if that one holds h, and then past those that its own link passes
// over.
fn link(path: &Path, h: Plane) -> i64
    requires { PathIn path.now.rows.now path.now.depth }
    ensures { LinkTold path.now.rows.now path.now.depth (plane h) result }
{
    let end = path.depth * 9;
    if 0 < path.depth && holds(Plane::load(path.rows, end - 9), h) {
        return path.rows[end - 1];
    }
    end as i64
}

// Writes row `depth`: a half-space, the witness of its cut, and its link.
fn put_row(path: &mut [i64], depth: usize, h: Plane, m: Meeting, link: i64)
    requires { depth * 9 + 9 ≤ length path.old }
    ensures { path.new ≡ sets path.old (depth * 9) (nine h m link) }
{
    let at = depth * 9;
    path[at..at + 9].copy_from_slice(&[h.a, h.b, h.c, h.d, m.x, m.y, m.z, m.w, link]);
}

// A half-space more: row `depth`.
pub fn push(path: &mut [i64], depth: usize, h: Plane, m: Meeting)
    requires { PathIn path.old depth × (depth * 9 + 9 ≤ length path.old) }
    ensures { Pushed path.old path.new depth h m }
{
    let l = link(&Path { rows: path, depth }, h);
    put_row(path, depth, h, m, l);
}

// ---- a plane and a cell

// The side taken at the last half-space of a path, for that half-space's own plane.
fn own(p: Plane, h: Plane) -> Classified
    ensures { result ≡ own_side (plane p) (plane h) }
{
    if p.same(h) {
        return Classified::Front;
    }
    Classified::Behind
}

// The side of a plane that misses the cell below row i: that of the row's witness, which lies on the border of the cell; the row's own
// plane is the only one through the witness that misses the cell.
fn side_below(p: Plane, path: &Path, i: usize) -> Classified
    requires { BelowIn (plane p) path.now.rows.now i }
    ensures { result ≡ side_by (plane p) (row path.now.rows.now 9 i) (witness_at path.now.rows.now i) }
{
    match planes::sign(p.sum_at(witness(path, i))) {
        Side::Front => Classified::Front,
        Side::On => own(p, Plane::load(path.rows, i * 9)),
        Side::Back => Classified::Behind,
    }
}

// The side of a plane that misses the box, by the origin, which is in it.
fn side_of_box(p: Plane) -> Classified
    ensures { result ≡ missed_by (plane p) [] 0 }
{
    if 0 < p.d {
        return Classified::Front;
    }
    Classified::Behind
}

// The side of a plane that misses the cell of a path.
fn missed(p: Plane, path: &Path) -> Classified
    requires { MissedIn (plane p) path.now.rows.now path.now.depth }
    ensures { result ≡ missed_by (plane p) path.now.rows.now path.now.depth }
{
    if path.depth == 0 {
        return side_of_box(p);
    }
    side_below(p, path, path.depth - 1)
}

// The side of p on which a half-space of the path keeps the cell: p holds it, or the other side of p does.
fn parallel(p: Plane, path: &Path) -> Option<Classified>
    requires { PlaneIn p.a p.b p.c p.d × PathIn path.now.rows.now path.now.depth }
    ensures { IfSome result (ClassifiedIn (plane p) path.now.rows.now path.now.depth) }
{
    let b = opposite(p);
    for at in path.asked() {
        let h = Plane::load(path.rows, at);
        if holds(p, h) {
            return Some(Classified::Front);
        }
        if holds(b, h) {
            return Some(Classified::Behind);
        }
    }
    None
}

// How a lawful plane lies to the cell of the first `depth` rows of a path. Where a parallel half-space tells, no section is made.
pub fn classify(p: Plane, path: &[i64], depth: usize, room: &mut Room) -> Classified
    requires { ClassifyIn (plane p) path.now depth }
    ensures { ClassifiedIn (plane p) path.now depth result }
{
    let path = Path { rows: path, depth };
    if let Some(side) = parallel(p, &path) {
        return side;
    }
    match cuts::cut(p, path.rows, depth, room) {
        Some(m) => Classified::Cut(m),
        None => missed(p, &path),
    }
}
