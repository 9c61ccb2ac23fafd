// Boundary planes, told by a walk on the plane: four walks, each from a root in the cell where the one before it ended. The first two are
// of A and B and take the plane's front at its own rows, the last two its back. At a row of another plane they go where the plane has
// points, and keep that half-space on the path only if it has points on both sides. The plane is a boundary plane if the operation's marks
// differ at the end of some four walks.
// A path holds half-spaces as it does in a merge; here its witnesses are not read.
ghost use Rattle.std.specs.Prelude.{◌≡◌, ◌+◌, ◌*◌, ◌<◌, ◌≤◌, length, get_or};
ghost use Rattle.planes.specs.Values.{plane};
ghost use Rattle.cells.specs.Paths.{PathIn, Pushed};
ghost use Rattle.walks.specs.Standing.{walked};
ghost use Rattle.borders.specs.Sides.{nowhere, own_field, PartsIn, PartsTold, PassIn, PassTold, Follows, SideIn, NodeIn, Did};

use crate::{Next, Parted, Stage};
use cells::{opposite, push};
use cuts::cut;
use planes::{Meeting, Plane};
use polygons::Room;
use walks::{Code, Mark, Operands};

// ---- a row and the plane

// Writes row `depth` of a path: a half-space with its link, and no witness.
fn keep(path: &mut [i64], depth: usize, h: Plane)
    requires { PathIn path.old depth × (depth * 9 + 9 ≤ length path.old) }
    ensures { Pushed path.old path.new depth h nowhere }
{
    push(
        path,
        depth,
        h,
        Meeting {
            x: 0,
            y: 0,
            z: 0,
            w: 1,
        },
    );
}

// On which sides of q the plane p, which cuts the cell of the path, has points of the cell. Row `depth` is used.
fn parted(p: Plane, q: Plane, path: &mut [i64], depth: usize, room: &mut Room) -> Parted
    requires { PartsIn (plane p) (plane q) path.old depth }
    ensures { PartsTold (plane p) (plane q) path.old path.new depth result }
{
    keep(path, depth, q);
    if cut(p, path, depth + 1, room).is_none() {
        return Parted::Behind;
    }
    keep(path, depth, opposite(q));
    if cut(p, path, depth + 1, room).is_none() {
        return Parted::Front;
    }
    Parted::Both
}

// The code on the side that is taken at a row of the plane itself: its front in the first two walks, then its back.
fn own_side(o: &Operands, t: Stage, row: u16) -> u16
    requires { 3 * row + 2 < length (walked o.now t.above) }
    ensures { result ≡ get_or (walked o.now t.above) (3 * row + own_field t.front) 0 }
{
    match t.front {
        None => o.front(t.above, row),
        Some(_) => o.back(t.above, row),
    }
}

// A row in the cell of the path: the code of the one side at which the walk goes on, or None where the row parts the plane.
fn pass(
    o: &Operands,
    t: Stage,
    path: &mut [i64],
    depth: usize,
    room: &mut Room,
    row: u16,
) -> Option<u16>
    requires { PassIn o.now t path.old depth row }
    ensures { PassTold o.now t path.old path.new depth row result }
{
    let n = o.number_of(t.above, row);
    if n == t.plane {
        return Some(own_side(o, t, row));
    }
    let p = tables::row(o.planes, t.plane as usize);
    match parted(p, tables::row(o.planes, n as usize), path, depth, room) {
        Parted::Front => Some(o.front(t.above, row)),
        Parted::Behind => Some(o.back(t.above, row)),
        Parted::Both => None,
    }
}

// ---- the four walks

// What follows the mark m of a leaf: B below a leaf of A; below a leaf of B the walk of A that takes backs, or the end.
fn followed(t: Stage, m: Mark) -> Next
    ensures { Follows t m result }
{
    let Some(a) = t.above else {
        let u = Stage {
            above: Some(m),
            ..t
        };
        return Next::Walk(u, t.pair.br);
    };
    let o = t.pair.op.mark(a, m);
    match t.front {
        Some(f) => Next::Done(f != o),
        None => {
            let u = Stage {
                above: None,
                front: Some(o),
                ..t
            };
            Next::Walk(u, t.pair.ar)
        }
    }
}

// A row that parts the plane: both its sides, front first, unless the front has told.
#[cycle(node_on_side_on)]
fn node_on(
    o: &Operands,
    t: Stage,
    path: &mut [i64],
    depth: usize,
    room: &mut Room,
    row: u16,
) -> bool
    requires { NodeIn o.now t path.old depth row }
    ensures { Did o.now t path.old path.new depth row result }
{
    let h = o.plane_of(t.above, row);
    let f = o.front(t.above, row);
    keep(path, depth, h);
    if side_on(o, t, path, depth + 1, room, f) {
        return true;
    }
    let g = o.back(t.above, row);
    keep(path, depth, opposite(h));
    side_on(o, t, path, depth + 1, room, g)
}

// Whether the marks differ somewhere on the plane in the cell of the path, below a code: a row is asked where it leads, and a mark is
// followed by the next walk.
#[cycle(node_on_side_on)]
pub fn side_on(
    o: &Operands,
    t: Stage,
    path: &mut [i64],
    depth: usize,
    room: &mut Room,
    code: u16,
) -> bool
    requires { SideIn o.now t path.old depth code }
    ensures { Did o.now t path.old path.new depth code result }
{
    match Code::from(code) {
        Code::Row(row) => match pass(o, t, path, depth, room, row) {
            None => node_on(o, t, path, depth, room, row),
            Some(child) => side_on(o, t, path, depth, room, child),
        },
        Code::Mark(m) => match followed(t, m) {
            Next::Done(told) => told,
            Next::Walk(u, root) => side_on(o, u, path, depth, room, root),
        },
    }
}
