// Whether a plane cuts the cell of a path, with a point that shows it.
// A path is a stack of half-spaces, nine numbers a row: a half-space a, b, c, d, a point x, y, z, w that `cut` has no use for, and a link.
#![tactic(auto)]

mod blocks;
mod paths;
mod stops;

ghost use Rattle.std.specs.Prelude.{◌++◌};
ghost use Rattle.scope.specs.Cells.{box};
ghost use Rattle.planes.specs.Values.{plane};
ghost use Rattle.polygons.specs.Tables.{rows_down};
ghost use Rattle.cuts.specs.Paths.{CutIn, CutTold};

use blocks::in_block;
pub use paths::{Asked, Path};
use planes::{Meeting, Plane};
use polygons::{Halves, Room, added, begin, clip_on, way};
use stops::stopped;

// A half-space is clipped by only where it is needed: as long as the first three vertices, added, are not in front of some bound, the polygon
// is clipped by that bound. No bound comes twice, so the last line is never reached.
fn by_clips(s: Plane, path: &Path, room: &mut Room) -> Option<Meeting>
    requires { CutIn (plane s) path.now.rows.now path.now.depth }
    ensures { CutTold (plane s) (rows_down path.now.rows.now 9 path.now.depth ++ box) result }
{
    let hs = Halves {
        numbers: path.rows,
        width: 9,
    };
    let w = way(s);
    begin(s, w, &mut room.first);
    let mut n: usize = 4;
    // Two sides of the box, depth rows, and a turn that answers.
    for _ in 0..path.depth + 3 {
        if n == 0 {
            return None;
        }
        let m = added(&room.first);
        let Some(k) = stopped(path, w / 2, m) else {
            return Some(m);
        };
        n = clip_on(s, &hs, k, &mut room.first, n, &mut room.second);
    }
    None
}

// Whether the plane s cuts the cell of a path: a point on it and in the cell, or None. Where plane and cell stand along the axes, a point is
// first sought without a polygon.
pub fn cut(s: Plane, path: &[i64], depth: usize, room: &mut Room) -> Option<Meeting>
    requires { CutIn (plane s) path.now depth }
    ensures { CutTold (plane s) (rows_down path.now 9 depth ++ box) result }
{
    let path = Path { rows: path, depth };
    match in_block(s, &path) {
        Some(m) => Some(m),
        None => by_clips(s, &path, room),
    }
}
