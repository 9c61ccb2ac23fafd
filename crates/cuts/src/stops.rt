// Whether a point is in front of bounds: of the two sides of the box along an axis, and of the half-spaces of a path.
ghost use Rattle.std.specs.Prelude.{◌≡◌, true, false, ◌++◌, ◌+◌, ◌<◌, pos};
ghost use Rattle.whole.specs.Order.{◌⋖◌, ◌⩽◌};
ghost use Rattle.scope.specs.Planes.{at};
ghost use Rattle.planes.specs.Values.{plane, meeting};
ghost use Rattle.planes.specs.Bounds.{SumIn};
ghost use Rattle.polygons.specs.Tables.{box_side, look, rows_down};
ghost use Rattle.cuts.specs.Paths.{along_axis, axis_sides, StopTold, Small, Placed, RowsIn};

use crate::Path;
use planes::{Meeting, Plane, Point};

// The coordinate along an axis: 0 for x, 1 for y, 2 for z.
fn along(m: Meeting, axis: usize) -> i64
    ensures { result ≡ along_axis axis (meeting m) }
{
    match axis {
        0 => m.x,
        1 => m.y,
        _ => m.z,
    }
}

// A side of the box along an axis that a point is not in front of, or None: the sums are at most 2.4*10^15.
fn stopped_by_box(axis: usize, m: Meeting) -> Option<usize>
    requires { (axis < 3) × Small (meeting m) }
    ensures { StopTold box_side (axis_sides axis) 6 (meeting m) result }
{
    let v = along(m, axis);
    let u = Point::REACH * m.w;
    if v + u <= 0 {
        return Some(2 * axis);
    }
    if u - v <= 0 {
        return Some(2 * axis + 1);
    }
    None
}

// Whether a point is not in front of a half-space. The two halves of the sum, at most 3.6*10^18 each, are compared and not added: of a sum
// of four products the compiler makes vector products, which cost more.
fn not_in_front(h: Plane, m: Meeting) -> bool
    requires { SumIn h.a h.b h.c h.d m.x m.y m.z m.w }
    ensures yes { result ≡ true → at (plane h) (meeting m) ⩽ pos 0 }
    ensures no { result ≡ false → pos 0 ⋖ at (plane h) (meeting m) }
{
    h.a * m.x + h.b * m.y <= -(h.c * m.z + h.d * m.w)
}

// A row of a path that a point is not in front of, or None: a row that the point is in front of speaks for those that its link passes over.
fn stopped_by_row(path: &Path, m: Meeting) -> Option<usize>
    requires { RowsIn path.now.rows.now path.now.depth × Placed (meeting m) }
    ensures { StopTold (look path.now.rows.now 9) (rows_down path.now.rows.now 9 path.now.depth) (6 + path.now.depth) (meeting m) result }
{
    for at in path.asked() {
        if not_in_front(Plane::load(path.rows, at), m) {
            return Some(6 + at / 9);
        }
    }
    None
}

// A bound that a point is not in front of, or None: the sides of the box first, then the rows.
pub fn stopped(path: &Path, axis: usize, m: Meeting) -> Option<usize>
    requires { (axis < 3) × RowsIn path.now.rows.now path.now.depth × Placed (meeting m) }
    ensures { StopTold (look path.now.rows.now 9) (axis_sides axis ++ rows_down path.now.rows.now 9 path.now.depth) (6 + path.now.depth) (meeting m) result }
{
    match stopped_by_box(axis, m) {
        Some(k) => Some(k),
        None => stopped_by_row(path, m),
    }
}
