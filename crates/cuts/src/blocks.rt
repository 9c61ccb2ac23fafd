// Blocks: cells whose half-spaces all stand along the axes, with the coefficient 1 or -1. A block is the d of its six sides in the order of
// the box's sides, so that the box is the block of six 30000. For a plane that stands so too the block's middle is moved onto the plane: if
// it is in the block still, the plane cuts the cell, and no polygon is made.
ghost use Rattle.std.specs.Prelude.{◌≡◌, ◌++◌, ◌<◌, true, IfSome};
ghost use Rattle.whole.specs.Bounds.{Within};
ghost use Rattle.scope.specs.Limits.{most_d};
ghost use Rattle.scope.specs.Planes.{in_range};
ghost use Rattle.scope.specs.Cells.{box};
ghost use Rattle.planes.specs.Values.{plane, meeting};
ghost use Rattle.polygons.specs.Tables.{rows_down};
ghost use Rattle.cuts.specs.Paths.{RowsIn, Witness};
ghost use Rattle.cuts.specs.Blocks.{faced, Faces, block_cell, Sized, BlockOf, Narrowed, most_place, Doubled, Between, PlacedAt};

use crate::Path;
use planes::{Meeting, Plane, Point};

// The d of the six sides.
#[derive(Clone, Copy)]
struct Block {
    sides: [i64; 6],
    ghost sized: { Sized sides },
}

// The side of the box that faces as a half-space does.
fn facing(h: Plane) -> Option<usize>
    ensures { IfSome result (λ k. Faces k (plane h)) }
{
    match (h.a, h.b, h.c) {
        (1, 0, 0) => Some(0),
        (-1, 0, 0) => Some(1),
        (0, 1, 0) => Some(2),
        (0, -1, 0) => Some(3),
        (0, 0, 1) => Some(4),
        (0, 0, -1) => Some(5),
        _ => None,
    }
}

impl Block {
    // The block of a path whose half-spaces all stand along the axes.
    fn of(path: &Path) -> Option<Block>
        requires { RowsIn path.now.rows.now path.now.depth }
        ensures { IfSome result (λ b. BlockOf path.now.rows.now path.now.depth b.sides) }
    {
        let mut block = Block {
            sides: [Point::REACH; 6],
        };
        for at in path.asked() {
            let h = Plane::load(path.rows, at);
            let k = facing(h)?;
            block.narrow(k, h.d);
        }
        Some(block)
    }

    // Moves side k in to d, if it is farther out.
    fn narrow(&mut self, k: usize, d: i64)
        requires { (k < 6) × Within d most_d }
        ensures { Narrowed self.old.sides k d self.new.sides }
    {
        self.sides[k] = self.sides[k].min(d);
    }

    // Twice the middle along an axis or, if side k is on this axis, twice the place of the plane that faces as side k does, at d.
    fn doubled(&self, axis: usize, k: usize, d: i64) -> i64
        requires { (axis < 3) × Within d most_d }
        ensures { Doubled axis k d result }
    {
        let low = 2 * axis;
        if k == low {
            return -(d * 2);
        }
        if k == low + 1 {
            return d * 2;
        }
        self.sides[low + 1] - self.sides[low]
    }

    // Whether v, twice a place on an axis, is strictly between the two sides.
    fn between(&self, axis: usize, v: i64) -> bool
        requires { (axis < 3) × Within v most_place }
        ensures { result ≡ true → Between self.now.sides axis v }
    {
        let low = 2 * axis;
        0 < v + self.sides[low] * 2 && 0 < self.sides[low + 1] * 2 - v
    }

    // The doubled place on an axis, if it is in the block.
    fn place(&self, axis: usize, k: usize, d: i64) -> Option<i64>
        requires { (axis < 3) × Within d most_d }
        ensures { IfSome result (λ v. PlacedAt self.now.sides axis k d v) }
    {
        let v = self.doubled(axis, k, d);
        self.between(axis, v).then_some(v)
    }

    // The middle, moved along an axis onto the plane that faces as side k does, at d: if it is in the block still.
    fn middle(&self, k: usize, d: i64) -> Option<Meeting>
        requires { (k < 6) × Within d most_d }
        ensures { IfSome result (λ m. Witness (faced k d) (block_cell self.now.sides) (meeting m)) }
    {
        let x = self.place(0, k, d)?;
        let y = self.place(1, k, d)?;
        let z = self.place(2, k, d)?;
        Some(Meeting { x, y, z, w: 2 })
    }
}

// A point on s and in the cell of a path, where s and the half-spaces of the path all stand along the axes and the moved middle is in the
// block; else None.
pub fn in_block(s: Plane, path: &Path) -> Option<Meeting>
    requires { (in_range (plane s) ≡ true) × RowsIn path.now.rows.now path.now.depth }
    ensures { IfSome result (λ m. Witness (plane s) (rows_down path.now.rows.now 9 path.now.depth ++ box) (meeting m)) }
{
    let k = facing(s)?;
    Block::of(path)?.middle(k, s.d)
}
