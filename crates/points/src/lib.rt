// Where a point lies: the walk of a point through the rows of a solid, as document 01 has it.
#![tactic(auto)]

ghost use Rattle.std.specs.Prelude.{◌≡◌, ◌+◌, ◌*◌, ◌-◌, ◌<◌};
ghost use Rattle.scope.specs.Planes.{side};
ghost use Rattle.refusals.specs.Numbers.{numbered};
ghost use Rattle.planes.specs.Values.{point, side_is};
ghost use Rattle.tables.specs.Rows.{plane_at};
ghost use Rattle.points.specs.Promises.{SideIn, StepIn, stepped, WalkIn, Walked, Tells};

use planes::{Meeting, Point, Side};
use refusals::Refusal;
use tables::{LentSolid, Solid, judge, row};

// Where a point lies.
#[derive(Clone, Copy, Debug, PartialEq, Eq)]
pub enum Place {
    In,
    Out,
    On,
}

// ---- the walk of a point

// The side of row i's plane on which a point lies.
fn side_at(planes: &[i64], i: usize, x: Point) -> Side
    requires { SideIn planes.now i (point x) }
    ensures { result ≡ side_is (side (plane_at planes.now i) (point x)) }
{
    planes::sign(row(planes, i).sum_at(Meeting::from(x)))
}

// The code that the walk goes to from the row of a code: its front code or its back code, or none where the point lies on its plane.
fn step(s: &LentSolid, code: u16, x: Point) -> Option<u16>
    requires { StepIn s.now.planes.now s.now.nodes.now code (point x) }
    ensures { result ≡ stepped s.now.planes.now s.now.nodes.now code (point x) }
{
    let at = 3 * (code as usize);
    match side_at(s.planes, s.nodes[at] as usize, x) {
        Side::Front => Some(s.nodes[at + 1]),
        Side::On => None,
        Side::Back => Some(s.nodes[at + 2]),
    }
}

// The walk from the root code to a mark, or to a plane that the point lies on. A row's codes are marks or rows before it.
fn walk(s: &LentSolid, x: Point) -> Place
    requires { WalkIn s.now.planes.now s.now.nodes.now s.now.root (point x) }
    ensures { Walked s.now.planes.now s.now.nodes.now s.now.root (point x) result }
{
    let mut code = s.root;
    while code < Solid::OUT {
        let Some(next) = step(s, code, x) else {
            return Place::On;
        };
        code = next;
    }
    if code == Solid::IN {
        Place::In
    } else {
        Place::Out
    }
}

// Where the point x lies, which may have any numbers: 8 for a work table that is too short, the solid's number, 10 for the point. ON as
// soon as the walk meets a plane that the point lies on. The work table is left as zeros.
pub fn point(s: &LentSolid, x: Point, work: &mut [i64]) -> Result<Place, Refusal>
    ensures { Tells s.now.planes.now s.now.nodes.now s.now.root (point x) work.old work.new (numbered result) }
{
    judge(s, work)?;
    let Ok(p) = Point::new(x.x, x.y, x.z, x.w) else {
        return Err(Refusal::BadPoint);
    };
    Ok(walk(s, p))
}
