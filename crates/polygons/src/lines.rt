// The line of two planes, as the six 2x2 minors of their numbers, and where a third plane meets it. The two new vertices of a clip lie on
// one line, that of the support and the clipping half-space.
ghost use Rattle.std.specs.Prelude.{◌≡◌};
ghost use Rattle.scope.specs.Planes.{Plane as the_plane, meet};
ghost use Rattle.planes.specs.Values.{plane, meeting};
ghost use Rattle.planes.specs.Bounds.{TwoIn};
ghost use Rattle.polygons.specs.Lines.{mixture, MixedIn, LineOf, OnLineIn};

use crate::Line;
use planes::{Meeting, Plane, minor};

// A sum of three products, the second subtracted: at most 6*10^14.
fn mixed(u: i64, a: i64, v: i64, b: i64, w: i64, c: i64) -> i64
    requires { MixedIn u a v b w c }
    ensures { result ≡ mixture u a v b w c }
{
    u * a - v * b + w * c
}

// The line of two planes.
pub fn line(p: Plane, q: Plane) -> Line
    requires { TwoIn p q }
    ensures { LineOf (plane p) (plane q) result }
{
    Line {
        ab: minor(p.a, p.b, q.a, q.b),
        ac: minor(p.a, p.c, q.a, q.c),
        ad: minor(p.a, p.d, q.a, q.d),
        bc: minor(p.b, p.c, q.b, q.c),
        bd: minor(p.b, p.d, q.b, q.d),
        cd: minor(p.c, p.d, q.c, q.d),
    }
}

// The point on a line and on a plane.
pub fn on_line(l: Line, r: Plane) -> Meeting
    requires { OnLineIn l r }
    ensures { (p q : the_plane) → LineOf p q l → meeting result ≡ meet p q (plane r) }
{
    Meeting {
        x: -mixed(l.bc, r.d, l.bd, r.c, l.cd, r.b),
        y: mixed(l.ac, r.d, l.ad, r.c, l.cd, r.a),
        z: -mixed(l.ab, r.d, l.ad, r.b, l.bd, r.a),
        w: mixed(l.ab, r.c, l.ac, r.b, l.bc, r.a),
    }
}
