// Planes and points, as document 01's "Numbers" has them: lawful planes, the side of a point, where three planes meet, the side of that
// point, coincidence and order. Every call is total: it takes any numbers, and refuses those that are out of range.
#![tactic(auto)]

mod number;
mod signs;

ghost use Rattle.std.specs.Prelude.{◌≡◌, [], ◌∷◌, ◌+◌, ◌≤◌, length, eqb};
ghost use Rattle.std.proofs.lemmas.List.Edits.{sets};
ghost use Rattle.whole.specs.Tests.{◌and◌};
ghost use Rattle.whole.specs.Vec.{dot4};
ghost use Rattle.scope.specs.Planes.{lead, in_range, common as the-common, point_in_range, coincident as the-coincident, meet as the-meet};
ghost use Rattle.planes.specs.Values.{quad, plane, point, meeting, side_is, four_at};
ghost use Rattle.planes.specs.Bounds.{AxisIn, PointIn, SumIn, TwoIn, ThreeIn};
ghost use Rattle.planes.specs.Promises.{PlaneMade, HalfSpaceMade, PointMade, SideTold, MeetTold, MeetSideTold, OrderTold, SameTold, CoincideTold};
ghost use Rattle.planes.specs.Promises.{three_in_range, between as the-between};

pub use number::{common, det3, minor, minor_zero, size, within};
use refusals::Refusal;
pub use signs::{first_sign, sign, times};
use std::cmp::Ordering;

// ---- the kinds, and what may be wrong with them

// A plane or a half-space (a,b,c,d). Planes are ordered by a, then b, c, d, as signed numbers.
#[derive(Clone, Copy, Debug, PartialEq, Eq, PartialOrd, Ord)]
pub struct Plane {
    pub a: i64,
    pub b: i64,
    pub c: i64,
    pub d: i64,
}

// What may be wrong with a plane, in the order in which it is looked for.
#[derive(Clone, Copy, Debug, PartialEq, Eq)]
pub enum Fault {
    OutOfRange,
    ZeroNormal,
    NotReduced,
    WrongSign,
}

// A point (x,y,z,w), meaning x/w, y/w, z/w.
#[derive(Clone, Copy, Debug, PartialEq, Eq)]
pub struct Point {
    pub x: i64,
    pub y: i64,
    pub z: i64,
    pub w: i64,
}

// Why the four numbers of a point are refused, in the order in which it is looked for.
#[derive(Clone, Copy, Debug, PartialEq, Eq)]
pub enum PointFault {
    OutOfRange,
    OutOfBox,
}

// Where three planes meet: w is the determinant of their normals, and may be negative.
#[derive(Clone, Copy, Debug, PartialEq, Eq)]
pub struct Meeting {
    pub x: i64,
    pub y: i64,
    pub z: i64,
    pub w: i64,
}

// Positive is front, zero on, negative back.
#[derive(Clone, Copy, Debug, PartialEq, Eq)]
pub enum Side {
    Front,
    On,
    Back,
}

// Why a side is refused: for the plane, or else for the point.
#[derive(Clone, Copy, Debug, PartialEq, Eq)]
pub enum SideFault {
    BadPlane(Fault),
    BadPoint,
}

// A plane is refused with 4, whatever is wrong with it.
impl From<Fault> for Refusal {
    ghost use Rattle.std.specs.Prelude.{◌≡◌};
    ghost use Rattle.refusals.specs.declared.Refusal.TheVariants.{UnlawfulPlane};

    ghost from_gives = { λ f r. r ≡ UnlawfulPlane };

    fn from(_f: Fault) -> Refusal {
        Refusal::UnlawfulPlane
    }
}

// A point is refused with 10.
impl From<PointFault> for Refusal {
    ghost use Rattle.std.specs.Prelude.{◌≡◌};
    ghost use Rattle.refusals.specs.declared.Refusal.TheVariants.{BadPoint};

    ghost from_gives = { λ f r. r ≡ BadPoint };

    fn from(_f: PointFault) -> Refusal {
        Refusal::BadPoint
    }
}

// A side is refused with 4 for the plane, and with 10 for the point.
impl From<SideFault> for Refusal {
    ghost use Rattle.std.specs.Prelude.{◌≡◌};
    ghost use Rattle.planes.specs.Values.{side_refusal};

    ghost from_gives = { λ f r. r ≡ side_refusal f };

    fn from(f: SideFault) -> Refusal {
        match f {
            SideFault::BadPlane(f) => Refusal::from(f),
            SideFault::BadPoint => Refusal::BadPoint,
        }
    }
}

// A point is a meeting with a positive w.
impl From<Point> for Meeting {
    ghost use Rattle.std.specs.Prelude.{◌≡◌};

    ghost from_gives = { λ x m. m ≡ record { x = x.x; y = x.y; z = x.z; w = x.w } };

    fn from(x: Point) -> Meeting {
        Meeting {
            x: x.x,
            y: x.y,
            z: x.z,
            w: x.w,
        }
    }
}

// ---- planes

impl Plane {
    pub const MOST_ABC: u64 = 1000;

    pub const MOST_D: u64 = 100_000_000;

    // The plane (a,b,c,d) if it is lawful, else what is wrong with it: range, then zero normal, then not reduced, then wrong sign.
    pub fn new(a: i64, b: i64, c: i64, d: i64) -> Result<Plane, Fault>
        ensures { PlaneMade a b c d result }
    {
        let p = Plane::half_space(a, b, c, d)?;
        if !p.reduced() {
            return Err(Fault::NotReduced);
        }
        match p.lead() {
            Side::Back => Err(Fault::WrongSign),
            _ => Ok(p),
        }
    }

    // The half-space (a,b,c,d): range and a nonzero normal suffice.
    pub fn half_space(a: i64, b: i64, c: i64, d: i64) -> Result<Plane, Fault>
        ensures { HalfSpaceMade a b c d result }
    {
        let p = Plane { a, b, c, d };
        if !p.ranged() {
            return Err(Fault::OutOfRange);
        }
        match p.lead() {
            Side::On => Err(Fault::ZeroNormal),
            _ => Ok(p),
        }
    }

    // Whether a, b, c and d are in range.
    #[tactic(auto, unfolding(scope::specs::Planes::in_range))]
    pub fn ranged(self) -> bool
        ensures { result ≡ in_range (plane self) }
    {
        within(self.a, Plane::MOST_ABC)
            && within(self.b, Plane::MOST_ABC)
            && within(self.c, Plane::MOST_ABC)
            && within(self.d, Plane::MOST_D)
    }

    // The sign of the first nonzero among a, b, c; On is a normal that is zero. d plays no part.
    #[tactic(auto, unfolding(scope::specs::Planes::lead))]
    pub fn lead(self) -> Side
        ensures { result ≡ side_is (lead (plane self)) }
    {
        first_sign(sign(self.a), first_sign(sign(self.b), sign(self.c)))
    }

    // Whether the greatest common divisor of all four numbers is 1.
    #[tactic(auto, unfolding(scope::specs::Planes::common))]
    pub fn reduced(self) -> bool
        ensures { result ≡ eqb (the-common (plane self)) 1 }
    {
        common(
            size(self.a),
            common(size(self.b), common(size(self.c), size(self.d))),
        ) == 1
    }

    // The side on which a point lies: the sign of ax + by + cz + dw, which is at most 4*10^18 in size. The plane is judged first, then
    // the point.
    pub fn side(self, x: Point) -> Result<Side, SideFault>
        ensures { SideTold self x result }
    {
        if !self.ranged() {
            return Err(SideFault::BadPlane(Fault::OutOfRange));
        }
        if !x.ranged() {
            return Err(SideFault::BadPoint);
        }
        Ok(sign(self.sum_at(Meeting::from(x))))
    }

    // The order of two planes: by a, then b, c, d, as signed numbers.
    pub fn order(self, q: Plane) -> Ordering
        ensures { OrderTold self q result }
    {
        self.cmp(&q)
    }

    // Whether two planes have the same four numbers.
    pub fn same(self, q: Plane) -> bool
        ensures { SameTold self q result }
    {
        self == q
    }

    // The plane that stands in four entries of a table, from entry `at` on.
    pub fn load(t: &[i64], at: usize) -> Plane
        requires { at + 4 ≤ length t.now }
        ensures { plane result ≡ four_at t.now at }
    {
        Plane {
            a: t[at],
            b: t[at + 1],
            c: t[at + 2],
            d: t[at + 3],
        }
    }

    // Puts the plane into four entries of a table, from entry `at` on.
    pub fn store(self, t: &mut [i64], at: usize)
        requires { at + 4 ≤ length t.old }
        ensures { t.new ≡ sets t.old at (self.a ∷ self.b ∷ self.c ∷ self.d ∷ []) }
    {
        t[at] = self.a;
        t[at + 1] = self.b;
        t[at + 2] = self.c;
        t[at + 3] = self.d;
    }

    // The sum ax + by + cz + dw of the plane at (x,y,z,w): four terms of at most 1.8*10^18, so at most 7.2*10^18.
    pub fn sum_at(self, m: Meeting) -> i64
        requires { SumIn self.a self.b self.c self.d m.x m.y m.z m.w }
        ensures { result ≡ dot4 (plane self) (meeting m) }
    {
        self.a * m.x + self.b * m.y + self.c * m.z + self.d * m.w
    }
}

// ---- points

impl Point {
    pub const MOST_XYZ: u64 = 1_000_000_000_000_000;

    pub const MOST_W: u64 = 10_000_000_000;

    pub const REACH: i64 = 30_000;

    // The point (x,y,z,w) if it is in range and strictly inside the box.
    pub fn new(x: i64, y: i64, z: i64, w: i64) -> Result<Point, PointFault>
        ensures { PointMade x y z w result }
    {
        let p = Point { x, y, z, w };
        if !p.ranged() {
            return Err(PointFault::OutOfRange);
        }
        if !p.in_box() {
            return Err(PointFault::OutOfBox);
        }
        Ok(p)
    }

    // Whether x, y, z are in range, and w at least 1 and in range.
    #[tactic(auto, unfolding(scope::specs::Planes::point_in_range))]
    pub fn ranged(self) -> bool
        ensures { result ≡ point_in_range (point self) }
    {
        within(self.x, Point::MOST_XYZ)
            && within(self.y, Point::MOST_XYZ)
            && within(self.z, Point::MOST_XYZ)
            && (0 < self.w && within(self.w, Point::MOST_W))
    }

    // Whether a point in range lies strictly between the sides of the box, on each axis.
    pub fn in_box(self) -> bool
        requires { PointIn self.x self.y self.z self.w }
        ensures { result ≡ the-between self.x self.w and the-between self.y self.w and the-between self.z self.w }
    {
        between(self.x, self.w) && between(self.y, self.w) && between(self.z, self.w)
    }
}

// Whether x/w lies strictly between -REACH and REACH. REACH*w is at most 3*10^14, and the sums at most 1.3*10^15.
pub fn between(x: i64, w: i64) -> bool
    requires { AxisIn x w }
    ensures { result ≡ the-between x w }
{
    let most = Point::REACH * w;
    0 < x + most && 0 < most - x
}

// ---- three planes

// The four signed 3x3 minors of three planes. The last is at most 6*10^9 in size, the others at most 6*10^14.
pub fn minors(p: Plane, q: Plane, r: Plane) -> Meeting
    requires { ThreeIn p q r }
    ensures { meeting result ≡ the-meet (plane p) (plane q) (plane r) }
{
    Meeting {
        x: -det3((p.b, p.c, p.d), (q.b, q.c, q.d), (r.b, r.c, r.d)),
        y: det3((p.a, p.c, p.d), (q.a, q.c, q.d), (r.a, r.c, r.d)),
        z: -det3((p.a, p.b, p.d), (q.a, q.b, q.d), (r.a, r.b, r.d)),
        w: det3((p.a, p.b, p.c), (q.a, q.b, q.c), (r.a, r.b, r.c)),
    }
}

// Whether three planes are in range.
pub fn three_ranged(p: Plane, q: Plane, r: Plane) -> bool
    ensures { result ≡ three_in_range p q r }
{
    p.ranged() && q.ranged() && r.ranged()
}

// Where three planes meet: in one point if the determinant of their normals is not zero.
pub fn meet(p: Plane, q: Plane, r: Plane) -> Result<Option<Meeting>, Fault>
    ensures { MeetTold p q r result }
{
    if !three_ranged(p, q, r) {
        return Err(Fault::OutOfRange);
    }
    let m = minors(p, q, r);
    if m.w == 0 {
        return Ok(None);
    }
    Ok(Some(m))
}

// The side of h on which p, q and r meet: the signs of the two determinants are multiplied, and not the determinants. The 4x4 one is
// the sum of h at the meeting, at most 2.4*10^18 in size.
pub fn meet_side(p: Plane, q: Plane, r: Plane, h: Plane) -> Result<Option<Side>, Fault>
    ensures { MeetSideTold p q r h result }
{
    if !h.ranged() {
        return Err(Fault::OutOfRange);
    }
    let Some(m) = meet(p, q, r)? else {
        return Ok(None);
    };
    Ok(Some(times(sign(m.w), sign(h.sum_at(m)))))
}

// ---- coincidence

// Whether two planes are the same one, facing either way, reduced or not: all six 2x2 minors are zero.
pub fn coincident(p: Plane, q: Plane) -> Result<bool, Fault>
    ensures { CoincideTold p q result }
{
    if !p.ranged() {
        return Err(Fault::OutOfRange);
    }
    if !q.ranged() {
        return Err(Fault::OutOfRange);
    }
    Ok(all_minors_zero(p, q))
}

#[tactic(auto, unfolding(scope::specs::Planes::coincident))]
pub fn all_minors_zero(p: Plane, q: Plane) -> bool
    requires { TwoIn p q }
    ensures { result ≡ the-coincident (plane p) (plane q) }
{
    minor_zero(p.a, p.b, q.a, q.b)
        && (minor_zero(p.a, p.c, q.a, q.c)
            && (minor_zero(p.a, p.d, q.a, q.d)
                && (minor_zero(p.b, p.c, q.b, q.c)
                    && (minor_zero(p.b, p.d, q.b, q.d) && minor_zero(p.c, p.d, q.c, q.d)))))
}
