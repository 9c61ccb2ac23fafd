// The words of a line: numbers with blanks between them, and what each answer is called.
use planes::{Fault, Meeting, Plane, Point, PointFault, Side, SideFault};
use std::cmp::Ordering;
use std::fmt;

// Four numbers.
#[derive(Clone, Copy)]
pub struct Numbers(i64, i64, i64, i64);

impl From<Plane> for Numbers {
    fn from(p: Plane) -> Numbers {
        Numbers(p.a, p.b, p.c, p.d)
    }
}

impl From<Point> for Numbers {
    fn from(x: Point) -> Numbers {
        Numbers(x.x, x.y, x.z, x.w)
    }
}

impl From<Meeting> for Numbers {
    fn from(m: Meeting) -> Numbers {
        Numbers(m.x, m.y, m.z, m.w)
    }
}

impl fmt::Display for Numbers {
    fn fmt<W: fmt::Write>(&self, f: &mut fmt::Formatter<W>) -> fmt::Result {
        let Numbers(a, b, c, d) = *self;
        write!(f, "{a} {b} {c} {d}")
    }
}

pub fn fault(f: Fault) -> &'static str {
    match f {
        Fault::OutOfRange => "out of range",
        Fault::ZeroNormal => "zero normal",
        Fault::NotReduced => "not reduced",
        Fault::WrongSign => "wrong sign",
    }
}

pub fn point_fault(f: PointFault) -> &'static str {
    match f {
        PointFault::OutOfRange => "out of range",
        PointFault::OutOfBox => "out of box",
    }
}

pub fn side_fault(f: SideFault) -> &'static str {
    match f {
        SideFault::BadPlane(f) => fault(f),
        SideFault::BadPoint => "bad point",
    }
}

pub fn side(s: Side) -> &'static str {
    match s {
        Side::Front => "front",
        Side::On => "on",
        Side::Back => "back",
    }
}

pub fn order(o: Ordering) -> &'static str {
    match o {
        Ordering::Less => "before",
        Ordering::Equal => "same",
        Ordering::Greater => "after",
    }
}

pub fn yes(b: bool) -> &'static str {
    if b { "yes" } else { "no" }
}
