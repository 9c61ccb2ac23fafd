// Prints what each call of planes answers, a line for each: every fault, each limit and one past it in both directions, sides, meetings
// with a determinant of either sign, orders and coincidences.
#![tactic(auto)]

mod words;

use planes::{Plane, Point};
use prints::Out;
use std::fmt::{self, Write};
use words::{Numbers, fault, order, point_fault, side, side_fault, yes};

// The limits of d, of x, y, z, and of w.
const D: i64 = 100_000_000;

const X: i64 = 1_000_000_000_000_000;

const W: i64 = 10_000_000_000;

// A plane and a point of any numbers.
fn pl(a: i64, b: i64, c: i64, d: i64) -> Plane {
    Plane { a, b, c, d }
}

fn pt(x: i64, y: i64, z: i64, w: i64) -> Point {
    Point { x, y, z, w }
}

fn show_planes(out: &mut Out) -> fmt::Result {
    for p in [
        pl(1000, 0, 0, 1),
        pl(-1000, 0, 0, 1),
        pl(1001, 0, 0, 1),
        pl(-1001, 0, 0, 1),
        pl(0, 1000, 0, 1),
        pl(0, -1000, 0, 1),
        pl(0, 1001, 0, 1),
        pl(0, -1001, 0, 1),
        pl(0, 0, 1000, 1),
        pl(0, 0, -1000, 1),
        pl(0, 0, 1001, 1),
        pl(0, 0, -1001, 1),
        pl(1, 1000, -1000, 7),
        pl(1, -1000, 1000, 7),
        pl(1, 1001, 0, 0),
        pl(1, 0, -1001, 0),
        pl(1, 0, 0, D),
        pl(1, 0, 0, -D),
        pl(1, 0, 0, D + 1),
        pl(1, 0, 0, -D - 1),
        pl(1000, 1000, 1000, 99_999_999),
        pl(i64::MAX, i64::MAX, i64::MAX, i64::MAX),
        pl(i64::MIN, 0, 0, 1),
        pl(1, 0, 0, i64::MIN),
        pl(0, i64::MIN, 0, 0),
        pl(0, 0, 0, 1),
        pl(0, 0, 0, 0),
        pl(0, 0, 0, 5),
        pl(0, 0, 0, D + 1),
        pl(2, 4, 6, 8),
        pl(2, 4, 6, 9),
        pl(6, 10, 15, 0),
        pl(6, 10, 0, 15),
        pl(0, 0, 2, 0),
        pl(0, 0, 1, 0),
        pl(-2, 0, 0, 4),
        pl(2, 2002, 0, 2),
        pl(-1, 0, 0, 5),
        pl(0, -1, 5, 5),
        pl(0, 0, -1, 5),
        pl(0, 1, -5, -5),
        pl(1, -5, -5, -5),
        pl(0, 0, 1, -5),
        pl(1, 0, 0, -1),
    ] {
        let q = Numbers::from(p);
        match Plane::new(p.a, p.b, p.c, p.d) {
            Ok(p) => writeln!(out, "plane {q}: made {}", Numbers::from(p))?,
            Err(f) => writeln!(out, "plane {q}: {}", fault(f))?,
        }
    }
    Ok(())
}

fn show_half_spaces(out: &mut Out) -> fmt::Result {
    for p in [
        pl(-1, 0, 0, 30_000),
        pl(2, 4, 6, 8),
        pl(0, 0, 0, 1),
        pl(0, 0, 0, 0),
        pl(1001, 0, 0, 1),
        pl(0, 0, -1000, -D),
        pl(0, 0, 1, -D - 1),
        pl(i64::MIN, i64::MIN, i64::MIN, i64::MIN),
    ] {
        let q = Numbers::from(p);
        match Plane::half_space(p.a, p.b, p.c, p.d) {
            Ok(p) => writeln!(out, "half-space {q}: made {}", Numbers::from(p))?,
            Err(f) => writeln!(out, "half-space {q}: {}", fault(f))?,
        }
    }
    Ok(())
}

fn show_points(out: &mut Out) -> fmt::Result {
    for x in [
        pt(29_999, 0, 0, 1),
        pt(30_000, 0, 0, 1),
        pt(-30_000, 0, 0, 1),
        pt(-29_999, 0, 0, 1),
        pt(0, 29_999, 0, 1),
        pt(0, 30_000, 0, 1),
        pt(0, -30_000, 0, 1),
        pt(0, 0, 29_999, 1),
        pt(0, 0, 30_000, 1),
        pt(0, 0, -30_000, 1),
        pt(0, 0, 0, 0),
        pt(0, 0, 0, -1),
        pt(0, 0, 0, 1),
        pt(0, 0, 0, W),
        pt(0, 0, 0, W + 1),
        pt(0, 0, 0, i64::MIN),
        pt(i64::MIN, 0, 0, 1),
        pt(i64::MAX, 0, 0, 1),
        pt(X, 0, 0, W),
        pt(-X, 0, 0, W),
        pt(X + 1, 0, 0, W),
        pt(-X - 1, 0, 0, W),
        pt(299_999_999_999_999, 0, 0, W),
        pt(300_000_000_000_000, 0, 0, W),
        pt(
            -299_999_999_999_999,
            299_999_999_999_999,
            -299_999_999_999_999,
            W,
        ),
        pt(0, -300_000_000_000_000, 0, W),
        pt(0, 0, X + 1, W),
        pt(0, X + 1, 0, W),
    ] {
        let y = Numbers::from(x);
        match Point::new(x.x, x.y, x.z, x.w) {
            Ok(x) => writeln!(out, "point {y}: made {}", Numbers::from(x))?,
            Err(f) => writeln!(out, "point {y}: {}", point_fault(f))?,
        }
    }
    Ok(())
}

fn show_sides(out: &mut Out) -> fmt::Result {
    for (p, x) in [
        (pl(0, 0, 1, -5), pt(0, 0, 10, 2)),
        (pl(0, 0, 1, -5), pt(0, 0, 11, 2)),
        (pl(0, 0, 1, -5), pt(0, 0, 9, 2)),
        (pl(1, 0, 0, 0), pt(-1, 0, 0, 1)),
        (pl(1, 0, 0, -D), pt(X, 0, 0, W)),
        (pl(1, 0, 0, -D), pt(X, 0, 0, 10_000_000)),
        (pl(1000, 1000, 1000, D), pt(X, X, X, W)),
        (pl(1000, 1000, 1000, -D), pt(-X, -X, -X, W)),
        (pl(-1000, 1000, -1000, D), pt(X, -X, X, W)),
        (pl(0, 0, 0, 0), pt(1, 2, 3, 4)),
        (pl(1001, 0, 0, 0), pt(0, 0, 0, 0)),
        (pl(1, 0, 0, i64::MIN), pt(0, 0, 0, 1)),
        (pl(1, 0, 0, 0), pt(0, 0, 0, 0)),
        (pl(1, 0, 0, 0), pt(0, 0, 0, -1)),
        (pl(1, 0, 0, 0), pt(X + 1, 0, 0, 1)),
        (pl(1, 0, 0, 0), pt(0, 0, i64::MIN, 1)),
        (pl(1, 0, 0, 0), pt(0, 0, 0, W + 1)),
        (pl(2, 0, 0, -3), pt(3, 0, 0, 2)),
    ] {
        let answer = match p.side(x) {
            Ok(s) => side(s),
            Err(f) => side_fault(f),
        };
        writeln!(
            out,
            "side {} of {}: {answer}",
            Numbers::from(p),
            Numbers::from(x)
        )?;
    }
    Ok(())
}

fn show_meets(out: &mut Out) -> fmt::Result {
    for [p, q, r] in [
        [pl(1, 0, 0, -3), pl(0, 1, 0, -4), pl(0, 0, 1, -5)],
        [pl(0, 1, 0, -4), pl(1, 0, 0, -3), pl(0, 0, 1, -5)],
        [pl(1, 0, 0, 0), pl(0, 1, 0, 0), pl(1, 1, 0, 5)],
        [pl(1, 0, 0, 0), pl(1, 0, 0, 1), pl(0, 0, 1, 0)],
        [pl(1, 2, 3, 4), pl(5, 6, 7, 8), pl(9, 10, 11, 12)],
        [pl(1, 2, 3, 4), pl(5, 6, 7, 8), pl(9, 10, 12, -11)],
        [
            pl(1000, 1000, 1000, D),
            pl(-1000, 1000, -1000, D),
            pl(1000, -1000, -1000, -D),
        ],
        [
            pl(1000, 1000, -1000, D),
            pl(1000, -1000, 1000, D),
            pl(-1000, 1000, 1000, D),
        ],
        [pl(0, 0, 0, 0), pl(1, 0, 0, 0), pl(0, 1, 0, 0)],
        [pl(1001, 0, 0, 0), pl(0, 1, 0, 0), pl(0, 0, 1, 0)],
        [pl(1, 0, 0, 0), pl(0, -1001, 0, 0), pl(0, 0, 1, 0)],
        [pl(1, 0, 0, 0), pl(0, 1, 0, 0), pl(0, 0, 1, D + 1)],
        [pl(1, 0, 0, 0), pl(1, 0, 0, 0), pl(0, 0, i64::MIN, 0)],
    ] {
        write!(
            out,
            "meet {}, {}, {}: ",
            Numbers::from(p),
            Numbers::from(q),
            Numbers::from(r)
        )?;
        match planes::meet(p, q, r) {
            Ok(Some(m)) => writeln!(out, "at {}", Numbers::from(m))?,
            Ok(None) => writeln!(out, "no point")?,
            Err(f) => writeln!(out, "{}", fault(f))?,
        }
    }
    Ok(())
}

fn show_meet_sides(out: &mut Out) -> fmt::Result {
    let p = pl(1, 0, 0, -3);
    let q = pl(0, 1, 0, -4);
    let r = pl(0, 0, 1, -5);
    for [p, q, r, h] in [
        [p, q, r, pl(1, 0, 0, 0)],
        [q, p, r, pl(1, 0, 0, 0)],
        [p, q, r, p],
        [q, p, r, p],
        [p, q, r, pl(1, 0, 0, -4)],
        [q, p, r, pl(1, 0, 0, -4)],
        [p, q, r, pl(1, 1, 1, -12)],
        [q, p, r, pl(1, 1, 1, -12)],
        [p, q, r, pl(1, 1, 1, -13)],
        [q, p, r, pl(1, 1, 1, -13)],
        [p, q, r, pl(1, 1, 1, -11)],
        [q, p, r, pl(1, 1, 1, -11)],
        [
            pl(1000, 1000, -1000, D),
            pl(1000, -1000, 1000, D),
            pl(-1000, 1000, 1000, D),
            pl(1000, 1000, 1000, -D),
        ],
        [
            pl(1000, -1000, 1000, D),
            pl(1000, 1000, -1000, D),
            pl(-1000, 1000, 1000, D),
            pl(1000, 1000, 1000, -D),
        ],
        [
            pl(1, 0, 0, 0),
            pl(0, 1, 0, 0),
            pl(1, 1, 0, 5),
            pl(0, 0, 1, 0),
        ],
        [
            pl(1, 0, 0, 0),
            pl(1, 0, 0, 0),
            pl(1, 0, 0, 0),
            pl(1, 0, 0, 0),
        ],
        [p, q, r, pl(0, 0, 0, 0)],
        [p, q, r, pl(0, 0, 0, -1)],
        [q, p, r, pl(0, 0, 0, -1)],
        [pl(1001, 0, 0, 0), q, r, p],
        [p, pl(0, -1001, 0, 0), r, p],
        [p, q, pl(0, 0, 1, -D - 1), p],
        [p, q, r, pl(0, 0, 1001, 0)],
        [p, p, p, pl(i64::MIN, 0, 0, 0)],
    ] {
        let answer = match planes::meet_side(p, q, r, h) {
            Ok(Some(s)) => side(s),
            Ok(None) => "no point",
            Err(f) => fault(f),
        };
        write!(
            out,
            "meet-side {}, {}, {}",
            Numbers::from(p),
            Numbers::from(q),
            Numbers::from(r)
        )?;
        writeln!(out, " of {}: {answer}", Numbers::from(h))?;
    }
    Ok(())
}

fn show_orders(out: &mut Out) -> fmt::Result {
    for (p, q) in [
        (pl(-1, 0, 0, 0), pl(1, 0, 0, 0)),
        (pl(1, 0, 0, 0), pl(-1, 0, 0, 0)),
        (pl(1, -1, 0, 0), pl(1, 1, 0, 0)),
        (pl(1, 1, 0, 0), pl(1, -1, 0, 0)),
        (pl(1, 0, -1, 0), pl(1, 0, 1, 0)),
        (pl(1, 0, 1, 0), pl(1, 0, -1, 0)),
        (pl(1, 0, 0, -1), pl(1, 0, 0, 1)),
        (pl(1, 0, 0, 1), pl(1, 0, 0, -1)),
        (pl(1, 2, 3, 4), pl(1, 2, 3, 4)),
        (pl(0, 9, 9, 9), pl(1, 0, 0, 0)),
        (pl(1, 0, 9, 9), pl(1, 1, 0, 0)),
        (pl(1, 1, 0, 9), pl(1, 1, 1, 0)),
        (pl(i64::MIN, 0, 0, 0), pl(i64::MAX, 0, 0, 0)),
        (pl(i64::MAX, 0, 0, 0), pl(i64::MIN, 0, 0, 0)),
        (pl(0, 1, 0, 0), pl(1, 0, 0, 0)),
    ] {
        writeln!(
            out,
            "order {}, {}: {}",
            Numbers::from(p),
            Numbers::from(q),
            order(p.order(q))
        )?;
    }
    for (p, q) in [
        (pl(1, 2, 3, 4), pl(1, 2, 3, 4)),
        (pl(1, 2, 3, 4), pl(-1, 2, 3, 4)),
        (pl(1, 2, 3, 4), pl(1, -2, 3, 4)),
        (pl(1, 2, 3, 4), pl(1, 2, -3, 4)),
        (pl(1, 2, 3, 4), pl(1, 2, 3, -4)),
        (pl(i64::MIN, i64::MAX, 0, 0), pl(i64::MIN, i64::MAX, 0, 0)),
    ] {
        writeln!(
            out,
            "same {}, {}: {}",
            Numbers::from(p),
            Numbers::from(q),
            yes(p.same(q))
        )?;
    }
    Ok(())
}

fn show_coincidences(out: &mut Out) -> fmt::Result {
    for (p, q) in [
        (pl(1, 2, 3, 4), pl(1, 2, 3, 4)),
        (pl(1, 2, 3, 4), pl(2, 4, 6, 8)),
        (pl(1, 2, 3, 4), pl(-3, -6, -9, -12)),
        (pl(1, 2, 3, 4), pl(1, 2, 3, 5)),
        (pl(1, 2, 3, 4), pl(1, 2, 4, 4)),
        (pl(1, 2, 3, 4), pl(1, 3, 3, 4)),
        (pl(1, 2, 3, 4), pl(2, 2, 3, 4)),
        (pl(0, 1, 0, 0), pl(0, 0, 1, 0)),
        (pl(1, 0, 0, 0), pl(0, 0, 1, 0)),
        (pl(1, 0, 0, 0), pl(0, 1, 0, 0)),
        (pl(0, 0, 0, 1), pl(0, 0, 1, 0)),
        (pl(0, 0, 0, 1), pl(0, 1, 0, 0)),
        (pl(0, 0, 0, 1), pl(1, 0, 0, 0)),
        (pl(0, 0, 1, 1), pl(0, 0, 1, 2)),
        (pl(1000, 1000, 1000, D), pl(-1000, -1000, -1000, -D)),
        (pl(0, 0, 0, 0), pl(1, 2, 3, 4)),
        (pl(1001, 0, 0, 0), pl(1, 0, 0, 0)),
        (pl(1, 0, 0, 0), pl(0, 0, 0, i64::MIN)),
        (pl(1, 0, 0, D + 1), pl(1, 0, 0, 0)),
    ] {
        let answer = match planes::coincident(p, q) {
            Ok(b) => yes(b),
            Err(f) => fault(f),
        };
        writeln!(
            out,
            "coincident {}, {}: {answer}",
            Numbers::from(p),
            Numbers::from(q)
        )?;
    }
    Ok(())
}

fn show(out: &mut Out) -> fmt::Result {
    show_planes(out)?;
    show_half_spaces(out)?;
    show_points(out)?;
    show_sides(out)?;
    show_meets(out)?;
    show_meet_sides(out)?;
    show_orders(out)?;
    show_coincidences(out)
}

// A line that is not taken is left out, and the rest is printed.
fn main() {
    let _ = show(&mut Out);
}
