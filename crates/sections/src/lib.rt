// The section of a region by a plane, as document 01's "Section of a region by a plane" has it.
#![tactic(auto)]

ghost use Rattle.std.specs.Prelude.{◌≡◌, ◌∷◌, ◌++◌, map, ◌+◌, pos, length, replicate};
ghost use Rattle.std.proofs.lemmas.List.Edits.{sets};
ghost use Rattle.scope.specs.Section.{way, rest};
ghost use Rattle.scope.specs.Planes.{half_fault};
ghost use Rattle.scope.specs.Answers.{no_fault, no_faults, flat_planes};
ghost use Rattle.refusals.specs.Numbers.{numbered};
ghost use Rattle.planes.specs.Values.{plane};
ghost use Rattle.polygons.specs.Tables.{look, indices, rows_to};
ghost use Rattle.polygons.specs.Asked.{Polygon};
ghost use Rattle.sections.specs.Asked.{LawfulIn, ClipsIn, BoundedIn, WriteIn};
ghost use Rattle.sections.specs.Promises.{SectionTold, Drawn};

use planes::Plane;
use polygons::{Halves, clip_on, index_at, opened};
use refusals::Refusal;

// The most half-spaces of a section.
pub const MOST_HALVES: usize = 128;

// Whether a half-space is in range with a normal that is not zero.
fn lawful_half(h: Plane) -> bool
    ensures { result ≡ no_fault (half_fault (plane h)) }
{
    Plane::half_space(h.a, h.b, h.c, h.d).is_ok()
}

// ---- a plane, and the half-spaces of the region that it cuts

// The half-spaces stand in so many rows, and are taken in order.
#[derive(Clone, Copy)]
struct Cutting<'a> {
    plane: Plane,
    halves: Halves<'a>,
    rows: usize,
}

impl Cutting<'_> {
    // Whether the plane and each of the half-spaces are in range with normals that are not zero.
    fn lawful(&self) -> bool
        requires { LawfulIn self.now.halves.numbers.now self.now.halves.width self.now.rows }
        ensures { result ≡ no_faults (plane self.now.plane ∷ rows_to self.now.halves.numbers.now self.now.halves.width self.now.rows) }
    {
        if !lawful_half(self.plane) {
            return false;
        }
        for i in 0..self.rows {
            if !lawful_half(self.halves.row(i)) {
                return false;
            }
        }
        true
    }

    // Clips the polygon of n corners by the half-spaces in order. How many corners it has then; none are Nothing.
    fn clip_all(&self, t: &mut [i64], n: usize, out: &mut [i64]) -> usize
        requires { ClipsIn (plane self.now.plane) self.now.halves.numbers.now self.now.halves.width self.now.rows t.old n out.old }
        ensures { Polygon (plane self.now.plane) (look self.now.halves.numbers.now self.now.halves.width) (6 + self.now.rows) (rest (way (plane self.now.plane)) ++ rows_to self.now.halves.numbers.now self.now.halves.width self.now.rows) t.new result }
    {
        let mut m = n;
        for i in 0..self.rows {
            m = clip_on(self.plane, &self.halves, 6 + i, t, m, out);
            if m == 0 {
                return 0;
            }
        }
        m
    }

    // The section's polygon in the table t: how many corners it has; none are Nothing.
    fn bounded(&self, t: &mut [i64]) -> usize
        requires { BoundedIn (plane self.now.plane) self.now.halves.numbers.now self.now.halves.width self.now.rows t.old }
        ensures { Polygon (plane self.now.plane) (look self.now.halves.numbers.now self.now.halves.width) (6 + self.now.rows) (rest (way (plane self.now.plane)) ++ rows_to self.now.halves.numbers.now self.now.halves.width self.now.rows) t.new result }
    {
        let mut other = [0i64; 675];
        let n = opened(self.plane, &self.halves, t, &mut other);
        self.clip_all(t, n, &mut other)
    }
}

// The planes of the n corners in t, a row each.
fn write_bounds(hs: &Halves, t: &[i64], n: usize, bounds: &mut [i64])
    requires { WriteIn hs.now.numbers.now hs.now.width t.now n bounds.old }
    ensures { bounds.new ≡ sets bounds.old 0 (flat_planes (map (look hs.now.numbers.now hs.now.width) (indices t.now n))) }
{
    for i in 0..n {
        hs.bound(index_at(t, i)).store(bounds, 4 * i);
    }
}

// ---- the public call

// The section, its bounds written into a table of zeros.
fn drawn(
    s: Plane,
    halves: &[i64],
    bounds: &mut [i64],
    work: &mut [i64],
) -> Result<Option<usize>, Refusal>
    requires { bounds.old ≡ replicate (length bounds.old) (pos 0) }
    ensures { Drawn s halves.now bounds.old bounds.new work.old (numbered result) }
{
    if work.len() < zeros::WORK {
        return Err(Refusal::NoRoom);
    }
    if halves.len() % 4 != 0 {
        return Err(Refusal::NotDue);
    }
    let rows = halves.len() / 4;
    if MOST_HALVES < rows {
        return Err(Refusal::OverLimit);
    }
    let hs = Halves {
        numbers: halves,
        width: 4,
    };
    let cutting = Cutting {
        plane: s,
        halves: hs,
        rows,
    };
    if !cutting.lawful() {
        return Err(Refusal::UnlawfulPlane);
    }
    let n = cutting.bounded(work);
    if n == 0 {
        return Ok(None);
    }
    if bounds.len() / 4 < n {
        return Err(Refusal::NoRoom);
    }
    write_bounds(&hs, work, n, bounds);
    Ok(Some(n))
}

// The section of the half-spaces by the plane s: its bounds, a row of four numbers each, and how many they are; None is Nothing.
// Refused with 8 if the work table is shorter than zeros::WORK, 2 if the half-spaces are not rows of four numbers, 3 over 128 of them, 4 if the
// plane or a half-space is out of range or has a zero normal, and 8, after Nothing, if the table of bounds has too few rows.
// The table of bounds is left with the bounds and then zeros, and with zeros alone after Nothing and after a refusal; the work table with
// zeros.
pub fn section(
    s: Plane,
    halves: &[i64],
    bounds: &mut [i64],
    work: &mut [i64],
) -> Result<Option<usize>, Refusal>
    ensures { SectionTold s halves.now bounds.old bounds.new work.old work.new (numbered result) }
{
    zeros::clear(bounds);
    let r = drawn(s, halves, bounds, work);
    zeros::clear(work);
    r
}
