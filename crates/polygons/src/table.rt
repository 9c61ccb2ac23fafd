// Tables: the half-spaces in rows, the bound of an index, the corners of a polygon.
ghost use Rattle.std.specs.Prelude.{◌≡◌, [], ◌∷◌, ℕ, ◌+◌, ◌*◌, ◌<◌, ◌≤◌, pos, length, get_or};
ghost use Rattle.std.proofs.lemmas.List.Edits.{sets};
ghost use Rattle.theory.specs.Section.{index, vertex};
ghost use Rattle.theory.specs.Section.Witness.{added as the-added};
ghost use Rattle.planes.specs.Values.{plane, meeting};
ghost use Rattle.polygons.specs.Tables.{row as the_row, box_side, look, corner_at};
ghost use Rattle.polygons.specs.Asked.{Found, CornerIn, SummedIn, AddedIn};

use crate::Halves;
use planes::{Meeting, Plane};

impl Halves<'_> {
    // The half-space in row i.
    #[tactic(auto, unfolding(crate::specs::Tables::row))]
    pub fn row(&self, i: usize) -> Plane
        requires { i * self.now.width + 4 ≤ length self.now.numbers.now }
        ensures { plane result ≡ the_row self.now.numbers.now self.now.width i }
    {
        Plane::load(self.numbers, i * self.width)
    }

    // The bound of an index.
    #[tactic(auto, using(crate::proofs::Cells::look_box, crate::proofs::Cells::look_row))]
    pub fn bound(&self, k: usize) -> Plane
        requires { Found self.now.numbers.now self.now.width k }
        ensures { plane result ≡ look self.now.numbers.now self.now.width k }
    {
        if k < 6 {
            return box_side(k);
        }
        self.row(k - 6)
    }
}

// The sides of the box: x-, x+, y-, y+, z-, z+.
static BOX: [Plane; 6] = [
    Plane {
        a: 1,
        b: 0,
        c: 0,
        d: 30000,
    },
    Plane {
        a: -1,
        b: 0,
        c: 0,
        d: 30000,
    },
    Plane {
        a: 0,
        b: 1,
        c: 0,
        d: 30000,
    },
    Plane {
        a: 0,
        b: -1,
        c: 0,
        d: 30000,
    },
    Plane {
        a: 0,
        b: 0,
        c: 1,
        d: 30000,
    },
    Plane {
        a: 0,
        b: 0,
        c: -1,
        d: 30000,
    },
];

// A side of the box.
pub fn box_side(k: usize) -> Plane
    requires { k < 6 }
    ensures { plane result ≡ box_side k }
{
    BOX[k]
}

// The index of corner i.
#[tactic(auto, unfolding(crate::specs::Tables::corner_at))]
pub fn index_at(t: &[i64], i: usize) -> usize
    requires { CornerIn t.now i }
    ensures { result ≡ index (corner_at t.now i) }
{
    let k = t[5 * i];
    k as usize
}

// The vertex of corner i.
#[tactic(auto, unfolding(crate::specs::Tables::corner_at))]
pub fn vertex_at(t: &[i64], i: usize) -> Meeting
    requires { 5 * i + 5 ≤ length t.now }
    ensures { meeting result ≡ vertex (corner_at t.now i) }
{
    let at = 5 * i;
    Meeting {
        x: t[at + 1],
        y: t[at + 2],
        z: t[at + 3],
        w: t[at + 4],
    }
}

// Puts a corner into a table.
pub fn put(t: &mut [i64], i: usize, k: usize, m: Meeting)
    requires { (5 * i + 5 ≤ length t.old) × (k < 134) }
    ensures { t.new ≡ sets t.old (5 * i) (pos k ∷ m.x ∷ m.y ∷ m.z ∷ m.w ∷ []) }
{
    let at = 5 * i;
    t[at] = k as i64;
    t[at + 1] = m.x;
    t[at + 2] = m.y;
    t[at + 3] = m.z;
    t[at + 4] = m.w;
}

// The first n numbers of one table, copied to another. By a loop: `copy_from_slice` would have the archive for C call memmove.
pub fn copy(from: &[i64], to: &mut [i64], n: usize)
    requires { (n ≤ length from.now) × (n ≤ length to.old) }
    ensures { (j : ℕ) → j < n → get_or to.new j (pos 0) ≡ get_or from.now j (pos 0) }
{
    for i in 0..n {
        to[i] = from[i];
    }
}

// Three vertices, added: each sum is at most 1.8*10^15 in size, and 1.8*10^10 for w.
#[tactic(auto, using(crate::proofs::Sums::two_fit, crate::proofs::Sums::three_fit))]
pub fn sum(p: Meeting, q: Meeting, r: Meeting) -> Meeting
    requires { SummedIn (meeting p) (meeting q) (meeting r) }
    ensures { meeting result ≡ the-added (meeting p) (meeting q) (meeting r) }
{
    Meeting {
        x: p.x + q.x + r.x,
        y: p.y + q.y + r.y,
        z: p.z + q.z + r.z,
        w: p.w + q.w + r.w,
    }
}

// The first three vertices, added.
pub fn added(t: &[i64]) -> Meeting
    requires { AddedIn t.now }
    ensures { meeting result ≡ the-added (vertex (corner_at t.now 0)) (vertex (corner_at t.now 1)) (vertex (corner_at t.now 2)) }
{
    sum(vertex_at(t, 0), vertex_at(t, 1), vertex_at(t, 2))
}
