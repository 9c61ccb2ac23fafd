// The rows that the walks read and put out. A walk is in A or, below a leaf of A, in B: the mark `above` of that leaf tells which.
ghost use Rattle.std.specs.Prelude.{◌≡◌, ◌+◌, ◌*◌, ◌<◌, length, get_or};
ghost use Rattle.refusals.specs.Numbers.{numbered};
ghost use Rattle.planes.specs.Values.{plane};
ghost use Rattle.tables.specs.Rows.{plane_at};
ghost use Rattle.walks.specs.Standing.{offset, walked, number_at, NumberIn, PlaneOfIn};
ghost use Rattle.walks.specs.Putting.{Room, Put, Closed};

use crate::Mark;
use planes::Plane;
use refusals::Refusal;
use tables::Solid;

// ---- reading

// Two solids whose planes are joined in one list: that list, the rows of A and of B, and the numbers in the list of A's planes and, from 64
// on, of B's.
#[derive(Clone, Copy)]
pub struct Operands<'a> {
    pub planes: &'a [i64],
    pub a: &'a [u16],
    pub b: &'a [u16],
    pub numbers: &'a [u16],
}

impl<'a> Operands<'a> {
    // The rows of the operand that is walked.
    fn rows(&self, above: Option<Mark>) -> &'a [u16]
        ensures { result.now ≡ walked self.now above }
    {
        match above {
            None => self.a,
            Some(_) => self.b,
        }
    }

    // The code on the front side of a row.
    pub fn front(&self, above: Option<Mark>, row: u16) -> u16
        requires { 3 * row + 2 < length (walked self.now above) }
        ensures { result ≡ get_or (walked self.now above) (3 * row + 1) 0 }
    {
        self.rows(above)[3 * row as usize + 1]
    }

    // The code on the back side of a row.
    pub fn back(&self, above: Option<Mark>, row: u16) -> u16
        requires { 3 * row + 2 < length (walked self.now above) }
        ensures { result ≡ get_or (walked self.now above) (3 * row + 2) 0 }
    {
        self.rows(above)[3 * row as usize + 2]
    }

    // The number in the joined list of a row's plane.
    #[tactic(auto, unfolding(crate::specs::Standing::plane_number))]
    pub fn number_of(&self, above: Option<Mark>, row: u16) -> u16
        requires { NumberIn (walked self.now above) self.now.numbers.now (offset above) row }
        ensures { result ≡ number_at self.now above row }
    {
        let n = self.rows(above)[3 * row as usize] as usize;
        match above {
            None => self.numbers[n],
            Some(_) => self.numbers[64 + n],
        }
    }

    // The plane of a row.
    pub fn plane_of(&self, above: Option<Mark>, row: u16) -> Plane
        requires { PlaneOfIn self.now.planes.now self.now.numbers.now (walked self.now above) (offset above) row }
        ensures { plane result ≡ plane_at self.now.planes.now (number_at self.now above row) }
    {
        tables::row(self.planes, self.number_of(above, row) as usize)
    }
}
// ---- putting out

// A row, put out as row `next`: refused where the lent rows, or 1,000, are full.
pub fn emit(out: &mut [u16], next: usize, n: u16, f: u16, b: u16) -> Result<(u16, usize), Refusal>
    requires { Room out.old next }
    ensures { Put out.old out.new next n f b (numbered result) }
{
    if out.len() / 3 <= next || Solid::MOST_NODES <= next {
        return Err(Refusal::NoRoom);
    }
    let at = 3 * next;
    out[at..at + 3].copy_from_slice(&[n, f, b]);
    Ok((next as u16, next + 1))
}

// The last step at a node: the mark where both results are the same mark, else a row.
pub fn close(out: &mut [u16], next: usize, n: u16, f: u16, b: u16) -> Result<(u16, usize), Refusal>
    requires { Room out.old next }
    ensures { Closed out.old out.new next n f b (numbered result) }
{
    if f == b && Solid::OUT <= f {
        return Ok((f, next));
    }
    emit(out, next, n, f, b)
}
