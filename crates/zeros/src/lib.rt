// Tables of zeros. A call makes each table lent for its result zero, the whole slice, before it writes an answer, and again after a refusal
// that may follow such writing. It leaves its work table zero. Operands are not written.
#![tactic(auto)]

ghost use Rattle.std.specs.Prelude.{◌≡◌, length, replicate};

// The length stated for a work table.
pub const WORK: usize = 4096;

// What a table may hold: a number, with its zero.
pub trait Zero: Clone {
    ghost nought: { Self };

    fn zero() -> Self
        ensures { result ≡ nought };

    // A copy of the zero can be made, and is the zero.
    ghost copied: { Self.is_infallible nought × ((x : Self) → Self.is_clone nought x → x ≡ nought) };
}

// The entries of a table of planes, or of a work table.
impl Zero for i64 {
    ghost use Rattle.std.specs.Prelude.{pos};
    ghost use Rattle.std.proofs.Common.{rules};

    ghost nought = { pos 0 };

    ghost copied = { Prim.search rules };

    fn zero() -> i64 {
        0
    }
}

// The entries of a table of nodes.
impl Zero for u16 {
    ghost use Rattle.std.proofs.Common.{rules};

    ghost nought = { 0 };

    ghost copied = { Prim.search rules };

    fn zero() -> u16 {
        0
    }
}

// The characters of a text.
impl Zero for u8 {
    ghost use Rattle.std.proofs.Common.{rules};

    ghost nought = { 0 };

    ghost copied = { Prim.search rules };

    fn zero() -> u8 {
        0
    }
}

// Makes each entry of a table zero.
pub fn clear<T: Zero>(t: &mut [T])
    ensures { t.new ≡ replicate (length t.old) T.nought }
{
    t.fill(T::zero());
}
