// The operations, and the codes of rows and of marks.
ghost use Rattle.std.specs.Prelude.{◌≡◌};
ghost use Rattle.scope.specs.Cells.{operate};
ghost use Rattle.walks.specs.Marks.{operation_of, mark_of};

use refusals::Refusal;
use tables::Solid;

// The operation of a merge.
#[derive(Clone, Copy, Debug, PartialEq, Eq)]
pub enum Operation {
    Union,
    Intersection,
    Minus,
}

// The mark of a leaf: whether its cell belongs to the solid.
#[derive(Clone, Copy, Debug, PartialEq, Eq)]
pub enum Mark {
    In,
    Out,
}

// What stands in a row for a side: the mark of a leaf, or an earlier row.
#[derive(Clone, Copy, Debug, PartialEq, Eq)]
pub enum Code {
    Mark(Mark),
    Row(u16),
}

impl Operation {
    // The mark that the operation gives a mark of A and a mark of B.
    #[tactic(auto, unfolding(scope::specs::Cells::operate))]
    pub fn mark(self, a: Mark, b: Mark) -> Mark
        ensures { mark_of result ≡ operate (operation_of self) (mark_of a) (mark_of b) }
    {
        let (in_a, in_b) = (a == Mark::In, b == Mark::In);
        let inside = match self {
            Operation::Union => in_a || in_b,
            Operation::Intersection => in_a && in_b,
            Operation::Minus => in_a && !in_b,
        };
        if inside { Mark::In } else { Mark::Out }
    }
}

// An operation by its code.
impl TryFrom<u8> for Operation {
    ghost use Rattle.walks.specs.Marks.{OperationTold};

    type Error = Refusal;

    ghost try_from_gives = { OperationTold };

    fn try_from(code: u8) -> Result<Operation, Refusal> {
        match code {
            1 => Ok(Operation::Union),
            2 => Ok(Operation::Intersection),
            3 => Ok(Operation::Minus),
            _ => Err(Refusal::UnknownOperation),
        }
    }
}

// A mark as the number that stands in a row.
impl From<Mark> for u16 {
    ghost use Rattle.std.specs.Prelude.{◌≡◌};
    ghost use Rattle.walks.specs.Marks.{mark_code};

    ghost from_gives = { λ m n. n ≡ mark_code m };

    fn from(m: Mark) -> u16 {
        match m {
            Mark::In => Solid::IN,
            Mark::Out => Solid::OUT,
        }
    }
}

// A number in a row, as a code.
impl From<u16> for Code {
    ghost use Rattle.walks.specs.Marks.{CodeTold};

    ghost from_gives = { CodeTold };

    fn from(n: u16) -> Code {
        match n {
            Solid::IN => Code::Mark(Mark::In),
            Solid::OUT => Code::Mark(Mark::Out),
            _ => Code::Row(n),
        }
    }
}
