// Why a call refuses, as document 01's table "What may be refused" has it, and the number that the table gives.
#![tactic(auto)]

ghost use Rattle.std.specs.Prelude.{◌≡◌};

// The refusals, in the order of their numbers.
#[derive(Clone, Copy, Debug, PartialEq, Eq)]
pub enum Refusal {
    // A line that is no frame.
    Malformed,
    // A frame that is not due, missing text, or text after the end.
    NotDue,
    // A text, planes, nodes or half-spaces over the limit.
    OverLimit,
    // A plane that is not lawful.
    UnlawfulPlane,
    // Planes that do not ascend, or one that no node uses.
    PlaneList,
    // A plane number, a child code or the root code against the rules, or rows outside the root's tree.
    BadTree,
    // An operation's code that is unknown.
    UnknownOperation,
    // A lent table that is too short, or over 1,000 nodes.
    NoRoom,
    // A merged tree that uses over 64 planes.
    OverPlanes,
    // A point out of range, or not strictly inside the box.
    BadPoint,
}

// A refusal, and the line that decides it.
#[derive(Clone, Copy, Debug, PartialEq, Eq)]
pub struct LineRefusal {
    pub refusal: Refusal,
    pub line: usize,
}

impl Refusal {
    // The refusal of a line.
    pub fn at(self, line: usize) -> LineRefusal
        ensures { result ≡ record { refusal = self; line = line } }
    {
        LineRefusal {
            refusal: self,
            line,
        }
    }
}

// The number of a refusal.
impl From<Refusal> for u8 {
    ghost use Rattle.std.specs.Prelude.{◌≡◌};
    ghost use Rattle.refusals.specs.Numbers.{number};

    ghost from_gives = { λ r n. n ≡ number r };

    fn from(r: Refusal) -> u8 {
        match r {
            Refusal::Malformed => 1,
            Refusal::NotDue => 2,
            Refusal::OverLimit => 3,
            Refusal::UnlawfulPlane => 4,
            Refusal::PlaneList => 5,
            Refusal::BadTree => 6,
            Refusal::UnknownOperation => 7,
            Refusal::NoRoom => 8,
            Refusal::OverPlanes => 9,
            Refusal::BadPoint => 10,
        }
    }
}

// A call that tells no line tells the refusal alone.
impl From<LineRefusal> for Refusal {
    ghost use Rattle.std.specs.Prelude.{◌≡◌};

    ghost from_gives = { λ l r. r ≡ l.refusal };

    fn from(l: LineRefusal) -> Refusal {
        l.refusal
    }
}
