// Paths: the half-spaces of a cell in a table, and the order in which they are asked.
ghost use Rattle.std.specs.Prelude.{◌≡◌, ◌*◌};
ghost use Rattle.std.specs.Iterator.{at_most};
ghost use Rattle.cuts.specs.Paths.{PathIn, AskedIn, Asks};

// The first `depth` rows of a table, nine numbers each.
#[derive(Clone, Copy)]
pub struct Path<'a> {
    pub rows: &'a [i64],
    pub depth: usize,
}

// The rows of a path that are asked, last first: by the places where they begin. `end` is the place where the next of them ends. A row that
// holds another need not be asked after it, and each row's link passes over such rows.
#[derive(Clone, Copy)]
pub struct Asked<'a> {
    pub rows: &'a [i64],
    pub end: usize,
}

impl<'a> Path<'a> {
    // The rows that are asked.
    pub fn asked(&self) -> Asked<'a>
        requires { PathIn self.now.rows.now self.now.depth }
        ensures rows { result.rows.now ≡ self.now.rows.now }
        ensures end { result.end ≡ self.now.depth * 9 }
        ensures stands { AskedIn result.rows.now result.end }
    {
        Asked {
            rows: self.rows,
            end: self.depth * 9,
        }
    }
}

impl Iterator for Asked<'_> {
    type Item = usize;

    ghost can_next = { λ s. AskedIn s.rows.now s.end };

    ghost next_gives = { λ s r t. Asks s.rows.now s.end r t.rows.now t.end };

    ghost remaining = { λ s. at_most s.end };

    fn next(&mut self) -> Option<usize> {
        if self.end == 0 {
            return None;
        }
        let at = self.end - 9;
        let link = self.rows[at + 8];
        self.end = link as usize;
        Some(at)
    }
}
