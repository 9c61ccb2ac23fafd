// Whole numbers beneath planes and points: sizes, a common divisor, and the determinants that meetings are made of.
// The limits that each asks are records of specs/Bounds, and each step of it is then below 2^63 in size.
ghost use Rattle.std.specs.Prelude.{◌≡◌, nat_abs, leb};
ghost use Rattle.whole.specs.Gcd.{gcd};
ghost use Rattle.whole.specs.Vec.{det3};
ghost use Rattle.scope.specs.Planes.{is_zero, minor};
ghost use Rattle.planes.specs.Values.{triple};
ghost use Rattle.planes.specs.Bounds.{RowsIn, MinorIn};

// The size of x.
pub fn size(x: i64) -> u64
    ensures { result ≡ nat_abs x }
{
    x.unsigned_abs()
}

// Whether x is at most m in size.
pub fn within(x: i64, m: u64) -> bool
    ensures { result ≡ leb (nat_abs x) m }
{
    size(x) <= m
}

// The greatest common divisor, by Euclid's rule; that of 0 and x is x.
pub fn common(x: u64, y: u64) -> u64
    ensures { result ≡ gcd x y }
{
    let (mut u, mut v) = (x, y);
    while v != 0 {
        (u, v) = (v, u % v);
    }
    u
}

// The determinant of three rows, of which the last column may hold d. Six products of at most 10^14: at most 6*10^14.
pub fn det3(a: (i64, i64, i64), b: (i64, i64, i64), c: (i64, i64, i64)) -> i64
    requires { RowsIn a.0 a.1 a.2 b.0 b.1 b.2 c.0 c.1 c.2 }
    ensures { result ≡ det3 (triple a.0 a.1 a.2) (triple b.0 b.1 b.2) (triple c.0 c.1 c.2) }
{
    a.0 * (b.1 * c.2 - b.2 * c.1) - a.1 * (b.0 * c.2 - b.2 * c.0) + a.2 * (b.0 * c.1 - b.1 * c.0)
}

// The 2x2 minor ad - bc. Two products of at most 10^11: at most 2*10^11.
pub fn minor(a: i64, b: i64, c: i64, d: i64) -> i64
    requires { MinorIn a b c d }
    ensures { result ≡ minor a b c d }
{
    a * d - b * c
}

// Whether a 2x2 minor is zero.
#[tactic(auto, using(crate::proofs::Laws::zero_test))]
pub fn minor_zero(a: i64, b: i64, c: i64, d: i64) -> bool
    requires { MinorIn a b c d }
    ensures { result ≡ is_zero (minor a b c d) }
{
    minor(a, b, c, d) == 0
}
