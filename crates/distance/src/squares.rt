// Nx² + Ny² of an inner fix, in one word or in two.
ghost use Rattle.std.specs.Prelude.{◌≡◌, ℕ, ◌+◌, ◌*◌, ◌<◌, leb, refl, Some};
ghost use Rattle.std.specs.Ordering.{nat_cmp};
ghost use Rattle.distance.specs.Fix.{fix_of};
ghost use Rattle.distance.specs.Distance.{deviation};
ghost use Rattle.distance.specs.Span.{Off, one_word, greatest_N};
ghost use Rattle.distance.specs.Words.{value};
ghost use Rattle.distance.specs.Laws.Words.{words_ordered};

use crate::words::Words;
use crate::{Fix, deviations};

// Nx² + Ny² as a number that is compared with others of its type. All values of a span are of one type.
pub trait SquaredSum: Copy + PartialOrd + From<u64> {
    // the number
    ghost value: { Self → ℕ };

    // The greatest |N| of which it holds the sum of two squares.
    const GREATEST_N: u64;

    ghost GREATEST_N: { ℕ };

    // That of the inner fix m of the span from i to j.
    fn of(i: Fix, m: Fix, j: Fix) -> Self
        requires { Off GREATEST_N (fix_of i) (fix_of m) (fix_of j) }
        ensures { value result ≡ deviation (fix_of i) (fix_of m) (fix_of j) };

    // they are compared as the numbers are ..
    ghost ordered: { (v w : Self) → Self.partial_cmp v w ≡ Some (nat_cmp (value v) (value w)) };

    // .. and a number of one word is itself
    ghost from_word: { (n : ℕ) (v : Self) → Self.from_gives n v → value v ≡ n };
}

// One word, which is quicker. Each signed square is below 2⁶³, so no branch is spent on a sign, and the sum is below 2⁶⁴.
impl SquaredSum for u64 {
    ghost value = { λ n. n };

    // its square is the greatest below 2⁶³
    const GREATEST_N: u64 = 3_037_000_499;

    ghost GREATEST_N = { one_word };

    ghost ordered = { λ v w. refl };

    ghost from_word = { λ n v h. h };

    fn of(i: Fix, m: Fix, j: Fix) -> Self {
        let (x, y) = deviations(i, m, j);
        (x * x) as u64 + (y * y) as u64
    }
}

// Two, for a span that one word may be too small for.
impl SquaredSum for Words {
    ghost value = { value };

    // no record's N is greater
    const GREATEST_N: u64 = 2 * 160_000 * 65_535;

    ghost GREATEST_N = { greatest_N };

    ghost ordered = { words_ordered };

    ghost from_word = { λ n v h. h.is };

    fn of(i: Fix, m: Fix, j: Fix) -> Self {
        let (x, y) = deviations(i, m, j);
        Words::sum_of_squares(x.unsigned_abs(), y.unsigned_abs())
    }
}

// Whether x² is at most y² + z²: in one word where it holds both, and else in two.
pub fn square_at_most(x: u64, y: u64, z: u64) -> bool
    requires { (x < 1099511627776) × (y < 1099511627776) × (z < 1099511627776) }
    ensures { result ≡ leb (x * x) (y * y + z * z) }
{
    if x < 4294967296 && y + z < 4294967296 {
        return x * x <= y * y + z * z;
    }
    Words::sum_of_squares(x, 0) <= Words::sum_of_squares(y, z)
}
