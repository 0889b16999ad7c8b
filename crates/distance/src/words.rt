// Numbers of two words, for sums of squares that outgrow one.
ghost use Rattle.std.specs.Prelude.{◌<◌};

// Two words, and no one number of 128 bits: laws and wrong builds speak of the carry and of the low word.
// high · 2³² + low. With low below 2³² a number has these words and no others, and the greater of two is the one whose words are, the high one first.
#[derive(Clone, Copy, PartialEq, Eq, PartialOrd, Ord)]
pub struct Words {
    pub high: u64,
    pub low: u64,
    ghost normal: { low < 4294967296 },
}

// The same sum of a high and a low part before what the low one has from 2³² on is carried to the high one.
#[derive(Clone, Copy)]
struct Parts {
    high: u64,
    low: u64,
}

impl Parts {
    ghost use Rattle.std.specs.Prelude.{◌*◌};
    ghost use Rattle.distance.specs.Laws.Words.{PartsOf, sum_of_parts};
    ghost use Rattle.distance.specs.Words.{WordsOf};

    // x², so small that two such squares can be added: x is a·2¹⁶ + b, and its square a²·2³² and b·(2x − b).
    fn square(x: u64) -> Self
        requires { x < 1099511627776 }
        ensures { PartsOf (x * x) result }
    {
        let a = x / 65536;
        let b = x % 65536;
        Parts {
            high: a * a,
            low: b * (x + x - b),
        }
    }

    // The number that they are.
    fn carried(self) -> Words
        requires { (self.high < 9223372036854775808) × (self.low < 9223372036854775808) }
        ensures { WordsOf (sum_of_parts self) result }
    {
        Words {
            high: self.high + self.low / 4294967296,
            low: self.low % 4294967296,
        }
    }
}

impl Words {
    ghost use Rattle.std.specs.Prelude.{◌+◌, ◌*◌};
    ghost use Rattle.distance.specs.Words.{WordsOf};

    // x² + y².
    pub(crate) fn sum_of_squares(x: u64, y: u64) -> Self
        requires { (x < 1099511627776) × (y < 1099511627776) }
        ensures { WordsOf (x * x + y * y) result }
    {
        let p = Parts::square(x);
        let q = Parts::square(y);
        let sum = Parts {
            high: p.high + q.high,
            low: p.low + q.low,
        };
        sum.carried()
    }
}

// A number of one word.
impl From<u64> for Words {
    ghost use Rattle.distance.specs.Words.{WordsOf};

    ghost from_gives = { WordsOf };

    fn from(n: u64) -> Self {
        Words {
            high: n / 4294967296,
            low: n % 4294967296,
        }
    }
}
