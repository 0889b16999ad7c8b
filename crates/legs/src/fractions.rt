// Times as fractions of seconds after the first fix, compared by cross-multiplying.
ghost use Rattle.std.specs.Prelude.{◌≡◌, ◌*◌, leb};
ghost use Rattle.legs.specs.Legs.{times, later_of, earlier_of, both, first_of};
ghost use Rattle.legs.specs.Answers.{meeting};
ghost use Rattle.legs.specs.Laws.Times.{Each};
ghost use Rattle.legs.specs.Laws.Ranges.{FractionFits};

use crate::{Fraction, Times};

// f ≤ g. It isn't `PartialOrd`, to which 1/2 and 2/4 would be equal: `==` tells them apart, since an answer's form is promised.
// No ghost field says that a fraction fits: `LegFits` bounds what it is made of, so `axis` and all below would have to ask for it.
fn at_most(f: Fraction, g: Fraction) -> bool
    requires { FractionFits f × FractionFits g }
    ensures { result ≡ leb (f.num * g.den) (g.num * f.den) }
{
    f.num * u64::from(g.den) <= g.num * u64::from(f.den)
}

// Of equals the former.
#[tactic(auto, unfolding(crate::specs::Legs::later_of))]
fn later_of(f: Fraction, g: Fraction) -> Fraction
    requires { FractionFits f × FractionFits g }
    ensures { result ≡ later_of f g }
{
    if at_most(g, f) { f } else { g }
}

#[tactic(auto, unfolding(crate::specs::Legs::earlier_of))]
fn earlier_of(f: Fraction, g: Fraction) -> Fraction
    requires { FractionFits f × FractionFits g }
    ensures { result ≡ earlier_of f g }
{
    if at_most(f, g) { f } else { g }
}

impl Times {
    // No time at all: from 1 to 0, as the definition has it. An option would not do: two stretches may have no time in common too.
    pub(crate) const NONE: Times = Times {
        first: Fraction { num: 1, den: 1 },
        last: Fraction { num: 0, den: 1 },
    };

    // From n/d to m/d.
    pub(crate) fn over(d: u32, n: u64, m: u64) -> Times
        ensures { result ≡ times n m d }
    {
        Times {
            first: Fraction { num: n, den: d },
            last: Fraction { num: m, den: d },
        }
    }

    // The times that are of both.
    pub(crate) fn both(self, t: Times) -> Times
        requires { Each FractionFits self × Each FractionFits t }
        ensures { result ≡ both self t }
    {
        Times {
            first: later_of(self.first, t.first),
            last: earlier_of(self.last, t.last),
        }
    }

    // The first of them, if there is one.
    #[tactic(auto, unfolding(crate::specs::Legs::first_of))]
    pub(crate) fn first_of(self) -> Option<Fraction>
        requires { Each FractionFits self }
        ensures { meeting result ≡ first_of self }
    {
        if at_most(self.first, self.last) {
            Some(self.first)
        } else {
            None
        }
    }
}
