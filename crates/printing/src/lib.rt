// How the worked trails are shown, and what the calls answer: each value by its `Display`, so that a row is one `writeln!`.
#![tactic(auto)]

ghost use Rattle.printing.specs.Fractions.{Greatest};

use crossing::{Edges, Window};
use legs::Fraction;
use moment::Spot;
use record::Refusal;
use std::fmt;
use std::fmt::{Display, Formatter};

// ---- trails

// The fixes that a record has, in order, by position: a reader of a refused record would yield none.
#[derive(Clone, Copy)]
pub struct Trail<'a>(pub &'a [u8]);

impl Display for Trail<'_> {
    fn fmt<W: fmt::Write>(&self, f: &mut Formatter<W>) -> fmt::Result {
        let head = format::head_of(self.0);
        for k in 0..head.count as usize {
            if let Some(fix) = reading::read_at(self.0, k) {
                let gap = if k == 0 { "" } else { " " };
                write!(f, "{gap}{fix}")?;
            }
        }
        Ok(())
    }
}

// The tolerances of agings made one after the other.
#[derive(Clone, Copy)]
pub struct Tolerances<'a>(pub &'a [u16]);

impl Display for Tolerances<'_> {
    fn fmt<W: fmt::Write>(&self, f: &mut Formatter<W>) -> fmt::Result {
        write!(f, "e ")?;
        for (i, e) in self.0.iter().enumerate() {
            let then = if i == 0 { "" } else { " then " };
            write!(f, "{then}{e}")?;
        }
        Ok(())
    }
}

// ---- moments, windows and boxes

// A moment, always with three digits behind the point.
#[derive(Clone, Copy)]
pub struct Moment {
    pub second: u32,
    pub thousandths: u16,
}

impl Display for Moment {
    fn fmt<W: fmt::Write>(&self, f: &mut Formatter<W>) -> fmt::Result {
        write!(f, "{}.{:03}", self.second, self.thousandths)
    }
}

#[derive(Clone, Copy)]
pub struct InWindow(pub Window);

impl Display for InWindow {
    fn fmt<W: fmt::Write>(&self, f: &mut Formatter<W>) -> fmt::Result {
        write!(f, "window {}..{}", self.0.start.0, self.0.end.0)
    }
}

#[derive(Clone, Copy)]
pub struct InBox(pub Edges);

impl Display for InBox {
    fn fmt<W: fmt::Write>(&self, f: &mut Formatter<W>) -> fmt::Result {
        let e = self.0;
        write!(
            f,
            "box x {}..{}, y {}..{}",
            e.left, e.right, e.bottom, e.top
        )
    }
}

// ---- which fixes were kept

// The kept positions and the mark, as the record left has them, and the count that the aging answered.
#[derive(Clone, Copy)]
pub struct Kept<'a> {
    pub original: &'a [u8],
    pub left: &'a [u8],
    pub count: u32,
}

impl Kept<'_> {
    // The positions in the original of the fixes that stand in the record left. Both keep the order of time, so the record left is read on only where its next
    // fix is the original's. Says how many they are.
    fn positions<W: fmt::Write>(
        &self,
        f: &mut Formatter<W>,
        n: usize,
    ) -> Result<usize, fmt::Error> {
        let mut found = 0;
        for k in 0..n {
            let fix = reading::read_at(self.original, k);
            if fix.is_some() && fix == reading::read_at(self.left, found) {
                let comma = if found == 0 { "" } else { ", " };
                write!(f, "{comma}{k}")?;
                found += 1;
            }
        }
        Ok(found)
    }
}

impl Display for Kept<'_> {
    fn fmt<W: fmt::Write>(&self, f: &mut Formatter<W>) -> fmt::Result {
        let before = format::head_of(self.original);
        let after = format::head_of(self.left);
        if before.count == after.count {
            write!(f, "all: ")?;
        }
        let found = self.positions(f, before.count as usize)?;
        if found != after.count as usize {
            write!(f, " and fixes that are none of the trail's")?;
        }
        write!(f, "; count {}; mark {}", self.count, after.mark)
    }
}

// ---- what the calls answer

#[derive(Clone, Copy)]
pub struct Placed(pub Result<Spot, Refusal>);

impl Display for Placed {
    fn fmt<W: fmt::Write>(&self, f: &mut Formatter<W>) -> fmt::Result {
        match self.0 {
            Err(refusal) => write!(f, "{refusal}"),
            Ok(s) => write!(
                f,
                "{} and {} over {}; rounded {}, {}",
                s.x, s.y, s.d, s.whole.x, s.whole.y
            ),
        }
    }
}

// The greatest number that divides both numbers of a fraction, by Euclid, whose steps no range counts; 1 if both are 0.
fn common(n: u64, d: u64) -> u64
    ensures { Greatest n d result }
{
    let mut a = n;
    let mut b = d;
    while 0 < b {
        let rest = a % b;
        a = b;
        b = rest;
    }
    if a == 0 { 1 } else { a }
}

// A fraction as it is, with no denominator where that is 1.
#[derive(Clone, Copy)]
struct Ratio(u64, u64);

impl Display for Ratio {
    fn fmt<W: fmt::Write>(&self, f: &mut Formatter<W>) -> fmt::Result {
        if self.1 == 1 {
            return write!(f, "{}", self.0);
        }
        write!(f, "{}/{}", self.0, self.1)
    }
}

// Whether a box is crossed: a told time in lowest terms, and behind it the form in which the call told it, if that is another.
#[derive(Clone, Copy)]
pub struct Crossed(pub Result<Option<Fraction>, Refusal>);

impl Display for Crossed {
    fn fmt<W: fmt::Write>(&self, f: &mut Formatter<W>) -> fmt::Result {
        match self.0 {
            Err(refusal) => write!(f, "{refusal}"),
            Ok(None) => write!(f, "no"),
            Ok(Some(time)) => {
                let n = time.num;
                let d = time.den as u64;
                let c = common(n, d);
                write!(f, "yes, {}", Ratio(n / c, d / c))?;
                if c != 1 {
                    write!(f, ", told as {}", Ratio(n, d))?;
                }
                Ok(())
            },
        }
    }
}

// The length that a writer answers.
#[derive(Clone, Copy)]
pub struct Written(pub Result<u32, Refusal>);

impl Display for Written {
    fn fmt<W: fmt::Write>(&self, f: &mut Formatter<W>) -> fmt::Result {
        match self.0 {
            Err(refusal) => write!(f, "{refusal}"),
            Ok(bytes) => write!(f, "{bytes} bytes"),
        }
    }
}

// Whether the reader's checks accept a record.
#[derive(Clone, Copy)]
pub struct Checked(pub Result<(), Refusal>);

impl Display for Checked {
    fn fmt<W: fmt::Write>(&self, f: &mut Formatter<W>) -> fmt::Result {
        match self.0 {
            Err(refusal) => write!(f, "{refusal}"),
            Ok(()) => write!(f, "passes"),
        }
    }
}
