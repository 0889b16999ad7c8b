// The writer over a lent list of fixes: its struct says of which kind they are.
ghost use Rattle.std.specs.Prelude.{◌≡◌, ℕ, map, ◌<◌, length, refl};
ghost use Rattle.std.proofs.Common.{arith};
ghost use Rattle.distance.specs.Fix.{Fix as Plain, fix_of};
ghost use Rattle.format.specs.declared.Kind.{Kind as CodeKind};
ghost use Rattle.format.specs.declared.Kind.TheVariants.{Trail, MillimetreTrail, SilenceTrail};
ghost use Rattle.format.specs.Kinds.{layout, trail, millimetre_trail, silence_trail};
ghost use Rattle.writing.specs.Writing.{in_centimetres, in_millimetres, with_silences, Writes};
ghost use Rattle.writing.specs.Answers.{wrote};
ghost use Rattle.writing.specs.Laws.Lists.{nth, nth_silent};

use crate::lent::{Lent, write_lent};
use crate::{CentimetreFix, MillimetreFix, SilenceFix};
use distance::{Coordinate, Fix, Silence};
use format::Kind;
use record::Refusal;

// A struct that says a fix of one kind.
pub trait ListedFix: Copy {
    ghost KIND: { CodeKind };

    ghost plain: { Self → Plain };

    const KIND: Kind;

    fn plain(self) -> Fix
        ensures { fix_of result ≡ plain self };

    // It says no more of silence than its kind's bytes can.
    ghost sayable: { (f : Self) → (layout KIND).silence_width ≡ 0 → (plain f).silence ≡ 0 };
}

impl ListedFix for CentimetreFix {
    ghost KIND = { Trail };

    ghost plain = { in_centimetres };

    const KIND: Kind = Kind::Trail;

    fn plain(self) -> Fix {
        Fix {
            t: self.t,
            x: Coordinate(self.x.0 as i32),
            y: Coordinate(self.y.0 as i32),
            silence: Silence(0),
        }
    }

    ghost sayable = { λ f e. refl };
}

impl ListedFix for MillimetreFix {
    ghost KIND = { MillimetreTrail };

    ghost plain = { in_millimetres };

    const KIND: Kind = Kind::MillimetreTrail;

    fn plain(self) -> Fix {
        Fix {
            t: self.t,
            x: Coordinate(self.x.0),
            y: Coordinate(self.y.0),
            silence: Silence(0),
        }
    }

    ghost sayable = { λ f e. refl };
}

impl ListedFix for SilenceFix {
    ghost KIND = { SilenceTrail };

    ghost plain = { with_silences };

    const KIND: Kind = Kind::SilenceTrail;

    fn plain(self) -> Fix {
        let fix = CentimetreFix {
            t: self.t,
            x: self.x,
            y: self.y,
        };
        Fix {
            silence: self.silence,
            ..fix.plain()
        }
    }

    ghost sayable = { λ f e. absurd (Prim.omega (arith, e)) };
}

impl<'a, F: ListedFix> Lent for &'a [F] {
    ghost kind = { λ s. F.KIND };

    ghost count = { λ s. length s.now };

    ghost fix = { λ s. nth F.plain s.now };

    fn kind(self) -> Kind {
        F::KIND
    }

    fn count(self) -> usize {
        self.len()
    }

    fn fix(self, k: usize) -> Fix {
        self[k].plain()
    }

    ghost sayable = { λ s k e. nth_silent F.plain s.now k (λ f. F.sayable f e) };
}

// The record of a lent list of fixes, marked never.
pub fn write_list<F: ListedFix>(fixes: &[F], out: &mut [u8]) -> Result<u32, Refusal>
    ensures { Writes (layout F.KIND) (map F.plain fixes.now) out.old (wrote result) out.new }
{
    write_lent(fixes, out)
}

// .. by the names that callers know: of fixes in centimetres ..
pub fn write_centimetres(fixes: &[CentimetreFix], out: &mut [u8]) -> Result<u32, Refusal>
    ensures { Writes trail (map in_centimetres fixes.now) out.old (wrote result) out.new }
{
    write_list(fixes, out)
}

// .. in millimetres ..
pub fn write_millimetres(fixes: &[MillimetreFix], out: &mut [u8]) -> Result<u32, Refusal>
    ensures { Writes millimetre_trail (map in_millimetres fixes.now) out.old (wrote result) out.new }
{
    write_list(fixes, out)
}

// .. and in centimetres, each of which says whether silence follows.
pub fn write_silences(fixes: &[SilenceFix], out: &mut [u8]) -> Result<u32, Refusal>
    ensures { Writes silence_trail (map with_silences fixes.now) out.old (wrote result) out.new }
{
    write_list(fixes, out)
}
