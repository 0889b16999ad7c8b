// A record's fixes in a list of the structs that the writer of their kind takes, and the list lent to it.
ghost use Rattle.std.specs.Prelude.{◌≡◌, map, ◌≤◌, length, take};
ghost use Rattle.distance.specs.Fix.{Bounded, fix_of};
ghost use Rattle.distance.specs.Laws.All.{All};
ghost use Rattle.format.specs.Bytes.{InBytes};
ghost use Rattle.format.specs.Fixes.{nth};
ghost use Rattle.format.specs.Format.{each};
ghost use Rattle.format.specs.Kinds.{layout};
ghost use Rattle.writing.specs.Answers.{wrote};
ghost use Rattle.writing.specs.Writing.{Writes};

use distance::{Coordinate, Fix, Seconds, Silence};
use format::Fixes;
use record::Refusal;
use writing::{CentimetreFix, Centimetres, ListedFix, MillimetreFix, Millimetres, SilenceFix};

// A struct of the writer's lists, made of a fix of its kind.
pub(crate) trait FromFix: ListedFix {
    // What stands where no fix is put.
    const BLANK: Self;

    fn from_fix(fix: Fix) -> Self
        requires x { InBytes (layout Self.KIND).width fix.x.0 }
        requires y { InBytes (layout Self.KIND).width fix.y.0 }
        requires silence { (layout Self.KIND).silence_width ≡ 0 → fix.silence.0 ≡ 0 }
        ensures { Self.plain result ≡ fix_of fix };
}

// A coordinate that two bytes hold, as a list in centimetres has it. (No `From`, which could not ask that they do.)
fn narrower(c: Coordinate) -> Centimetres
    requires { InBytes 2 c.0 }
    ensures { result.0 ≡ c.0 }
{
    Centimetres(c.0 as i16)
}

impl FromFix for CentimetreFix {
    const BLANK: CentimetreFix = CentimetreFix {
        t: Seconds(0),
        x: Centimetres(0),
        y: Centimetres(0),
    };

    fn from_fix(fix: Fix) -> CentimetreFix {
        CentimetreFix {
            t: fix.t,
            x: narrower(fix.x),
            y: narrower(fix.y),
        }
    }
}

impl FromFix for MillimetreFix {
    const BLANK: MillimetreFix = MillimetreFix {
        t: Seconds(0),
        x: Millimetres(0),
        y: Millimetres(0),
    };

    fn from_fix(fix: Fix) -> MillimetreFix {
        MillimetreFix {
            t: fix.t,
            x: Millimetres(fix.x.0),
            y: Millimetres(fix.y.0),
        }
    }
}

impl FromFix for SilenceFix {
    const BLANK: SilenceFix = SilenceFix {
        t: Seconds(0),
        x: Centimetres(0),
        y: Centimetres(0),
        silence: Silence(0),
    };

    fn from_fix(fix: Fix) -> SilenceFix {
        SilenceFix {
            t: fix.t,
            x: narrower(fix.x),
            y: narrower(fix.y),
            silence: fix.silence,
        }
    }
}

// The fixes, at the front of a list that has room for them.
fn list_fixes<F: FromFix>(fixes: Fixes<'_>, list: &mut [F])
    requires kind { fixes.kind ≡ F.KIND }
    requires room { fixes.count ≤ length list.old }
    requires bounded { All (Bounded (layout fixes.kind).limit) (each (nth fixes) 0 fixes.count) }
    ensures long { length list.new ≡ length list.old }
    ensures listed { map F.plain (take fixes.entry.count list.new) ≡ each (nth fixes.entry) 0 fixes.entry.count }
{
    for k in 0..fixes.count {
        list[k] = F::from_fix(fixes.at(k));
    }
}

// The record of the fixes, by a list of them that is lent to the writer.
pub(crate) fn write_list<F: FromFix>(
    fixes: Fixes<'_>,
    list: &mut [F],
    out: &mut [u8],
) -> Result<u32, Refusal>
    requires kind { fixes.kind ≡ F.KIND }
    requires room { fixes.count ≤ length list.old }
    requires bounded { All (Bounded (layout fixes.kind).limit) (each (nth fixes) 0 fixes.count) }
    ensures { Writes (layout F.KIND) (each (nth fixes.entry) 0 fixes.entry.count) out.old (wrote result) out.new }
{
    list_fixes(fixes, list);
    writing::write_list(&list[..fixes.count], out)
}
