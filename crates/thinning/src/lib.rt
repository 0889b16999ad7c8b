// The thinning layer: Douglas-Peucker over a record's fixes. The agings that rewrite a record by it are the crate above.
#![tactic(auto)]

ghost use Rattle.std.specs.Prelude.{◌≡◌, ◌+◌, ◌*◌, ◌-◌, ◌<◌, ◌≤◌, leb, length};
ghost use Rattle.distance.specs.Distance.{deviation, allowance};
ghost use Rattle.distance.specs.Fix.{fix_of};
ghost use Rattle.distance.specs.Span.{one_word};
ghost use Rattle.format.specs.Kinds.{layout};
ghost use Rattle.format.specs.Format.{record_length, fix_at, each};
ghost use Rattle.format.specs.Fixes.{nth};
ghost use Rattle.thinning.specs.Marks.{Furthest, SplitJudged, Marks, ClearFrom, Cleared, Says, Stretch, StretchMarked};
ghost use Rattle.thinning.specs.Spans.{Spans, SpanOff};
ghost use Rattle.distance.specs.Silence.{silent};
ghost use Rattle.thinning.specs.Thinning.{thinning};

use distance::squares::SquaredSum;
use distance::words::Words;
use distance::{Fix, Tolerance};
use format::{Fixes, Kind};

// A span with inner fixes, from the fix at position lo to the one at position hi. Any three fixes of its trail, in order, are a span and an inner fix of it within
// the limits.
#[derive(Clone, Copy)]
struct Span<'a> {
    fixes: Fixes<'a>,
    lo: usize,
    hi: usize,
    ghost inner: { lo + 1 < hi },
    ghost within: { hi < fixes.count },
    ghost spans: { Spans (layout fixes.kind).limit (nth fixes) fixes.count },
}

impl<'a> Span<'a> {
    // The furthest inner fix, by the ends i and j: its position, and its Nx² + Ny². One pass over the inner fixes. Only a greater value takes the place of an earlier
    // one; where no inner fix is off the chord at all, the first one is the furthest.
    fn furthest<S: SquaredSum>(self, i: Fix, j: Fix) -> (usize, S)
        requires { SpanOff S.GREATEST_N (fix_of i) (fix_of j) (nth self.fixes) self.lo self.hi }
        ensures { let s = self.entry in
            Furthest (λ x. deviation (fix_of i) (nth s.fixes x) (fix_of j)) s.lo s.hi result.0 (S.value result.1) }
    {
        let mut at = self.lo + 1;
        let mut value = S::from(0);
        for k in self.lo + 1..self.hi {
            let v = S::of(i, self.fixes.at(k), j);
            if value < v {
                at = k;
                value = v;
            }
        }
        (at, value)
    }

    // Where the span is split: at its furthest inner fix, or nowhere if that is within e, so that all are. S has room for its values. It is made a part of each of
    // its callers, since in them the kind is known.
    #[inline(always)]
    fn judged_as<S: SquaredSum>(self, e: Tolerance) -> Option<usize>
        requires { let f = nth self.fixes in SpanOff S.GREATEST_N (f self.lo) (f self.hi) f self.lo self.hi }
        ensures { let s = self.entry in SplitJudged deviation allowance (nth s.fixes) e.0 s.lo s.hi result }
    {
        let i = self.fixes.at(self.lo);
        let j = self.fixes.at(self.hi);
        let (m, value) = self.furthest::<S>(i, j);
        if value <= S::from(distance::allowance(e, i, j)) {
            return None;
        }
        Some(m)
    }

    // Whether one word holds the Nx² + Ny² of every inner fix: by how far from 0 places of the kind may be, and by the span's seconds.
    fn one_word_holds(self) -> bool
        ensures { let s = self.entry in
            let f = nth s.fixes in
            result ≡ leb (2 * (layout s.fixes.kind).limit * ((f s.hi).t - (f s.lo).t)) one_word }
    {
        let i = self.fixes.at(self.lo);
        let j = self.fixes.at(self.hi);
        let d = distance::since(i.t, j.t);
        2 * (format::limit_of(self.fixes.kind) as u64) * (d.0 as u64) <= u64::GREATEST_N
    }

    // All values of a span are compared with each other, so the whole span takes one word, which is quicker, or two.
    fn judged_by_seconds(self, e: Tolerance) -> Option<usize>
        ensures { let s = self.entry in SplitJudged deviation allowance (nth s.fixes) e.0 s.lo s.hi result }
    {
        if self.one_word_holds() {
            return self.judged_as::<u64>(e);
        }
        self.judged_as::<Words>(e)
    }

    // The same span, with its kind called by its name.
    fn named(self, kind: Kind) -> Span<'a>
        requires { kind ≡ self.fixes.kind }
        ensures kind { result.fixes.kind ≡ kind }
        ensures fixes { nth result.fixes ≡ nth self.entry.fixes }
        ensures lo { result.lo ≡ self.entry.lo }
        ensures hi { result.hi ≡ self.entry.hi }
    {
        Span {
            fixes: self.fixes.named(kind),
            lo: self.lo,
            hi: self.hi,
        }
    }

    // With each kind called by its name the compiler makes the search of each by itself. In centimetres one word holds every span's values, whatever its seconds.
    fn judged(self, e: Tolerance) -> Option<usize>
        ensures { let s = self.entry in SplitJudged deviation allowance (nth s.fixes) e.0 s.lo s.hi result }
    {
        match self.fixes.kind {
            Kind::Trail => self.named(Kind::Trail).judged_as::<u64>(e),
            Kind::MillimetreTrail => self.named(Kind::MillimetreTrail).judged_by_seconds(e),
            Kind::SilenceTrail => self.named(Kind::SilenceTrail).judged_as::<u64>(e),
        }
    }
}

// Thins the span from position lo to position hi: marks the inner fixes that stay, and counts those that were measured. The fixes are lent on like the marks: a
// copy of them at each depth would take stack.
fn split(fixes: &Fixes<'_>, keep: &mut [bool], lo: usize, hi: usize, e: Tolerance) -> u32
    requires order { lo ≤ hi }
    requires few { hi < 4096 }
    requires marks { hi < length keep.old }
    requires within { hi < fixes.now.count }
    requires spans { Spans (layout fixes.now.kind).limit (nth fixes.now) fixes.now.count }
    ensures { Marks deviation allowance (nth fixes.now) e.0 lo hi keep.old keep.new result }
{
    if hi - lo < 2 {
        return 0;
    }
    let n = (hi - lo - 1) as u32;
    let span = Span {
        fixes: *fixes,
        lo,
        hi,
    };
    let Some(m) = span.judged(e) else {
        return n;
    };
    keep[m] = true;
    let p = split(fixes, keep, lo, m, e);
    let q = split(fixes, keep, m, hi, e);
    n + p + q
}

// Where the stretch that begins at position lo ends: at the first fix from there on that silence follows, or at the last.
fn stretch_end(fixes: &Fixes<'_>, lo: usize) -> usize
    requires { lo < fixes.now.count }
    ensures { Stretch silent (nth fixes.now) fixes.now.count lo result }
{
    let last = fixes.count - 1;
    for hi in lo..last {
        if distance::silent(fixes.at(hi)) {
            return hi;
        }
    }
    last
}

// Thins the stretch from position lo to position hi, whose marks and all later ones are clear: its ends stay, and what stays between them.
fn mark_stretch(fixes: &Fixes<'_>, keep: &mut [bool], lo: usize, hi: usize, e: Tolerance) -> u32
    requires order { lo ≤ hi }
    requires few { hi < 4096 }
    requires marks { hi < length keep.old }
    requires clear { ClearFrom lo keep.old }
    requires within { hi < fixes.now.count }
    requires spans { Spans (layout fixes.now.kind).limit (nth fixes.now) fixes.now.count }
    ensures { StretchMarked deviation allowance (nth fixes.now) e.0 lo hi keep.old keep.new result }
{
    keep[lo] = true;
    keep[hi] = true;
    split(fixes, keep, lo, hi, e)
}

// Marks what thinning at e keeps of the first n fixes, in marks that were cleared, and counts: stretch by stretch.
pub fn mark_kept(b: &[u8], keep: &mut [bool], n: usize, kind: Kind, e: Tolerance) -> u32
    requires { (1 ≤ n)
        × (n ≤ 4096)
        × (n ≤ length keep.old)
        × Cleared keep.old
        × (record_length (layout kind) n ≤ length b.now)
        × Spans (layout kind).limit (fix_at (layout kind) b.now) n }
    ensures { let l = each (fix_at (layout kind) b.now) 0 n in
        Says (thinning e.0 l) keep.new l result }
{
    let fixes = Fixes {
        bytes: b,
        kind,
        count: n,
    };
    let mut count: u32 = 0;
    let mut lo = 0;
    // a `while`: lo goes on by a stretch at a time
    while lo < n {
        let hi = stretch_end(&fixes, lo);
        count += mark_stretch(&fixes, keep, lo, hi, e);
        lo = hi + 1;
    }
    count
}
