// Floats counted in sixteenths of a centimetre.
ghost use Rattle.std.specs.Prelude.{◌≡◌};
ghost use Rattle.anchors.specs.Anchors.{sixteenths};
ghost use Rattle.anchors.specs.Answers.{count_of, exact_of};
ghost use Rattle.anchors.specs.Laws.Reading.{capped, pair};

// A length along an axis, with its sign, in sixteenths of a centimetre.
#[derive(Clone, Copy)]
pub struct Sixteenths(pub i32);

// A place, or a step from one.
#[derive(Clone, Copy)]
pub struct Exact {
    pub x: Sixteenths,
    pub y: Sixteenths,
}

// How many sixteenths v is, if it is a whole number of them. From 2¹⁹ on every finite float is one; these are all counted as 2²³, with the sign of v, since no
// place and no step between places is so far. Below that sixteen times v is computed without loss, and is a whole number if cutting off a fraction changes
// nothing.
pub fn count(v: f32) -> Option<Sixteenths>
    ensures { count_of result ≡ capped (sixteenths v) }
{
    if !v.is_finite() {
        return None;
    }
    if 524288.0 <= v {
        return Some(Sixteenths(8388608));
    }
    if v <= -524288.0 {
        return Some(Sixteenths(-8388608));
    }
    let scaled = v * 16.0;
    let n = std::num::saturating_f32_to_i32(scaled);
    (n as f32 == scaled).then_some(Sixteenths(n))
}

// Both coordinates of a place or a step.
pub fn count_both(x: f32, y: f32) -> Option<Exact>
    ensures { exact_of result ≡ pair (capped (sixteenths x)) (capped (sixteenths y)) }
{
    Some(Exact {
        x: count(x)?,
        y: count(y)?,
    })
}
