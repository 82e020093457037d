// Fractions of a segment's length, and what planes leave of a segment.
ghost use Rattle.std.specs.Prelude.{◌≡◌, ◌≤◌, nat_abs};
ghost use Rattle.std.specs.Int.Signed.{non_neg};
ghost use Rattle.whole.specs.Segment.{less, earlier, later, crossing_at};
ghost use Rattle.whole.specs.Steps.{gap_limit, Small, Ends, SmallSpan, CutBy};

#[derive(Clone, Copy)]
pub struct Fraction {
    pub top: u64,
    pub bottom: u64,
}

// Whether a point at this distance from a plane is not behind it.
pub(crate) fn in_front(distance: i64) -> bool
    ensures { result ≡ non_neg distance }
{
    0 <= distance
}

impl Fraction {
    // How far along a segment crosses a plane that its ends lie at these distances from, on different sides.
    fn crossing(first: i64, second: i64) -> Fraction
        requires { (nat_abs first ≤ gap_limit) × (nat_abs second ≤ gap_limit) }
        ensures { result ≡ crossing_at first second }
    {
        let top = first.unsigned_abs();
        Fraction {
            top,
            bottom: top + second.unsigned_abs(),
        }
    }

    // Whether it is below another, by cross products. It is no `PartialOrd`, which could not ask that they fit, nor tell 1/2 from 2/4;
    // and the definitions make fractions of any numbers, so that what fits is asked here and not held by the type.
    pub(crate) fn less(self, other: Fraction) -> bool
        requires { Small self × Small other }
        ensures { result ≡ less self other }
    {
        self.top * other.bottom < other.top * self.bottom
    }

    fn earlier(self, other: Fraction) -> Fraction
        requires { Small self × Small other }
        ensures { result ≡ earlier self other }
    {
        if other.less(self) { other } else { self }
    }

    fn later(self, other: Fraction) -> Fraction
        requires { Small self × Small other }
        ensures { result ≡ later self other }
    {
        if self.less(other) { other } else { self }
    }
}

// What planes leave of a segment: from where it has come in to where it goes out.
#[derive(Clone, Copy)]
pub struct Span {
    pub start: Fraction,
    pub end: Fraction,
}

impl Span {
    // The whole segment.
    pub(crate) const WHOLE: Span = Span {
        start: Fraction { top: 0, bottom: 1 },
        end: Fraction { top: 1, bottom: 1 },
    };

    // Past one plane more, that the segment's ends lie at these distances from.
    pub(crate) fn cut(self, first: i64, second: i64) -> Span
        requires { SmallSpan self × Ends first second }
        ensures { CutBy first second self result }
    {
        match (in_front(first), in_front(second)) {
            (true, false) => Span {
                end: self.end.earlier(Fraction::crossing(first, second)),
                ..self
            },
            (false, true) => Span {
                start: self.start.later(Fraction::crossing(first, second)),
                ..self
            },
            _ => self,
        }
    }
}
