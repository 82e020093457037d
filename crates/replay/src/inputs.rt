// The inputs of a call, cut from one slice.
ghost use Rattle.std.specs.Prelude.{◌≡◌, slice_index, take, drop};

use crate::lengths::Lengths;

// Four slices: those that a call does not take have no numbers.
#[derive(Clone, Copy)]
pub struct Inputs<'a> {
    pub a: &'a [f64],
    pub b: &'a [f64],
    pub c: &'a [f64],
    pub d: &'a [f64],
}

// The first numbers of a slice, as many as it has, and what follows them.
pub fn cut(s: &[f64], count: usize) -> (&[f64], &[f64])
    ensures first { result.0.now ≡ take count s.now }
    ensures rest { result.1.now ≡ drop count s.now }
{
    s.split_at(count.min(s.len()))
}

impl<'a> Inputs<'a> {
    // One behind the other, of the lengths that an operation asks for.
    pub fn of(given: &'a [f64], lengths: Lengths) -> Inputs<'a>
        ensures first { result.a.now ≡ take (slice_index lengths.places 0) given.now }
        ensures second { result.b.now ≡ take (slice_index lengths.places 1) (drop (slice_index lengths.places 0) given.now) }
        ensures third { result.c.now ≡ take (slice_index lengths.places 2) (drop (slice_index lengths.places 1) (drop (slice_index lengths.places 0) given.now)) }
        ensures fourth { result.d.now ≡ take (slice_index lengths.places 3) (drop (slice_index lengths.places 2) (drop (slice_index lengths.places 1) (drop (slice_index lengths.places 0) given.now))) }
    {
        let (a, past_a) = cut(given, usize::from(lengths.places[0]));
        let (b, past_b) = cut(past_a, usize::from(lengths.places[1]));
        let (c, past_c) = cut(past_b, usize::from(lengths.places[2]));
        let (d, _) = cut(past_c, usize::from(lengths.places[3]));
        Inputs { a, b, c, d }
    }
}
