// Numbers read from a lent slice, and a result stored into one.
ghost use Rattle.std.specs.Prelude.{◌≡◌};
ghost use Rattle.number.specs.Slice.{at, all_finite, stored_at, stored};

// The number at a place; past the end a NaN, as the definition `at` has it, which the definitions of every operation read their records by.
pub fn at(s: &[f64], i: usize) -> f64
    ensures { result ≡ at s.now i }
{
    s.get(i).copied().unwrap_or(f64::NAN)
}

// Whether none is a NaN or an infinity: zero times either is a NaN, and times any other number a zero. It looks at all, so that no branch waits for a number and
// the compiler takes several at a time.
pub fn all_finite(s: &[f64]) -> bool
    ensures { result ≡ all_finite s.now }
{
    let mut all = true;
    for &x in s {
        all &= x * 0.0 == 0.0;
    }
    all
}

// The numbers of one slice, into another from a place on; one without room for them is left alone.
pub fn store_at(from: &[f64], out: &mut [f64], first: usize)
    ensures { out.new ≡ stored_at from.now first out.old }
{
    if first <= out.len() && from.len() <= out.len() - first {
        out[first..first + from.len()].copy_from_slice(from);
    }
}

// The numbers of one slice, into another of the same length; one of another length is left alone.
pub fn store(from: &[f64], out: &mut [f64])
    ensures { out.new ≡ stored from.now out.old }
{
    if from.len() == out.len() {
        out.copy_from_slice(from);
    }
}
