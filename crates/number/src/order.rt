// The magnitude of a number, and the smaller and the larger of two.
ghost use Rattle.std.specs.Prelude.{◌≡◌, ℕ, T, true, false, not, if◌then◌else◌, is_nan, to_bits, from_bits};
ghost use Rattle.std.specs.Float.{binary64};
ghost use Rattle.std.specs.Float.Ieee.{eq, nan_bits};
ghost use Rattle.std.specs.Float.Ieee.Scale.{finite};
ghost use Rattle.number.specs.Arithmetic.{abs_of, lower_of, upper_of, min_of, max_of};

use crate::either;

// |x|, by its bits, where the library's compares twice. A NaN gives a constant, so that the compiler needs no test for it where the magnitude is compared with a
// constant.
pub fn abs(x: f64) -> f64
    ensures { result ≡ abs_of x }
{
    if x.is_nan() {
        return f64::NAN;
    }
    f64::from_bits(x.to_bits() & 0x7fff_ffff_ffff_ffff)
}

// Neither a NaN nor an infinity.
pub fn is_finite(x: f64) -> bool
    ensures { result ≡ finite x }
{
    x.is_finite()
}

// The smaller and the larger by one comparison: right but for two zeros, and where the first is a NaN. They are two as the comparison is, and share the choice.
pub fn lower(x: f64, y: f64) -> f64
    ensures { result ≡ lower_of x y }
{
    either(y < x, y, x)
}

pub fn upper(x: f64, y: f64) -> f64
    ensures { result ≡ upper_of x y }
{
    either(x < y, y, x)
}

// Of two numbers the one that a choice gives, where a NaN in the first place is passed over. Equal numbers have the same bits but for the sign of a zero: theirs are
// joined.
fn chosen<J: Fn(u64, u64) -> u64, C: Fn(f64, f64) -> f64>(
    x: f64,
    y: f64,
    joined: J,
    choice: C,
) -> f64
    requires join { J.IsAlwaysCallable joined }
    requires choose { C.IsAlwaysCallable choice }
    requires number { (bits : ℕ) → eq x y ≡ true → J.post joined (to_bits binary64 x) (to_bits binary64 y) bits → T (not (nan_bits binary64 bits)) }
    ensures equal { eq x y ≡ true → (bits : ℕ) × J.post joined (to_bits binary64 x) (to_bits binary64 y) bits × (result ≡ from_bits binary64 bits) }
    ensures other { eq x y ≡ false → C.post choice (if is_nan x then y else x) y result }
{
    if x == y {
        return f64::from_bits(joined(x.to_bits(), y.to_bits()));
    }
    choice(either(x.is_nan(), y, x), y)
}

// "Or" makes the sign of a zero negative where either is.
pub fn min(x: f64, y: f64) -> f64
    ensures { result ≡ min_of x y }
{
    chosen(x, y, |a, b| a | b, lower)
}

// And "and" makes it positive where either is.
pub fn max(x: f64, y: f64) -> f64
    ensures { result ≡ max_of x y }
{
    chosen(x, y, |a, b| a & b, upper)
}
