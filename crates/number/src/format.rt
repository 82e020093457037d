// Between the formats binary64 and binary32, and from bit patterns to numbers.
ghost use Rattle.std.specs.Prelude.{◌≡◌, ◌≤◌, from_bits, to_bits};
ghost use Rattle.std.specs.Float.{binary32, binary64};
ghost use Rattle.number.specs.Format.{narrow_of, widen_of};
ghost use Rattle.number.specs.Steps.Magnitude.{Narrowed};

use crate::nearest;
use crate::parts::{Magnitude, Parts};

impl Magnitude {
    // The bits of the magnitude rounded to binary32.
    fn narrowed(self) -> u32
        ensures { Narrowed self.bits result }
    {
        if self.bits == 0 {
            return 0;
        }
        let scaled = self.scaled();
        let scale = scaled.scale;
        // 2 ^ 128 and more
        if 1202 <= scale {
            return 0x7f80_0000;
        }
        // from 2 ^ -126, the smallest normal number, on: 29 digits are dropped, and the leading one, like a carry, counts in the exponent's field
        if 948 <= scale {
            return (((scale - 948) << 23) + nearest(scaled.significand, 29)) as u32;
        }
        if scale < 914 {
            return 0;
        }
        // below it more digits are dropped
        nearest(scaled.significand, 977 - scale) as u32
    }
}

// convertFormat of IEEE 754, clause 5.4.2, from binary64 to binary32.
pub fn narrow(x: f64) -> f32
    ensures { result ≡ narrow_of x }
{
    let Some(parts) = Parts::of(x) else {
        return f32::NAN;
    };
    f32::from_bits((u32::from(parts.negative) << 31) + parts.magnitude.narrowed())
}

// From binary32 to binary64, without loss.
pub fn widen(x: f32) -> f64
    ensures { result ≡ widen_of x }
{
    if x.is_nan() {
        return f64::NAN;
    }
    f64::from(x)
}

// The number that a pattern stands for; every pattern of a NaN gives a NaN. Each format has its own two constants and its own method here, and a trait of both
// would only name them once more.
pub fn from_bits(b: u64) -> f64
    ensures { result ≡ from_bits binary64 b }
{
    if 0x7ff0_0000_0000_0000 < (b & 0x7fff_ffff_ffff_ffff) {
        return f64::NAN;
    }
    f64::from_bits(b)
}

pub fn from_bits_32(b: u32) -> f32
    ensures { result ≡ from_bits binary32 b }
{
    if 0x7f80_0000 < (b & 0x7fff_ffff) {
        return f32::NAN;
    }
    f32::from_bits(b)
}

// The pattern of a number; for a NaN the one with the sign clear and the highest digit of its fraction set alone. A trait would not be shorter here either.
pub fn to_bits(x: f64) -> u64
    ensures { result ≡ to_bits binary64 x }
{
    if x.is_nan() {
        return 0x7ff8_0000_0000_0000;
    }
    x.to_bits()
}

pub fn to_bits_32(x: f32) -> u32
    ensures { result ≡ to_bits binary32 x }
{
    if x.is_nan() {
        return 0x7fc0_0000;
    }
    x.to_bits()
}
