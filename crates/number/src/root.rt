// The square root, by the bits of a number.
ghost use Rattle.std.specs.Prelude.{◌≡◌, ◌+◌, ◌*◌, ◌^◌, ◌<◌, ◌≤◌, from_bits};
ghost use Rattle.std.specs.Float.{binary64};
ghost use Rattle.number.specs.Root.{round_root, sqrt_of};
ghost use Rattle.number.specs.Search.{AfterBit, RootFound, Tried};
ghost use Rattle.number.specs.Steps.Magnitude.{units_of};
ghost use Rattle.number.specs.Steps.Root.{root_digits};

use crate::parts::{Magnitude, Parts, Scaled};
use crate::{either, nearest};

// A search for a root between two bits. With r the root so far and b the bit just tried, trial is 4 * r + b, and left is four times the remainder.
#[derive(Clone, Copy)]
struct PartialRoot {
    trial: u64,
    left: u64,
}

impl PartialRoot {
    // The first bit of the root of number * 2 ^ 53 is 2 ^ 53.
    fn first(number: u64) -> PartialRoot
        requires { (2 ^ 53 ≤ number) × (number < 2 ^ 55) }
        ensures { AfterBit (number * 2 ^ 53) (2 ^ 53) result }
    {
        PartialRoot {
            trial: 0x00a0_0000_0000_0000,
            left: 4 * (number - 0x0020_0000_0000_0000),
        }
    }

    // The next bit, half of the one just tried: it is kept if what is left reaches the trial.
    fn tried(self, bit: u64) -> PartialRoot
        requires { (bit ≤ 2 * self.trial) × (self.trial + 2 * bit < 2 ^ 63) × (self.left < 2 ^ 63) }
        ensures { Tried self bit result }
    {
        let trial = self.trial;
        let left = self.left;
        // both next trials first, so that the choices follow the difference at once
        let refused = trial - (bit >> 1);
        let kept = refused + 2 * bit;
        let difference = left.wrapping_sub(trial);
        let fits = difference < 0x8000_0000_0000_0000;
        PartialRoot {
            trial: either(fits, kept, refused),
            left: 2 * either(fits, difference, left),
        }
    }
}

// The whole part of a root, and whether something is left of the number searched.
#[derive(Clone, Copy)]
struct WholeRoot {
    root: u64,
    inexact: bool,
}

// The root of number * 2 ^ 53, the first bit and then a bit at a time. Where nothing is left the bits to come are zeros.
fn search(number: u64) -> WholeRoot
    requires { (2 ^ 53 ≤ number) × (number < 2 ^ 55) }
    ensures { RootFound (number * 2 ^ 53) result }
{
    let mut partial = PartialRoot::first(number);
    let mut bit: u64 = 0x0020_0000_0000_0000;
    // a range would count the places, and shift a bit to each
    while 1 < bit {
        if partial.left == 0 {
            return WholeRoot {
                root: (partial.trial - bit) >> 2,
                inexact: false,
            };
        }
        partial = partial.tried(bit);
        bit >>= 1;
    }
    WholeRoot {
        root: partial.trial >> 2,
        inexact: partial.left != 0,
    }
}

impl Scaled {
    // The significand of the rounded root.
    fn root_digits(self) -> u64
        ensures { result ≡ root_digits self.significand self.scale }
    {
        let odd = self.scale % 2;
        let square = 0x0010_0000_0000_0000 << odd;
        // beside a power of 4, such as 1, by less than 2 ^ 26 of the last digits: half way to that power's significand, rounded down
        if (square < self.significand + 0x0400_0000) & (self.significand < square + 0x0400_0000) {
            return (square + self.significand) >> 1;
        }
        let found = search(self.significand << (1 + odd));
        nearest(2 * found.root + u64::from(found.inexact), 2)
    }
}

impl Magnitude {
    // The bits of the rounded root, of a finite magnitude above zero.
    fn root(self) -> u64
        requires { (0 < self.bits) × (self.bits < 0x7ff0_0000_0000_0000) }
        ensures { from_bits binary64 result ≡ round_root binary64 (units_of binary64 self.bits * 2 ^ 1074) }
    {
        let scaled = self.scaled();
        ((scaled.scale / 2 + 485) << 52) + scaled.root_digits()
    }
}

// squareRoot of IEEE 754, clause 5.4.1.
pub fn sqrt(x: f64) -> f64
    ensures { result ≡ sqrt_of binary64 x }
{
    let Some(parts) = Parts::of(x) else {
        return x;
    };
    let magnitude = parts.magnitude;
    if magnitude.bits == 0 {
        return x;
    }
    if parts.negative {
        return f64::NAN;
    }
    if 0x7ff0_0000_0000_0000 <= magnitude.bits {
        return x;
    }
    f64::from_bits(magnitude.root())
}
