// Numbers by their bits, the survey grid, and the answers and refusals of the whole engine.
#![tactic(auto)]

ghost use Rattle.std.specs.Prelude.{MatchOption, true, if◌then◌else◌, is_nan, ◌≡◌, ◌^◌, ◌<◌, ◌≤◌};
ghost use Rattle.std.specs.Float.Ieee.Nearest.{closest};
ghost use Rattle.number.specs.Steps.Magnitude.{Normalised, PartsOf};

pub mod answer;
pub mod bytes;
pub mod format;
pub mod grid;
pub mod limits;
pub mod order;
mod parts;
pub mod root;
pub mod slice;
pub mod slots;

use parts::{Magnitude, Parts, Scaled};

// One of two. It is compiled to a choice; a branch would be mispredicted every other time.
fn either<T: Copy>(first: bool, a: T, b: T) -> T
    ensures { result ≡ (if first then a else b) }
{
    if first { a } else { b }
}

impl Parts {
    // A NaN has none.
    fn of(x: f64) -> Option<Parts>
        ensures { MatchOption result (is_nan x ≡ true) (λ parts. PartsOf x parts) }
    {
        if x.is_nan() {
            return None;
        }
        let bits = x.to_bits();
        Some(Parts {
            negative: 0x8000_0000_0000_0000 <= bits,
            magnitude: Magnitude {
                bits: bits & 0x7fff_ffff_ffff_ffff,
            },
        })
    }
}

impl Magnitude {
    // The fields of a magnitude above zero. Infinity has those of 2 ^ 1024.
    fn scaled(self) -> Scaled
        requires { 0 < self.bits }
        ensures { Normalised self.bits result }
    {
        let field = self.bits >> 52;
        let fraction = self.bits & 0x000f_ffff_ffff_ffff;
        if field == 0 {
            let zeros = u64::from(fraction.leading_zeros()) - 11;
            return Scaled {
                significand: fraction << zeros,
                scale: 52 - zeros,
            };
        }
        Scaled {
            significand: 0x0010_0000_0000_0000 + fraction,
            scale: field + 51,
        }
    }
}

// m / 2 ^ d to the nearest whole number, a tie to the even one.
fn nearest(m: u64, d: u64) -> u64
    requires { (0 < d) × (d < 64) × (m < 2 ^ 63) }
    ensures { result ≡ closest m (2 ^ d) }
{
    let below_half = (1 << (d - 1)) - 1;
    let odd = (m >> d) & 1;
    (m + below_half + odd) >> d
}
