// A number taken apart.
ghost use Rattle.std.specs.Prelude.{◌^◌, ◌<◌, ◌≤◌};

// The bits of a magnitude, which is no NaN's.
#[derive(Clone, Copy)]
pub(crate) struct Magnitude {
    pub(crate) bits: u64,
    ghost of_a_number: { bits ≤ 0x7ff0_0000_0000_0000 },
}

// A number that is no NaN: its sign and its magnitude.
#[derive(Clone, Copy)]
pub(crate) struct Parts {
    pub(crate) negative: bool,
    pub(crate) magnitude: Magnitude,
}

// A magnitude that is significand * 2 ^ (scale - 52) smallest values, the leading digit of its significand at 2 ^ 52.
#[derive(Clone, Copy)]
pub(crate) struct Scaled {
    pub(crate) significand: u64,
    pub(crate) scale: u64,
    ghost digits: { (2 ^ 52 ≤ significand) × (significand < 2 ^ 53) },
}
