// The calls that a record is tried with: as it was recorded, and with a number less and with one more at each place of a slice,
// which must be refused and leave the result as it was.
ghost use Rattle.std.specs.Prelude.{◌≡◌, length};
ghost use Rattle.replay.specs.Same.{all_same};
ghost use Rattle.replay.specs.Trials.{blank, trial_number, tried, accepted, refused_at};

use crate::lengths::{Lengths, refusal};
use crate::same::all_same;
use crate::words::ROOM;

// What a call answers: 0 or the number of its refusal, and the numbers that it left.
#[derive(Clone, Copy)]
pub struct Answer {
    pub status: u64,
    pub numbers: [f64; ROOM],
}

// What stands where nothing was answered.
pub fn blank() -> [f64; ROOM]
    ensures { (result ≡ blank) × (192 ≡ length result) }
{
    [12345.0; ROOM]
}

impl Answer {
    // Whether a wrong length at a place was refused, and nothing was answered.
    fn refuses(&self, at: usize) -> bool
        ensures { result ≡ refused_at at self.now.status self.now.numbers }
    {
        (self.status == u64::from(u32::from(refusal(at)))) & all_same(true, &self.numbers, &blank())
    }
}

#[derive(Clone, Copy)]
pub enum Trial {
    Recorded,
    Shorter(usize),
    Longer(usize),
}

impl Trial {
    // The lengths of a trial. Where no slice is lent, they are those recorded.
    #[tactic(auto, unfolding(crate::specs::Trials::tried))]
    pub fn lengths(self, mut lengths: Lengths) -> Lengths
        ensures { result.places ≡ tried lengths.places (trial_number self) }
    {
        match self {
            Trial::Shorter(at) if lengths.is_lent(at) => lengths.places[at] -= 1,
            Trial::Longer(at) if lengths.is_lent(at) => lengths.places[at] =
                lengths.places[at].wrapping_add(1),
            _ => {}
        }
        lengths
    }

    // Whether a trial's answer is as it must be: with the signs of its zeros, or whatever these are.
    #[tactic(auto, unfolding(crate::specs::Trials::accepted))]
    pub fn accepts(self, lengths: Lengths, signed: bool, recorded: &Answer, got: &Answer) -> bool
        ensures { result ≡ accepted lengths.places (trial_number self) signed recorded.now.status recorded.now.numbers got.now.status got.now.numbers }
    {
        match self {
            Trial::Shorter(at) | Trial::Longer(at) if lengths.is_lent(at) => got.refuses(at),
            _ => {
                (got.status == recorded.status) & all_same(signed, &got.numbers, &recorded.numbers)
            }
        }
    }
}
