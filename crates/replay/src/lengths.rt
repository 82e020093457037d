// The lengths that an operation asks for.
ghost use Rattle.std.specs.Prelude.{◌≡◌, ◌<◌, IsTrue, slice_index};
ghost use Rattle.number.specs.Answer.{number_of};
ghost use Rattle.replay.specs.Lengths.{input_numbers, is_lent, refusal_at};

use number::answer::Refusal;

// Those of its four inputs and then of its result: 0 where there is none, and 1 for a lone number or a verdict, which is lent no slice.
#[derive(Clone, Copy)]
pub struct Lengths {
    pub places: [u8; 5],
}

impl Lengths {
    // How many numbers the inputs have together.
    pub fn total(self) -> usize
        ensures { result ≡ input_numbers self.places }
    {
        let [a, b, c, d, _] = self.places;
        usize::from(a) + usize::from(b) + usize::from(c) + usize::from(d)
    }

    // How many the result has.
    pub fn of_result(self) -> usize
        ensures { result ≡ slice_index self.places 4 }
    {
        usize::from(self.places[4])
    }

    // Whether there is a slice at a place.
    pub(crate) fn is_lent(self, at: usize) -> bool
        ensures is { result ≡ is_lent self.places at }
        ensures within { IsTrue result → at < 5 }
    {
        at < 5 && 1 < self.places[at]
    }
}

// How a wrong length at a place is refused.
pub(crate) fn refusal(at: usize) -> Refusal
    ensures { number_of result ≡ refusal_at at }
{
    if at < 4 {
        Refusal::InputLength
    } else {
        Refusal::OutputLength
    }
}
