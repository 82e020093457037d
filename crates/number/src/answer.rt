// Why a call is refused, and how an answer goes to C: a status, and a lone result to where it is lent.
ghost use Rattle.std.specs.Prelude.{◌≡◌};
ghost use Rattle.number.specs.Answer.{number_of, status_of, outcome_of, lone, put, put_verdict, put_place};

use crate::slots::UNUSED;

// Each with its number.
#[derive(Clone, Copy, Debug, PartialEq, Eq)]
pub enum Refusal {
    InputLength = 1,
    OutputLength = 2,
    Kind = 3,
    Singular = 4,
    Miss = 5,
    NotAProjection = 6,
    OffGrid = 7,
    NotFinite = 8,
    Directory = 9,
    SectionLength = 10,
    GroupSize = 11,
    PlaneCount = 12,
    MissingNumber = 13,
    InView = 14,
}

impl From<Refusal> for u32 {
    ghost from_gives = { λ r n. n ≡ number_of r };

    fn from(refusal: Refusal) -> u32 {
        refusal as u32
    }
}

// 0, or the number of the refusal.
pub fn status(answer: Result<(), Refusal>) -> u32
    ensures { result ≡ status_of answer }
{
    put(answer, &mut ())
}

// What was answered, to where it is lent; 0, or the number of the refusal.
pub fn put<T: Copy>(answer: Result<T, Refusal>, out: &mut T) -> u32
    ensures { lone result out.new ≡ put (outcome_of answer) out.old }
{
    match answer {
        Ok(x) => {
            *out = x;
            0
        }
        Err(refusal) => u32::from(refusal),
    }
}

// 1 for a yes and 0 for a no.
pub fn put_verdict(answer: Result<bool, Refusal>, out: &mut u32) -> u32
    ensures { lone result out.new ≡ put_verdict (outcome_of answer) out.old }
{
    put(answer.map(u32::from), out)
}

// The place, or what stands in an unused slot.
pub fn put_place(answer: Result<Option<u32>, Refusal>, out: &mut u32) -> u32
    ensures { lone result out.new ≡ put_place (outcome_of answer) out.old }
{
    put(answer.map(|place| place.unwrap_or(UNUSED)), out)
}
