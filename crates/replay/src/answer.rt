// Lone numbers and verdicts as a record has them: numbers of a slice.
ghost use Rattle.std.specs.Prelude.{◌≡◌};
ghost use Rattle.number.specs.Answer.{reply, outcome_of};
ghost use Rattle.replay.specs.Answers.{put_number, as_number};

use number::answer::Refusal;
use number::format::from_bits;

// A lone number, to the front of a slice.
pub fn put_number(number: Result<f64, Refusal>, out: &mut [f64]) -> Result<(), Refusal>
    ensures { reply result out.new ≡ put_number (outcome_of number) out.old }
{
    let x = number?;
    if !out.is_empty() {
        out[0] = x;
    }
    Ok(())
}

// A verdict as the word 1 or 0.
pub fn put_verdict(verdict: Result<bool, Refusal>, out: &mut [f64]) -> Result<(), Refusal>
    ensures { reply result out.new ≡ put_number (as_number (outcome_of verdict)) out.old }
{
    put_number(verdict.map(|yes| from_bits(u64::from(yes))), out)
}
