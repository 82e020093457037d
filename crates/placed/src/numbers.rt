// Floats that are whole numbers of the farm grid.
ghost use Rattle.std.specs.Prelude.{◌≡◌, true, false, ◌≤◌, length, take, MatchResult};
ghost use Rattle.number.specs.Answer.{number_of};
ghost use Rattle.placed.specs.Numbers.{truncated, is_whole_number, are_whole_numbers, whole_numbers};

use number::answer::Refusal;

// Halfway from 2^52 to 2^53, where the floats are the whole numbers: what is added to it comes out whole, and is the same after the subtraction where it was.
const HALFWAY: f64 = 6755399441055744.0;

// Away from it by the largest number of the grid, a plane's distance.
const LEAST: f64 = 6755399424278528.0;

const GREATEST: f64 = 6755399457832960.0;

// Whether a float is a whole number no larger than that.
fn is_whole(x: f64) -> bool
    ensures { result ≡ is_whole_number x }
{
    let sum = x + HALFWAY;
    (LEAST <= sum) & (sum <= GREATEST) & (x == sum - HALFWAY)
}

// The whole number that a float is; of a zero of either sign 0, since the difference is then a 0 that is not negative.
fn whole_of(x: f64) -> i32
    requires { is_whole_number x ≡ true }
    ensures { result ≡ truncated x }
{
    (x + HALFWAY - HALFWAY) as i32
}

// Whether all are whole. It looks at all, as `all_finite` does.
fn are_whole(s: &[f64]) -> bool
    ensures { result ≡ are_whole_numbers s.now }
{
    let mut all = true;
    for x in s {
        all = all & is_whole(*x);
    }
    all
}

// As many numbers in front of a slice as another has room for, into that one, where they are whole.
pub(crate) fn load(from: &[f64], out: &mut [i32]) -> Result<(), Refusal>
    requires { length out.old ≤ length from.now }
    ensures { let front = take (length out.old) from.now in MatchResult result
        (λ _. (are_whole_numbers front ≡ true) × (out.new ≡ whole_numbers front))
        (λ refusal. (are_whole_numbers front ≡ false) × (number_of refusal ≡ 7)) }
{
    if !are_whole(&from[..out.len()]) {
        return Err(Refusal::OffGrid);
    }
    for (i, number) in out.iter_mut().enumerate() {
        *number = whole_of(from[i]);
    }
    Ok(())
}
