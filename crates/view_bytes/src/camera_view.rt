// Two matrices as bytes, and the volume that they make.
ghost use Rattle.std.specs.Prelude.{◌≡◌, ◌*◌, ◌≤◌, length};
ghost use mathlib.Core.List.{flat_map};
ghost use Rattle.number.specs.Answer.{reply};
ghost use Rattle.farm.specs.Text.{text_room};
ghost use Rattle.view_bytes.specs.CameraView.{number_bytes, volume_sent, camera_view};

use farm::sections::NUMBER_SIZE;
use farm::text::{Text, refused};
use number::answer::Refusal;
use number::bytes::load;
use number::format::to_bits;
use number::limits::{FEWEST_PLANES, MATRIX_LENGTH, PLANE_LENGTH, RAY_LENGTH};
use volume::volume::from_view_and_projection;

// The bytes of two matrices.
pub const MATRICES_SIZE: usize = 2 * NUMBER_SIZE * MATRIX_LENGTH;

// The numbers of a volume of the fewest planes: a count, the planes and four rays.
const VOLUME_LENGTH: usize = 1 + FEWEST_PLANES as usize * PLANE_LENGTH + 4 * RAY_LENGTH;

// The volume of the view and the projection matrix that a file holds.
fn volume_sent(file: &[u8], out: &mut [f64]) -> Result<(), Refusal>
    ensures { reply result out.new ≡ volume_sent file.now out.old }
{
    if file.len() != MATRICES_SIZE {
        return Err(Refusal::InputLength);
    }
    let mut view = [0.0f64; MATRIX_LENGTH];
    let mut projection = [0.0f64; MATRIX_LENGTH];
    load(file, 0, &mut view);
    load(file, NUMBER_SIZE * MATRIX_LENGTH, &mut projection);
    from_view_and_projection(&view, &projection, out)
}

// The bytes of numbers, one behind the other, the low byte of each first.
fn bytes_of_numbers(numbers: &[f64]) -> Text
    requires { 8 * length numbers.now ≤ text_room }
    ensures { result ≡ flat_map number_bytes numbers.now }
{
    let mut text = Text::new();
    for x in numbers {
        let bits = to_bits(*x);
        text.push(&bits.to_le_bytes());
    }
    text
}

// What the bytes of two matrices give.
pub fn camera_view(file: &[u8]) -> Text
    ensures { result ≡ camera_view file.now }
{
    let mut volume = [0.0f64; VOLUME_LENGTH];
    match volume_sent(file, &mut volume) {
        Ok(()) => bytes_of_numbers(&volume),
        Err(refusal) => refused(refusal),
    }
}
