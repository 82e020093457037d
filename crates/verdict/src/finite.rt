// Whether every number of a view is finite, four at a time.
ghost use Rattle.std.specs.Prelude.{◌≡◌};
ghost use Rattle.number.specs.Slice.{all_finite};

use crate::view::View;

// The rays are as many numbers as so many planes.
const PLANES_OF_RAYS: usize = 6;

impl<'a> View<'a> {
    // A zero stays a zero by finite factors; a NaN or an infinity makes it a NaN, which stays. Four zeros, so that no product waits for the one before.
    pub(crate) fn all_numbers_finite(self) -> bool
        ensures { result ≡ all_finite self.entry.planes.numbers.now }
    {
        let numbers = self.planes.numbers;
        let fours = self.planes.count as usize + PLANES_OF_RAYS;
        let mut a = 0.0 * numbers[0];
        let mut b = 0.0f64;
        let mut c = 0.0f64;
        let mut d = 0.0f64;
        for i in 0..fours {
            let from = 1 + i * 4;
            a *= numbers[from];
            b *= numbers[from + 1];
            c *= numbers[from + 2];
            d *= numbers[from + 3];
        }
        (a == 0.0) & (b == 0.0) & (c == 0.0) & (d == 0.0)
    }
}
