// Whether answers are those recorded, with the signs of their zeros or whatever these are: which of both is a part of the definitions.
ghost use Rattle.std.specs.Prelude.{◌≡◌};
ghost use Rattle.replay.specs.Same.{same, all_same};

use crate::words::ROOM;
use number::format::to_bits;

#[tactic(auto, unfolding(crate::specs::Same::same))]
pub fn same(signed: bool, x: f64, y: f64) -> bool
    ensures { result ≡ same signed x y }
{
    (to_bits(x) == to_bits(y)) | (!signed & (x == 0.0) & (y == 0.0))
}

pub fn all_same(signed: bool, a: &[f64; ROOM], b: &[f64; ROOM]) -> bool
    ensures { result ≡ all_same signed a.now b.now }
{
    a.iter().zip(b).all(|(x, y)| same(signed, *x, *y))
}
