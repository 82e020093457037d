// The functions of the number crate.
ghost use Rattle.std.specs.Prelude.{◌≡◌};
ghost use Rattle.std.specs.Float.{binary64};
ghost use Rattle.number.specs.Answer.{answered};
ghost use Rattle.number.specs.Arithmetic.{abs_of, min_of, max_of};
ghost use Rattle.number.specs.Format.{narrow_of, widen_of};
ghost use Rattle.number.specs.Grid.{grid_call};
ghost use Rattle.number.specs.Root.{sqrt_of};

use number::answer::status;

#[unsafe(no_mangle)]
pub extern "C" fn gf_sqrt(x: f64) -> f64
    ensures { result ≡ sqrt_of binary64 x }
{
    number::root::sqrt(x)
}

#[unsafe(no_mangle)]
pub extern "C" fn gf_abs(x: f64) -> f64
    ensures { result ≡ abs_of x }
{
    number::order::abs(x)
}

#[unsafe(no_mangle)]
pub extern "C" fn gf_min(x: f64, y: f64) -> f64
    ensures { result ≡ min_of x y }
{
    number::order::min(x, y)
}

#[unsafe(no_mangle)]
pub extern "C" fn gf_max(x: f64, y: f64) -> f64
    ensures { result ≡ max_of x y }
{
    number::order::max(x, y)
}

#[unsafe(no_mangle)]
pub extern "C" fn gf_narrow(x: f64) -> f32
    ensures { result ≡ narrow_of x }
{
    number::format::narrow(x)
}

#[unsafe(no_mangle)]
pub extern "C" fn gf_widen(x: f32) -> f64
    ensures { result ≡ widen_of x }
{
    number::format::widen(x)
}

#[unsafe(no_mangle)]
pub extern "C" fn gf_grid(p: &[f64], out: &mut [f64]) -> u32
    ensures { answered result out.new ≡ grid_call p.now out.old }
{
    status(number::grid::grid(p, out))
}
