// The farm file.
ghost use Rattle.std.specs.Prelude.{◌≡◌};
ghost use Rattle.number.specs.Answer.{lone, put};
ghost use Rattle.farm.specs.FarmFile.{farm_file_call};

use number::answer::put;

#[unsafe(no_mangle)]
pub extern "C" fn gf_farm_file(file: &[u8], out: &mut [u32], count: &mut u32) -> u32
    ensures { (lone result count.new ≡ put (farm_file_call file.now out.old).count count.old) × (out.new ≡ (farm_file_call file.now out.old).out) }
{
    put(farm::farm_file::farm_file(file, out), count)
}
