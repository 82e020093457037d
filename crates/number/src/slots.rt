// Slots of whole numbers, of which some may be unused.
ghost use Rattle.std.specs.Prelude.{◌≡◌, length, replicate};
ghost use Rattle.number.specs.Slots.{unused};

// What stands in an unused slot, by the C interface.
pub const UNUSED: u32 = 4294967295;

// Every slot unused.
pub fn clear(out: &mut [u32])
    ensures { out.new ≡ replicate (length out.old) unused }
{
    out.fill(UNUSED);
}
