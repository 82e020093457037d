// Numbers in lent bytes, the low byte of each first.
ghost use Rattle.std.specs.Prelude.{◌≡◌, ◌+◌, ◌<◌, ◌≤◌, MatchOption, length, take, drop};
ghost use Rattle.number.specs.Bytes.{word_at, f64_at, loaded};

use crate::format::from_bits;

// So many bytes from a place on, where they are all there.
fn bytes_at<const N: usize>(bytes: &[u8], at: usize) -> Option<[u8; N]>
    ensures { MatchOption result (length bytes.now < at + N) (λ word. (at + N ≤ length bytes.now) × (word ≡ take N (drop at bytes.now))) }
{
    bytes.get(at..)?.first_chunk().copied()
}

// The whole number of four bytes from a place on; 0 where they are not all there, as the definition `word_at` has it.
pub fn word_32(bytes: &[u8], at: usize) -> u32
    ensures { result ≡ word_at 4 bytes.now at }
{
    bytes_at(bytes, at).map_or(0, u32::from_le_bytes)
}

// The whole number of eight, which is of another type; what both share is above.
pub fn word_64(bytes: &[u8], at: usize) -> u64
    ensures { result ≡ word_at 8 bytes.now at }
{
    bytes_at(bytes, at).map_or(0, u64::from_le_bytes)
}

// The number whose pattern they are.
pub fn number_at(bytes: &[u8], at: usize) -> f64
    ensures { result ≡ f64_at bytes.now at }
{
    from_bits(word_64(bytes, at))
}

// Numbers from a place on, as many as a slice has room for; where the bytes do not hold them, the slice is left alone.
pub fn load(bytes: &[u8], at: usize, out: &mut [f64])
    ensures { out.new ≡ loaded bytes.now at out.old }
{
    if at <= bytes.len() && out.len() <= (bytes.len() - at) / 8 {
        let (words, _) = bytes[at..].as_chunks::<8>();
        for (i, x) in out.iter_mut().enumerate() {
            *x = from_bits(u64::from_le_bytes(words[i]));
        }
    }
}
