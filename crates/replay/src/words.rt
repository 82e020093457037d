// The words of a record: 8 bytes each, the lowest first.
ghost use Rattle.std.specs.Prelude.{◌≡◌, min};
ghost use Rattle.replay.specs.Words.{put_words};

use number::bytes::load;

// How many numbers are held of a call's inputs, and of its result; and in how many bytes they are recorded.
pub const ROOM: usize = 192;

pub const BYTES: usize = 8 * ROOM;

// A count of numbers, at most as many as are held.
pub fn in_room(count: usize) -> usize
    ensures { result ≡ min count 192 }
{
    count.min(ROOM)
}

// So many words as numbers, to the front of a slice, as many as there are and it has room for.
pub fn put_numbers(bytes: &[u8; BYTES], count: usize, numbers: &mut [f64])
    ensures { numbers.new ≡ put_words count bytes.now numbers.old }
{
    let n = in_room(count).min(numbers.len());
    load(bytes, 0, &mut numbers[..n]);
}
