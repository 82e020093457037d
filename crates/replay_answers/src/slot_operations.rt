// The operations that answer places, bits or slots. These are words.
ghost use Rattle.std.specs.Prelude.{◌≤◌, length};

use blocking::blocking_calls;
use group::batch;
use nearest::nearest_calls;
use number::answer::Refusal;
use number::format::from_bits;
use number::slice::at;
use number::slots::UNUSED;
use rays::rays_calls;
use replay::answer::put_number;
use replay::inputs::Inputs;
use verdict::planes_behind_calls;

// A word, to the front of a slice; that which stands for none is left out, as in a slot.
fn put_word(word: u32, out: &mut [f64]) -> Result<(), Refusal> {
    if word == Slots::BEFORE {
        return Ok(());
    }
    put_number(Ok(from_bits(u64::from(word))), out)
}

// As many slots as are lent at most, with what stands in them before a call.
#[derive(Clone, Copy)]
struct Slots {
    words: [u32; 4],
}

impl Slots {
    // Calls are lent plain words, so it is by this one, which none of them answers, that a slot is known which was left as it was.
    const BEFORE: u32 = 12345;

    fn new() -> Slots {
        Slots {
            words: [Slots::BEFORE; 4],
        }
    }

    // So many slots, and none where there are fewer.
    fn lend(&mut self, count: usize) -> &mut [u32] {
        let count = if count <= 4 { count } else { 0 };
        &mut self.words[..count]
    }

    // The words that were answered, each to its number of a slice.
    fn put(&self, out: &mut [f64]) {
        for (word, number) in self.words.iter().zip(out) {
            if *word != Slots::BEFORE {
                *number = from_bits(u64::from(*word));
            }
        }
    }
}

// The number found, and then the slots.
fn within(a: &[f64], b: &[f64], limit: f64, out: &mut [f64]) -> Result<(), Refusal> {
    let mut slots = Slots::new();
    let count = out.len().saturating_sub(1);
    let found = nearest_calls::within(a, b, limit, slots.lend(count));
    if !out.is_empty() {
        slots.put(&mut out[1..]);
    }
    put_word(found?, out)
}

fn intersects_bboxes(a: &[f64], b: &[f64], out: &mut [f64]) -> Result<(), Refusal> {
    let mut slots = Slots::new();
    let answer = batch::intersects_bboxes(a, b, slots.lend(out.len()));
    slots.put(out);
    answer
}

// How much of a room of up to three rays is lent for numbers, five of the six of each: what is too much of it, but nothing that it is short of.
fn number_count(room: &[f64]) -> usize
    ensures { result ≤ length room.now }
{
    let rays = room.len() / 6;
    match room.len() % 6 {
        0 if rays <= 3 => 5 * rays,
        1 if 1 <= rays && rays <= 3 => 5 * rays + 1,
        5 if rays <= 2 => 5 * rays + 5,
        _ => 0,
    }
}

// The five numbers of each ray, and then the slots.
fn rays_intersect_triangle(inputs: Inputs<'_>, out: &mut [f64]) -> Result<(), Refusal> {
    let Inputs { a, b, c, d } = inputs;
    let mut slots = Slots::new();
    let count = number_count(out);
    let (numbers, rest) = out.split_at_mut(count);
    let answer = rays_calls::intersect_triangle(a, b, c, d, numbers, slots.lend(rest.len()));
    slots.put(rest);
    answer
}

#[derive(Clone, Copy)]
pub(crate) enum PlaceOperation {
    Nearest,
    BlockingPlane,
    BlockingPlanes,
}

impl From<u8> for PlaceOperation {
    fn from(number: u8) -> PlaceOperation {
        match number {
            1 => PlaceOperation::Nearest,
            2 => PlaceOperation::BlockingPlane,
            _ => PlaceOperation::BlockingPlanes,
        }
    }
}

impl PlaceOperation {
    pub(crate) fn call(self, inputs: Inputs<'_>, out: &mut [f64]) -> Result<(), Refusal> {
        let Inputs { a, b, c, .. } = inputs;
        let word = match self {
            PlaceOperation::Nearest => nearest_calls::nearest(a, b)?.unwrap_or(UNUSED),
            PlaceOperation::BlockingPlane => {
                blocking_calls::blocking_plane(a, b, c)?.unwrap_or(UNUSED)
            }
            PlaceOperation::BlockingPlanes => planes_behind_calls::blocking_planes(a, b)?,
        };
        put_word(word, out)
    }
}

#[derive(Clone, Copy)]
pub(crate) enum SlotsOperation {
    Within,
    IntersectsBBoxes,
    RaysIntersectTriangle,
}

impl From<u8> for SlotsOperation {
    fn from(number: u8) -> SlotsOperation {
        match number {
            1 => SlotsOperation::Within,
            2 => SlotsOperation::IntersectsBBoxes,
            _ => SlotsOperation::RaysIntersectTriangle,
        }
    }
}

impl SlotsOperation {
    pub(crate) fn call(self, inputs: Inputs<'_>, out: &mut [f64]) -> Result<(), Refusal> {
        match self {
            SlotsOperation::Within => within(inputs.a, inputs.b, at(inputs.c, 0), out),
            SlotsOperation::IntersectsBBoxes => intersects_bboxes(inputs.a, inputs.b, out),
            SlotsOperation::RaysIntersectTriangle => rays_intersect_triangle(inputs, out),
        }
    }
}
