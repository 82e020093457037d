// Lines as bytes: a text of them, to which bytes are pushed, and what is put into a slice of bytes.
ghost use Rattle.std.specs.Prelude.{◌≡◌, [], take};
ghost use Rattle.number.specs.Answer.{number_of};
ghost use Rattle.farm.specs.Text.{decimal, refused_line, Puts, Pushed};

use crate::directory::SLOT_COUNT;
use number::answer::Refusal;
use number::limits::MOST_PLANES;
use std::marker::Model;

// Room for a line of any program: two digits, ` yes`, three bytes for each plane, ` exact-yes` and its end.
const LINE_ROOM: usize = 2 + 4 + 3 * MOST_PLANES as usize + 10 + 1;

// Room for the lines of any file, one for each box.
pub const TEXT_ROOM: usize = SLOT_COUNT * LINE_ROOM;

// Lines, which lie in the value itself: nothing is allocated. Behind them are zeros, so that a text is its lines and nothing else.
#[derive(Clone, Copy)]
pub struct Text {
    bytes: [u8; TEXT_ROOM],
    size: usize,
}

impl Model for Text {
    ghost use Rattle.std.specs.Prelude.{◌≡◌, ◌≤◌, List, ℕ, length, take};
    ghost use Rattle.std.proofs.Common.{arith, length-take-le};
    ghost use Rattle.farm.specs.Text.{text_room, padded};

    ghost Value = { List ℕ };

    ghost view = { λ t. take t.size t.bytes };

    ghost invariant = { λ t. (t.size ≤ text_room) × (length t.bytes ≡ text_room) × (padded (take t.size t.bytes) ≡ t.bytes) };

    ghost inverse = { λ s. record { bytes = padded s; size = length s } };

    ghost inverse_ok = { λ t h i. record {
      bytes = h.2 i;
      size = length-take-le t.size t.bytes (omega (arith, h.0, h.1)) i;
    } };
}

// Bytes to a place of a text, where there is room for them; answers the place behind them.
pub fn put(text: &mut [u8], at: usize, bytes: &[u8]) -> usize
    ensures { Puts text.old at bytes.now result text.new }
{
    if text.len() < at {
        return at;
    }
    if text.len() - at < bytes.len() {
        return at;
    }
    let end = at + bytes.len();
    text[at..end].copy_from_slice(bytes);
    end
}

// The digits of a number below 100.
pub fn put_decimal(text: &mut [u8], at: usize, n: u32) -> usize
    ensures { Puts text.old at (decimal n) result text.new }
{
    if n < 10 {
        let digit = [48 + n as u8];
        return put(text, at, &digit);
    }
    if n < 100 {
        let digits = [48 + (n / 10) as u8, 48 + (n % 10) as u8];
        return put(text, at, &digits);
    }
    at
}

// The first bytes of some, or all of them where there are no more.
pub fn front(bytes: &[u8], size: usize) -> &[u8]
    ensures { result.now ≡ take size bytes.now }
{
    if bytes.len() < size {
        return bytes;
    }
    &bytes[..size]
}

impl Text {
    pub fn new() -> Text
        ensures { result ≡ [] }
    {
        Text {
            bytes: [0; TEXT_ROOM],
            size: 0,
        }
    }

    pub fn as_slice(&self) -> &[u8]
        ensures { result.now ≡ self.now }
    {
        front(&self.bytes, self.size)
    }

    // Bytes behind the others, where there is room for them.
    #[tactic(auto, using(crate::proofs::Texts::kept_by_put, crate::proofs::Texts::pushed_by_put))]
    pub fn push(&mut self, bytes: &[u8])
        ensures { Pushed self.old bytes.now self.new }
    {
        self.size = put(&mut self.bytes, self.size, bytes);
    }

    // The digits of a number below 100.
    pub fn push_decimal(&mut self, n: u32)
        ensures { Pushed self.old (decimal n) self.new }
    {
        self.size = put_decimal(&mut self.bytes, self.size, n);
    }
}

// The line of a refused file.
pub fn refused(refusal: Refusal) -> Text
    ensures { result ≡ refused_line (number_of refusal) }
{
    let mut text = Text::new();
    text.push(b"refused ");
    text.push_decimal(u32::from(refusal));
    text.push(b"\n");
    text
}
