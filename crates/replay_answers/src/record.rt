// Reads records, and compares them with what the operations answer. A record's head is eight bytes: the family of operations, the
// operation's place there, the lengths of the four inputs and of the result, and the status. Behind it are the numbers of the inputs, a
// word each, and those of the result, unless the call is refused. A lone number is one word, a yes the word 1 and a no the word 0. Behind
// the records of an operation is its name, with a head of its own: NAME, and how long it is.
use crate::calls::Operation;
use number::answer::{Refusal, status};
use replay::inputs::Inputs;
use replay::lengths::Lengths;
use replay::trials::{Answer, Trial, blank};
use replay::words::{BYTES, ROOM, in_room, put_numbers};

// In the place of a family: a record is bytes, and these numbers are its form.
const END: u8 = 0;

const NAME: u8 = 255;

// The operations whose judge chooses other zeros: a box combined of two, and of a group.
const COMBINE: [u8; 2] = [4, 1];

const COMBINE_GROUP: [u8; 2] = [4, 6];

// A status that no operation has, of a call that no record can have.
const UNPLAYED: u32 = 99;

#[derive(Clone, Copy)]
struct Head {
    operation: [u8; 2],
    lengths: Lengths,
    status: u8,
}

impl Head {
    // Whether the zeros of its result must have the signs that were recorded.
    fn is_signed(self) -> bool {
        !matches!(self.operation, COMBINE | COMBINE_GROUP)
    }
}

// What comes next.
#[derive(Clone, Copy)]
enum Entry {
    Record(Head),
    Name { length: u8 },
    End,
}

impl Entry {
    // Past the end there are zeros.
    fn read() -> Entry {
        let mut head = [0u8; 8];
        io::read_full(0, &mut head);
        let [family, operation, a, b, c, d, result, status] = head;
        match family {
            END => Entry::End,
            NAME => Entry::Name { length: operation },
            _ => Entry::Record(Head {
                operation: [family, operation],
                lengths: Lengths {
                    places: [a, b, c, d, result],
                },
                status,
            }),
        }
    }
}

// So many words, to the front of the numbers.
fn read_numbers(count: usize, numbers: &mut [f64; ROOM]) {
    let count = in_room(count);
    let mut bytes = [0u8; BYTES];
    io::read_full(0, &mut bytes[..8 * count]);
    put_numbers(&bytes, count, numbers);
}

// A recorded call: the lengths that its operation asks for, the numbers of its inputs one behind the other, and what it answered.
#[derive(Clone, Copy)]
struct Record {
    operation: Operation,
    signed: bool,
    lengths: Lengths,
    given: [f64; ROOM],
    answer: Answer,
}

impl Record {
    // What stands behind a head.
    fn read(head: Head) -> Record {
        let signed = head.is_signed();
        let Head {
            operation,
            lengths,
            status,
        } = head;
        let mut given = [0.0; ROOM];
        read_numbers(lengths.total(), &mut given);
        let mut numbers = blank();
        if status == 0 {
            read_numbers(lengths.of_result(), &mut numbers);
        }
        Record {
            operation: operation.into(),
            signed,
            lengths,
            given,
            answer: Answer {
                status: u64::from(status),
                numbers,
            },
        }
    }

    // What the call of a trial answers, if there is room for it.
    fn call(&self, trial: Trial) -> Option<Answer> {
        let lengths = trial.lengths(self.lengths);
        let room = lengths.of_result();
        if ROOM < room {
            return None;
        }
        let mut numbers = blank();
        let inputs = Inputs::of(&self.given, lengths);
        let status = match self.operation.call(inputs, &mut numbers[..room]) {
            Ok(answer) => status(answer),
            Err(_) => UNPLAYED,
        };
        Some(Answer {
            status: u64::from(status),
            numbers,
        })
    }

    // Whether the call of a trial answers as it must.
    fn passes(&self, trial: Trial) -> bool {
        self.call(trial).is_some_and(|got| trial.accepts(
            self.lengths,
            self.signed,
            &self.answer,
            &got,
        ))
    }

    // Whether it passes the call as it was recorded, and the ten of wrong lengths. A refused count is tried as it was recorded alone: it comes
    // before some wrong lengths of a volume, and behind others.
    fn agrees(&self) -> bool {
        self.passes(Trial::Recorded)
            && (self.answer.status == u64::from(u32::from(Refusal::PlaneCount))
                || (0..5).all(|at| self.passes(Trial::Shorter(at))
                    && self.passes(Trial::Longer(at))))
    }
}

// How many of an operation's records agreed, and how many were read.
#[derive(Clone, Copy, Default)]
struct Tally {
    agreed: u64,
    read: u64,
}

impl Tally {
    // Counts a record, and answers whether it is the operation's first that differs.
    fn count(&mut self, agrees: bool) -> bool {
        let first = !agrees && self.agreed == self.read;
        self.agreed = self.agreed.wrapping_add(u64::from(agrees));
        self.read = self.read.wrapping_add(1);
        first
    }
}

// Reads a name, and prints it with the counts of its operation's records. This and the other lines go by the kit's `io`: what `println!`
// stands on calls more of the C library.
fn print_tally(length: u8, tally: Tally) {
    let mut name = [0u8; 255];
    let name = &mut name[..usize::from(length)];
    io::read_full(0, name);
    io::write_all(1, name);
    io::write_all(1, b" ");
    io::print_decimal(1, tally.agreed);
    io::write_all(1, b" of ");
    io::print_decimal(1, tally.read);
    io::write_all(1, b"\n");
}

fn print_difference(place: u64) {
    io::write_all(1, b"record ");
    io::print_decimal(1, place);
    io::write_all(1, b" differs\n");
}

// Replays all records, and tells the place of the first of each operation that differs.
pub(crate) fn replay_all() {
    let mut tally = Tally::default();
    for place in 0..u64::MAX {
        match Entry::read() {
            Entry::Record(head) => {
                let agrees = Record::read(head).agrees();
                if tally.count(agrees) {
                    print_difference(place);
                }
            }
            Entry::Name { length } => {
                print_tally(length, tally);
                tally = Tally::default();
            }
            Entry::End => break,
        }
    }
}
