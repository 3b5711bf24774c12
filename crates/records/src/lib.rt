// What the programs that run records share: the numbers of the input, what a list holds, how an
// answer is printed, and the records one after the other.
#![tactic(auto)]

ghost use Rattle.std.specs.Prelude.{◌≡◌, take};

pub mod source;
pub mod sums;

use source::byte;
use std::io::{Read, Write};
use std::{fmt, io};
use terms::{Refusal, number, place};

// Whether an operation accepted, as it is printed: the number and the place of the refusal.
#[derive(Clone, Copy)]
pub struct Answered<T>(pub Result<T, Refusal>);

impl<T: Copy> fmt::Display for Answered<T> {
    fn fmt<W: fmt::Write>(&self, f: &mut fmt::Formatter<W>) -> fmt::Result {
        let Answered(answer) = *self;
        write!(f, "{} {}", number(answer), place(answer))
    }
}

// The front of a list: as many places as are asked for, or all that there are.
pub fn front<T>(list: &[T], places: usize) -> &[T]
    ensures { result.now ≡ take places list.now }
{
    &list[..places.min(list.len())]
}

// The records that a program knows.
pub trait Kind: Sized {
    // What a record asks for, by the letter that it begins with.
    fn of_letter(letter: u8) -> Option<Self>;

    // Reads the rest of the record, does what it asks for and prints what comes of it.
    fn run<R: Read, W: Write>(self, from: &mut R, out: &mut W) -> io::Result<()>;
}

// Runs records until the input ends or a letter begins none; at most 100,000.
pub fn run<K: Kind, R: Read, W: Write>(from: &mut R, out: &mut W) -> io::Result<()> {
    for _ in 0..100_000 {
        let Some(record) = byte(from)?.and_then(|letter| K::of_letter(letter)) else {
            return Ok(());
        };
        record.run(from, out)?;
    }
    Ok(())
}
