// Runs read and write on records from a reader and prints what they answer and leave.
// A record is a name ('N'), a sheet to read ('R') or numbers to write ('W'); tests/sheets.py gives
// their form.
#![tactic(auto)]

mod lent;
mod reads;
mod writes;

use records::{Kind, source};
use std::io;
use std::io::{Read, Write};

// What a record asks for.
#[derive(Clone, Copy)]
enum Asked {
    Name,
    Read,
    Write,
}

impl Kind for Asked {
    fn of_letter(letter: u8) -> Option<Asked> {
        match letter {
            b'N' => Some(Asked::Name),
            b'R' => Some(Asked::Read),
            b'W' => Some(Asked::Write),
            _ => None,
        }
    }

    fn run<R: Read, W: Write>(self, from: &mut R, out: &mut W) -> io::Result<()> {
        match self {
            Asked::Name => source::name(from, out),
            Asked::Read => reads::record(from, out),
            Asked::Write => writes::record(from, out),
        }
    }
}

pub fn run<R: Read, W: Write>(from: &mut R, out: &mut W) -> io::Result<()> {
    records::run::<Asked, _, _>(from, out)
}
