// Runs plan and report on records from a reader and prints what they answer and leave.
// A record is a name ('N'), a sheet to plan, the buffers shown as sums ('P') or in full ('L'), or a
// run of several steps on one sheet, the buffers shown as sums ('R') or in full ('F').
// tests/plans.py gives the form of the first three, tests/reports.py that of a run.
#![tactic(auto)]

mod calls;
mod changes;
mod lent;
mod marks;
mod plans;
mod printed;
mod runs;
mod shown;

use crate::shown::Shown;
use records::{Kind, source};
use std::io;
use std::io::{Read, Write};

// What a record asks for, and how the buffers are shown.
#[derive(Clone, Copy)]
enum Asked {
    Name,
    Plan(Shown),
    Run(Shown),
}

impl Kind for Asked {
    fn of_letter(letter: u8) -> Option<Asked> {
        match letter {
            b'N' => Some(Asked::Name),
            b'P' => Some(Asked::Plan(Shown::Sums)),
            b'L' => Some(Asked::Plan(Shown::Full)),
            b'R' => Some(Asked::Run(Shown::Sums)),
            b'F' => Some(Asked::Run(Shown::Full)),
            _ => None,
        }
    }

    fn run<R: Read, W: Write>(self, from: &mut R, out: &mut W) -> io::Result<()> {
        match self {
            Asked::Name => source::name(from, out),
            Asked::Plan(shown) => plans::record(from, out, shown),
            Asked::Run(shown) => runs::record(from, out, shown),
        }
    }
}

pub fn run<R: Read, W: Write>(from: &mut R, out: &mut W) -> io::Result<()> {
    records::run::<Asked, _, _>(from, out)
}
