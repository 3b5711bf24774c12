// What plan or report left, as it is printed behind the answer.
ghost use Rattle.std.specs.Prelude.{◌≡◌, ◌≤◌, IfSome};
ghost use Rattle.records.specs.Weighed.{sum_of};

use crate::lent::Buffers;
use crate::printed;
use crate::printed::Listed;
use records::sums;
use std::io::Write;
use std::{fmt, io};
use terms::Answer;

// How the buffers are shown.
#[derive(Clone, Copy)]
pub enum Shown {
    Sums,
    Full,
}

// The buffers as sums.
#[derive(Clone, Copy)]
pub struct Sums {
    decisions: u64,
    delays: u64,
    cells: u64,
}

impl fmt::Display for Sums {
    fn fmt<W: fmt::Write>(&self, f: &mut fmt::Formatter<W>) -> fmt::Result {
        write!(f, "{} {} {}", self.decisions, self.delays, self.cells)
    }
}

pub fn sums_of(buffers: Buffers) -> Sums
    ensures decisions { result.decisions ≡ sum_of buffers.entry.decisions.now }
    ensures delays { result.delays ≡ sum_of buffers.entry.delays.now }
    ensures cells { result.cells ≡ sum_of buffers.entry.cells.now }
{
    Sums {
        decisions: sums::of(buffers.decisions),
        delays: sums::of(buffers.delays),
        cells: sums::of(buffers.cells),
    }
}

// The first seven bits of a sheet.
fn trains(sheet: &[u8]) -> usize
    ensures { result ≤ 127 }
{
    sheet.first().map_or(0, |byte| usize::from(byte / 2))
}

// The buffers in full, with the cells in use where the call was accepted.
pub fn lists<W: Write>(
    out: &mut W,
    sheet: &[u8],
    answer: Answer,
    buffers: Buffers,
) -> io::Result<()> {
    writeln!(out, "decisions{}", Listed(buffers.decisions))?;
    writeln!(out, "delays{}", Listed(buffers.delays))?;
    if answer.is_ok() {
        printed::rows(out, buffers.cells, trains(sheet))?;
    }
    Ok(())
}
