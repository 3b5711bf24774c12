// Records of plan.
use crate::calls::Call;
use crate::lent::{CELLS, Lengths};
use crate::shown::Shown;
use crate::{changes, marks, shown};
use records::source::SHEET;
use records::{front, source};
use std::io;
use std::io::{Read, Write};

// Says how many cells have lost their mark. Not inlined, so that its own cells are zeroed only where
// they are shown.
#[inline(never)]
fn show_changed<W: Write>(out: &mut W, cells: &[u64]) -> io::Result<()> {
    let mut before = [0u64; CELLS];
    marks::put(&mut before);
    changes::show(out, &before, cells)
}

// Plans on marked cells, and shows those that were lent.
fn plan<W: Write>(out: &mut W, sheet: &mut [u8], lent: Lengths, shown: Shown) -> io::Result<()> {
    let mut cells = [0u64; CELLS];
    marks::put(&mut cells);
    let left = Call::Plan.ask(lent, sheet, &mut cells);
    let buffers = left.with(front(&cells, lent.cells));
    match shown {
        Shown::Sums => writeln!(out, "{left} {}", shown::sums_of(buffers)),
        Shown::Full => {
            writeln!(out, "{left}")?;
            shown::lists(out, sheet, left.answer, buffers)?;
            show_changed(out, buffers.cells)
        }
    }
}

// A record: the lengths of cells, decisions and delays, then the sheet's length and the sheet.
pub fn record<R: Read, W: Write>(from: &mut R, out: &mut W, shown: Shown) -> io::Result<()> {
    let lent = Lengths::next(from)?;
    let mut room = [0u8; SHEET];
    let sheet = source::sheet(from, &mut room)?;
    plan(out, sheet, lent, shown)
}
