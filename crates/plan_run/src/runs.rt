// Runs: one sheet and one set of working cells, kept over several steps. A step sets a cell ('C'),
// plans ('P') or reports a delay ('D').
use crate::calls::Call;
use crate::lent::{CELLS, Lengths};
use crate::printed::Listed;
use crate::shown::Shown;
use crate::{changes, marks, shown};
use records::source::{SHEET, byte, long, number, short};
use records::{source, sums};
use std::io;
use std::io::{Read, Write};
use terms::{Delay, Train};

#[derive(Clone, Copy)]
enum Step {
    Cell { place: usize, value: u64 },
    Call(Call, Lengths),
}

impl Step {
    // The next step of the input, if its letter begins one.
    fn next<R: Read>(from: &mut R) -> io::Result<Option<Step>> {
        let step = match byte(from)? {
            Some(b'C') => Step::Cell {
                place: short(from)?,
                value: long(from)?,
            },
            Some(b'P') => Step::Call(Call::Plan, Lengths::next(from)?),
            Some(b'D') => {
                let delay = Delay {
                    train: Train(number(from)?),
                    minutes: number(from)?,
                };
                Step::Call(Call::Report(delay), Lengths::next(from)?)
            }
            _ => return Ok(None),
        };
        Ok(Some(step))
    }
}

// Calls, and shows what was answered and left, with all cells.
fn ask<W: Write>(
    out: &mut W,
    call: Call,
    lent: Lengths,
    sheet: &mut [u8],
    cells: &mut [u64; CELLS],
    shown: Shown,
) -> io::Result<()> {
    let before = *cells;
    let left = call.ask(lent, sheet, cells);
    let buffers = left.with(cells);
    match shown {
        Shown::Sums => writeln!(
            out,
            "{left} {} {}",
            shown::sums_of(buffers),
            sums::of(sheet)
        ),
        Shown::Full => {
            writeln!(out, "{left}")?;
            shown::lists(out, sheet, left.answer, buffers)?;
            writeln!(out, "sheet{}", Listed(sheet))?;
            changes::show(out, &before, buffers.cells)
        }
    }
}

// A record: the sheet's length and the sheet, then the number of steps and the steps.
pub fn record<R: Read, W: Write>(from: &mut R, out: &mut W, shown: Shown) -> io::Result<()> {
    let mut room = [0u8; SHEET];
    let sheet = source::sheet(from, &mut room)?;
    let mut cells = [0u64; CELLS];
    marks::put(&mut cells);
    for _ in 0..short(from)? {
        match Step::next(from)? {
            // where there is no such place, nothing is set
            Some(Step::Cell { place, value }) => {
                if let Some(cell) = cells.get_mut(place) {
                    *cell = value;
                }
            }
            Some(Step::Call(call, lent)) => {
                ask(out, call, lent, sheet, &mut cells, shown)?;
            }
            None => {}
        }
    }
    Ok(())
}
