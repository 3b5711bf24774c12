// Lists in full.
ghost use Rattle.std.specs.Prelude.{◌≤◌};

use records::front;
use std::fmt::Display;
use std::io::Write;
use std::{fmt, io};

// A list, with a space before each number.
#[derive(Clone, Copy)]
pub struct Listed<'a, T>(pub &'a [T]);

impl<'a, T: Display> Display for Listed<'a, T> {
    fn fmt<W: fmt::Write>(&self, f: &mut fmt::Formatter<W>) -> fmt::Result {
        for number in self.0 {
            write!(f, " {number}")?;
        }
        Ok(())
    }
}

// The cells in use of row k, of m trains: cell (k, k) stands at 64(k-1)+(k-1).
fn row(cells: &[u64], k: usize, m: usize) -> &[u64]
    requires { (1 ≤ k) × ((k ≤ m) × (m ≤ 127)) }
{
    let first = (65 * (k - 1)).min(cells.len());
    front(&cells[first..], m - k + 1)
}

// The cells in use of m trains, row by row.
pub fn rows<W: Write>(out: &mut W, cells: &[u64], m: usize) -> io::Result<()>
    requires { m ≤ 127 }
{
    for k in 1..=m {
        writeln!(out, "row {k}:{}", Listed(row(cells, k, m)))?;
    }
    Ok(())
}
