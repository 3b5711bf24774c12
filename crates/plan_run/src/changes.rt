// How many working cells a step changed, by what they held before.
ghost use Rattle.std.specs.Prelude.{◌≤◌, length};

use std::io;
use std::io::Write;

// How many cells are not as they were, as far as it is known what they were.
fn differing(before: &[u64], cells: &[u64]) -> usize
    ensures { result ≤ length cells.now }
{
    let mut n: usize = 0;
    for k in 0..cells.len().min(before.len()) {
        n += usize::from(cells[k] != before[k]);
    }
    n
}

// How many cells are not as they were; one behind those known from before was 0.
fn changed(before: &[u64], cells: &[u64]) -> usize {
    let (known, behind) = cells.split_at(cells.len().min(before.len()));
    differing(before, known) + behind.iter().filter(|cell| **cell != 0).count()
}

// Says how many, on a line of its own.
pub fn show<W: Write>(out: &mut W, before: &[u64], cells: &[u64]) -> io::Result<()> {
    // the word is a write of its own
    write!(out, "changed")?;
    writeln!(out, " {}", changed(before, cells))
}
