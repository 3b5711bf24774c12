// The buffers that a record or a step lends, and their lengths.
use records::source::short;
use std::io;
use std::io::Read;

// The places of the longest buffers that can be lent: for cells, and for trains.
pub const CELLS: usize = 4100;

pub const TRAINS: usize = 70;

// Buffers, lent to be read.
#[derive(Clone, Copy)]
pub struct Buffers<'a> {
    pub cells: &'a [u64],
    pub decisions: &'a [u8],
    pub delays: &'a [u32],
}

#[derive(Clone, Copy)]
pub struct Lengths {
    pub cells: usize,
    pub decisions: usize,
    pub delays: usize,
}

impl Lengths {
    // The next three numbers of the input.
    pub fn next<R: Read>(from: &mut R) -> io::Result<Lengths> {
        Ok(Lengths {
            cells: short(from)?,
            decisions: short(from)?,
            delays: short(from)?,
        })
    }
}
