// Records of write.
use crate::lent::{Lengths, Room};
use records::source::{SHEET, list, number, short};
use records::{Answered, sums};
use sheet::numbers::Lists;
use std::io;
use std::io::{Read, Write};
use terms::Head;

// What every byte of a buffer holds before write.
pub const BEFORE: u8 = 165;

// Writes a line, and prints what write answered and left: the sheet, and what stands behind it.
pub fn show<W: Write>(
    out: &mut W,
    name: &str,
    head: Head,
    lists: Lists,
    buffer: &mut [u8],
) -> io::Result<()> {
    let answer = writer::write(head, lists, buffer);
    let length = answer.unwrap_or(0);
    let (sheet, behind) = buffer.split_at((length as usize).min(buffer.len()));
    writeln!(
        out,
        "{name} {} {length} {} {}",
        Answered(answer),
        sums::of(sheet),
        sums::of(behind)
    )
}

pub fn record<R: Read, W: Write>(from: &mut R, out: &mut W) -> io::Result<()> {
    let head = Head {
        trains: number(from)?,
        period: number(from)?,
    };
    let lent = Lengths::next(from)?;
    let length = short(from)?.min(SHEET);
    let mut room = Room::filled(0);
    list(from, &mut room.departures[..lent.departures])?;
    list(from, &mut room.driving[..lent.driving])?;
    list(from, &mut room.delays[..lent.delays])?;
    list(from, &mut room.passengers[..lent.passengers])?;
    let mut buffer = [BEFORE; SHEET];
    show(out, "write", head, room.lists(lent), &mut buffer[..length])
}
