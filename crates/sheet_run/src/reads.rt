// Records of read.
use crate::lent::{Lengths, Room};
use crate::writes;
use crate::writes::BEFORE;
use reader::{Reading, period, trains};
use records::source::SHEET;
use records::{Answered, source, sums};
use sheet::numbers::Lists;
use std::io;
use std::io::{Read, Write};

// What read answered, and what it left in the four lists.
fn show<W: Write>(out: &mut W, answer: Reading, lists: Lists) -> io::Result<()> {
    // the word is a write of its own
    write!(out, "read")?;
    write!(
        out,
        " {} {} {}",
        Answered(answer),
        trains(answer),
        period(answer)
    )?;
    writeln!(
        out,
        " {} {} {} {}",
        sums::of(lists.departures),
        sums::of(lists.driving),
        sums::of(lists.delays),
        sums::of(lists.passengers)
    )
}

// An accepted sheet is written again from the front of the lists.
fn back<W: Write>(out: &mut W, answer: Reading, room: &Room) -> io::Result<()> {
    if let Ok(head) = answer {
        let mut buffer = [BEFORE; 3907];
        let lists = room.lists(Lengths::of_trains(head.trains));
        writes::show(out, "back", head, lists, &mut buffer)?;
    }
    Ok(())
}

// Reads a sheet into lists of 77s.
pub fn record<R: Read, W: Write>(from: &mut R, out: &mut W) -> io::Result<()> {
    let lent = Lengths::next(from)?;
    let mut bytes = [0u8; SHEET];
    let sheet = source::sheet(from, &mut bytes)?;
    let mut room = Room::filled(77);
    let answer = reader::read(
        sheet,
        &mut room.departures[..lent.departures],
        &mut room.driving[..lent.driving],
        &mut room.delays[..lent.delays],
        &mut room.passengers[..lent.passengers],
    );
    show(out, answer, room.lists(lent))?;
    back(out, answer, &room)
}
