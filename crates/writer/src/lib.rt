// Write: m, T and four lists into a sheet, refused by number.
// `write` has no `requires`: any numbers, any lists and any buffer get an answer.
#![tactic(auto)]

mod putting;

ghost use Rattle.std.specs.Prelude.{◌≡◌};
ghost use Rattle.sheet.specs.Held.{lent};
ghost use Rattle.writer.specs.Write.{given, write_verdict, Write};

use crate::putting::put_sheet;
use sheet::checks::{check_lengths, check_numbers, check_ranges};
use sheet::layout::Layout;
use sheet::numbers::Lists;
use terms::{Answer, Head, ListFault, Refusal, Verdict};

// All checks of write, in their order; `room` is the length of the output.
fn check_write(room: usize, head: Head, numbers: Lists) -> Verdict
    ensures { result ≡ write_verdict room
        (given head.trains head.period (lent numbers.entry)) }
{
    if room != 3907 {
        return Err(Refusal::OfList(ListFault::BufferLength));
    }
    check_ranges(head)?;
    let layout = Layout::new(head.trains);
    let n = head.trains as usize;
    let pairs = layout.pairs();
    check_lengths(Refusal::OfList(ListFault::ListLength), n, pairs, numbers)?;
    check_numbers(layout, numbers)
}

// Writes the sheet of m, T and the four lists into the first bytes of `sheet`.
pub fn write(head: Head, numbers: Lists, sheet: &mut [u8]) -> Answer
    ensures { Write (given head.trains head.period (lent numbers.entry))
        sheet.old sheet.new result }
{
    check_write(sheet.len(), head, numbers)?;
    let n = Layout::new(head.trains).bytes();
    put_sheet(&mut sheet[..n], head, numbers);
    Ok(n as u64)
}
