// The C boundary: read, write, plan and report for programs in C; oblachura_c exports them under
// these names, and include/oblachura.h declares them. Each returns the number of the refusal, 0
// where accepted, and stores the answer's numbers in the list `answer`. Nothing is decided here but
// whether that list has its length; where it has not, the call is 10 and writes nothing. No call
// has a `requires`.
#![tactic(auto)]

mod telling;

ghost use Rattle.sheet.specs.Numbers.{lists};
ghost use Rattle.writer.specs.Write.{given};
ghost use Rattle.planner.specs.Buffers.{buffers};
ghost use Rattle.oblachura.specs.Calls.{ReadCall, WriteCall, PlanCall, lent, ReportCall};

use crate::telling::{ANSWER, READ_ANSWER, tell_answer, tell_reading, wrong_list};
use planner::{plan, report};
use reader::read;
use sheet::numbers::Lists;
use terms::{Delay, Head, Train};
use writer::write;

// Reads a sheet into the lent lists; the answer is number, place, m and T.
pub fn oblachura_read(
    sheet: &[u8],
    departures: &mut [u32],
    driving: &mut [u32],
    delays: &mut [u32],
    passengers: &mut [u32],
    answer: &mut [u64],
) -> u32
    ensures { ReadCall sheet.now
        (lists departures.old driving.old
        delays.old passengers.old)
        answer.old
        (lists departures.new driving.new
        delays.new passengers.new)
        answer.new result }
{
    if answer.len() != READ_ANSWER {
        return wrong_list();
    }
    tell_reading(read(sheet, departures, driving, delays, passengers), answer)
}

// Writes the sheet of m, T and four lists; the answer is number, place and its length.
pub fn oblachura_write(
    m: u32,
    period: u32,
    departures: &[u32],
    driving: &[u32],
    delays: &[u32],
    passengers: &[u32],
    sheet: &mut [u8],
    answer: &mut [u64],
) -> u32
    ensures { WriteCall
        (given m period
        (lists departures.now driving.now
        delays.now passengers.now))
        sheet.old answer.old
        sheet.new answer.new result }
{
    if answer.len() != ANSWER {
        return wrong_list();
    }
    let head = Head { trains: m, period };
    let numbers = Lists {
        departures,
        driving,
        delays,
        passengers,
    };
    tell_answer(write(head, numbers, sheet), answer)
}

// Plans the line of a sheet; the answer is number, place and total.
pub fn oblachura_plan(
    sheet: &[u8],
    cells: &mut [u64],
    decisions: &mut [u8],
    delays: &mut [u32],
    answer: &mut [u64],
) -> u32
    ensures { PlanCall sheet.now
        (buffers cells.old decisions.old delays.old)
        answer.old
        (buffers cells.new decisions.new delays.new)
        answer.new result }
{
    if answer.len() != ANSWER {
        return wrong_list();
    }
    tell_answer(plan(sheet, cells, decisions, delays), answer)
}

// Takes a new source delay of one train; the answer is number, place and total.
pub fn oblachura_report(
    sheet: &mut [u8],
    train: u32,
    delay: u32,
    cells: &mut [u64],
    decisions: &mut [u8],
    delays: &mut [u32],
    answer: &mut [u64],
) -> u32
    ensures { ReportCall train delay
        (lent sheet.old
        (buffers cells.old decisions.old delays.old))
        answer.old
        (lent sheet.new
        (buffers cells.new decisions.new delays.new))
        answer.new result }
{
    if answer.len() != ANSWER {
        return wrong_list();
    }
    let delay = Delay {
        train: Train(train),
        minutes: delay,
    };
    tell_answer(report(sheet, delay, cells, decisions, delays), answer)
}
