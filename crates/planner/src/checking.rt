// The checks of plan and of report, in their order. Sheet and cells are lent to be read, so that
// neither is written before the last check.
ghost use Rattle.std.specs.Prelude.{◌≡◌, length};
ghost use Rattle.terms.specs.Verdict.{Fine, verdict_of, ◌and_then◌};
ghost use Rattle.sheet.specs.Format.{trains_of};
ghost use Rattle.sheet.specs.Checks.{sheet_verdict};
ghost use Rattle.cells.specs.Place.{cell_count};
ghost use Rattle.prepare.specs.Prepared.{Prepared};
ghost use Rattle.planner.specs.Buffers.{buffer_lengths_verdict};
ghost use Rattle.planner.specs.ReportChecks.{report_checks, own_verdict};

use cells::limits::check_rows_after;
use cells::place::{CELLS, Table};
use cells::sources::Sources;
use prepare::prepare;
use reader::Reading;
use terms::{Delay, ListFault, Refusal, ReportFault, Verdict};

// The lengths of the lent buffers.
#[tactic(auto, unfolding(crate::specs::Buffers::buffer_lengths_verdict, terms::specs::Verdict::verdict_of, lists::specs::Choice::if_same))]
pub fn check_buffers(cells: usize, decisions: usize, delays: usize) -> Verdict
    ensures { result ≡ buffer_lengths_verdict cells decisions delays }
{
    if cells != CELLS {
        return Err(Refusal::OfList(ListFault::BufferLength));
    }
    if decisions != 64 {
        return Err(Refusal::OfList(ListFault::BufferLength));
    }
    if delays != 64 {
        return Err(Refusal::OfList(ListFault::BufferLength));
    }
    Ok(())
}

// The train and its new delay.
#[tactic(auto, unfolding(crate::specs::ReportChecks::report_checks, terms::specs::Verdict::verdict_of, lists::specs::Choice::if_below))]
fn check_reported(m: u32, delay: Delay) -> Verdict
    ensures { result ≡ verdict_of (report_checks m delay.train.0 delay.minutes) }
{
    if delay.train.0 < 1 {
        return Err(Refusal::OfReport(ReportFault::NoSuchTrain));
    }
    if m < delay.train.0 {
        return Err(Refusal::OfReport(ReportFault::NoSuchTrain));
    }
    if 1440 < delay.minutes {
        return Err(Refusal::OfReport(ReportFault::NewDelay(delay.train)));
    }
    Ok(())
}

// The train and its new delay, then the rows after it.
fn check_own(table: &Table, delay: Delay) -> Verdict
    ensures { result ≡ own_verdict table.now.m delay.train.0 delay.minutes
        table.now.cells.now }
{
    check_reported(table.m, delay)?;
    check_rows_after(table, delay.train)
}

// The sheet, whose times and sums are prepared, then the report's own; `earlier` is what the
// lengths said.
pub fn check_report(
    earlier: Verdict,
    sheet: &[u8],
    delay: Delay,
    cells: &[u64],
    sources: &mut Sources,
) -> Reading
    requires { earlier ≡ Fine → length cells.now ≡ cell_count }
    ensures { Prepared
        (earlier and_then sheet_verdict sheet.now
        and_then own_verdict (trains_of sheet.now) delay.train.0 delay.minutes
        cells.now)
        sheet.now sources.new.timing sources.new.sums result }
{
    let head = prepare(earlier, sheet, sources)?;
    let table = Table::new(head.trains, cells);
    check_own(&table, delay)?;
    Ok(head)
}
