// Plan: the policy of least total for a sheet, its delays and its total, or a refusal by number.
// Report: the same after one train's source delay changed, worked from that train's row to row 1.
// Neither has a `requires`: any sheet of bytes, any report and any buffers get an answer.
#![tactic(auto)]

mod checking;
mod settling;

ghost use Rattle.std.specs.Prelude.{◌≡◌, ◌≤◌, length, replicate};
ghost use Rattle.std.specs.Prelude.{if◌then◌else◌};
ghost use Rattle.terms.specs.Refusal.{blanks_of};
ghost use Rattle.sheet.specs.Accepted.{DelayReplaced};
ghost use Rattle.cells.specs.Timing.{source_in, with_source};
ghost use Rattle.planner.specs.Buffers.{buffers};
ghost use Rattle.planner.specs.Plan.{Plan};
ghost use Rattle.planner.specs.Report.{Report};
ghost use Rattle.planner.specs.Workable.{DelayRoom};

use crate::checking::{check_buffers, check_report};
use crate::settling::settle;
use cells::sources::Sources;
use cells::timing::Timing;
use prepare::prepare;
use sheet::format::Column;
use terms::{Answer, Delay, Refusal, Train};

// A blanked decision byte: neither keep nor go.
const BLANK: u8 = 2;

// What a refusal leaves: blanks, or nothing written where the refusal is for a length.
fn refuse(refusal: Refusal, decisions: &mut [u8], delays: &mut [u32]) -> Answer
    ensures { (result ≡ Err refusal)
        × (decisions.new ≡
        (if blanks_of refusal then replicate (length decisions.old) 2
        else decisions.old))
        × (delays.new ≡
        (if blanks_of refusal then replicate (length delays.old) 0
        else delays.old)) }
{
    if refusal.blanks() {
        decisions.fill(BLANK);
        delays.fill(0);
    }
    Err(refusal)
}

// Plans the line of a sheet: cells, decisions and delays into the lent buffers, the total as the
// answer. A refusal blanks decisions and delays, but for one of a buffer's length, which writes
// nothing.
pub fn plan(sheet: &[u8], cells: &mut [u64], decisions: &mut [u8], delays: &mut [u32]) -> Answer
    ensures { Plan sheet.now
        (buffers cells.old decisions.old delays.old)
        (buffers cells.new decisions.new delays.new)
        result }
{
    let lengths = check_buffers(cells.len(), decisions.len(), delays.len());
    let mut sources = Sources::zeros();
    match prepare(lengths, sheet, &mut sources) {
        Err(refusal) => refuse(refusal, decisions, delays),
        Ok(head) => {
            let m = head.trains;
            Ok(settle(m, Train(m), cells, decisions, delays, &sources))
        }
    }
}

// The field of the train's source delay takes the new one.
fn put_delay(sheet: &mut [u8], delay: Delay)
    requires { DelayRoom sheet.old delay.train.0 delay.minutes }
    ensures { DelayReplaced sheet.old delay.train.0 delay.minutes sheet.new }
{
    Column::delays().put(sheet, delay.train.index(), delay.minutes);
}

// Sheet and times take the train's new source delay.
fn replace_delay(sheet: &mut [u8], timing: &mut Timing, delay: Delay)
    requires { DelayRoom sheet.old delay.train.0 delay.minutes × (delay.train.0 ≤ 64) }
    ensures sheet { DelayReplaced sheet.old delay.train.0 delay.minutes sheet.new }
    ensures times { timing.new ≡ with_source timing.old delay.train.0 delay.minutes }
    ensures here { source_in timing.new delay.train.0 ≡ delay.minutes }
{
    put_delay(sheet, delay);
    timing.set_source(delay.train, delay.minutes);
}

// Takes a new source delay of one train: puts it into the sheet, and works anew the rows of that
// train and of those before it. On cells that a plan left, decisions, delays and answer are then
// those of a plan of the sheet as it stands. A refusal leaves sheet and cells as they were, and
// blanks as in plan.
pub fn report(
    sheet: &mut [u8],
    delay: Delay,
    cells: &mut [u64],
    decisions: &mut [u8],
    delays: &mut [u32],
) -> Answer
    ensures { Report sheet.old delay.train.0 delay.minutes
        (buffers cells.old decisions.old delays.old)
        sheet.new
        (buffers cells.new decisions.new delays.new)
        result }
{
    let lengths = check_buffers(cells.len(), decisions.len(), delays.len());
    let mut sources = Sources::zeros();
    match check_report(lengths, sheet, delay, cells, &mut sources) {
        Err(refusal) => refuse(refusal, decisions, delays),
        Ok(head) => {
            replace_delay(sheet, &mut sources.timing, delay);
            let m = head.trains;
            Ok(settle(m, delay.train, cells, decisions, delays, &sources))
        }
    }
}
