// A sheet taken apart into four lists: its head, each field behind it once, and the checks on
// what was read. Reading, planning and reporting start from it.
ghost use Rattle.std.specs.Prelude.{◌≡◌, length};
ghost use Rattle.lists.specs.Filled.{Filled};
ghost use Rattle.sheet.specs.Format.{trains_of, period_of, entry};
ghost use Rattle.sheet.specs.Held.{held};
ghost use Rattle.sheet.specs.Checks.{head_verdict, filling_verdict, body_verdict};
ghost use Rattle.reader.specs.Reading.{reading_of};
ghost use Rattle.reader.specs.Decoded.{ColumnRoom, HeadRead, ColumnsRead, Body, Decoded};

use crate::Reading;
use bits::field;
use sheet::checks::{check_numbers, check_ranges};
use sheet::format::{Column, PERIOD_AT, PERIOD_WIDTH, TRAINS_AT, TRAINS_WIDTH};
use sheet::layout::Layout;
use sheet::numbers::Arrays;
use terms::{Head, HeadFault, Refusal, Verdict};

// Under 3 bytes; m and T; shorter or longer than m demands.
fn read_head(sheet: &[u8]) -> Reading
    ensures { result ≡ reading_of (head_verdict sheet.now)
        (trains_of sheet.now) (period_of sheet.now) }
{
    if sheet.len() < 3 {
        return Err(Refusal::OfHead(HeadFault::NoHead));
    }
    let trains = field(sheet, TRAINS_AT, TRAINS_WIDTH);
    let period = field(sheet, PERIOD_AT, PERIOD_WIDTH);
    let claimed = Head { trains, period };
    check_ranges(claimed)?;
    let n = Layout::new(trains).bytes();
    if sheet.len() < n {
        return Err(Refusal::OfHead(HeadFault::TooShort));
    }
    if n < sheet.len() {
        return Err(Refusal::OfHead(HeadFault::TooLong));
    }
    Ok(claimed)
}

// The list becomes the first places of the column.
#[tactic(auto, using(lists::proofs::Fill::filled_next))]
fn read_column(list: &mut [u32], sheet: &[u8], column: Column)
    requires { ColumnRoom sheet.now column (length list.old) }
    ensures { Filled 0 (entry sheet.now column) (length list.old) list.old list.new }
{
    for (k, place) in list.iter_mut().enumerate() {
        *place = column.field(sheet, k);
    }
}

// Every field behind the head.
#[tactic(auto, using(sheet::proofs::Lengths::pairs_le))]
fn read_columns(sheet: &[u8], layout: Layout, columns: &mut Arrays)
    requires { HeadRead sheet.now layout.m }
    ensures { ColumnsRead sheet.now (held columns.old) (held columns.new) }
{
    let m = layout.m as usize;
    let n = layout.pairs();
    read_column(&mut columns.departures[..m], sheet, Column::departures());
    read_column(&mut columns.driving[..m], sheet, Column::driving());
    read_column(&mut columns.delays[..m], sheet, Column::delays());
    read_column(&mut columns.passengers[..n], sheet, layout.passengers());
}

// The filling bits.
#[tactic(auto, using(sheet::proofs::Lengths::filling_within), unfolding(sheet::specs::Checks::filling_verdict, terms::specs::Verdict::verdict_of, lists::specs::Choice::if_below))]
fn check_filling(sheet: &[u8], layout: Layout) -> Verdict
    requires { HeadRead sheet.now layout.m }
    ensures { result ≡ filling_verdict sheet.now }
{
    if 0 < field(sheet, layout.bits(), layout.filling()) {
        return Err(Refusal::Filling);
    }
    Ok(())
}

// The numbers of the sheet, which stand in the lists, then its filling bits.
fn check_body(sheet: &[u8], layout: Layout, columns: &Arrays) -> Verdict
    requires { Body sheet.now layout.m (held columns.now) }
    ensures { result ≡ body_verdict sheet.now }
{
    check_numbers(layout, columns.lists())?;
    check_filling(sheet, layout)
}

// A sheet taken apart, each field read once. A head that is refused leaves the lists as they were;
// a body that is refused leaves the fields in them.
pub fn decode(sheet: &[u8], columns: &mut Arrays) -> Reading
    ensures { Decoded sheet.now (held columns.old) (held columns.new) result }
{
    let head = read_head(sheet)?;
    let layout = Layout::new(head.trains);
    read_columns(sheet, layout, columns);
    check_body(sheet, layout, columns)?;
    Ok(head)
}
