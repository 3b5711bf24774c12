// The sheet put together: m and T, column by column, zeros behind the last field.
ghost use Rattle.std.specs.Prelude.{◌≡◌, length};
ghost use Rattle.sheet.specs.Format.{bytes_of};
ghost use Rattle.sheet.specs.Held.{lent};
ghost use Rattle.sheet.specs.Accepted.{SheetOf};
ghost use Rattle.writer.specs.Write.{given, numbers_given};
ghost use Rattle.writer.specs.Putting.{PutRoom, ColumnPut, HeadRoom, HeadPut, TimesRoom};
ghost use Rattle.writer.specs.Putting.{TimesPut, FillingPut, Writable};

use bits::put;
use sheet::format::{Column, PERIOD_AT, PERIOD_WIDTH, TRAINS_AT, TRAINS_WIDTH};
use sheet::layout::Layout;
use sheet::numbers::Lists;
use terms::Head;

// The first places of the column become those of `list`.
fn put_column(sheet: &mut [u8], column: Column, list: &[u32])
    requires { PutRoom sheet.old column list.now }
    ensures { ColumnPut sheet.old column (length list.now) list.now sheet.new }
{
    for (k, number) in list.iter().enumerate() {
        column.put(sheet, k, *number);
    }
}

// m and T.
fn put_head(sheet: &mut [u8], head: Head)
    requires { HeadRoom sheet.old head.trains head.period }
    ensures { HeadPut sheet.old head.trains head.period sheet.new }
{
    put(sheet, TRAINS_AT, TRAINS_WIDTH, head.trains);
    put(sheet, PERIOD_AT, PERIOD_WIDTH, head.period);
}

// The times of the trains, column by column.
fn put_times(sheet: &mut [u8], numbers: Lists)
    requires { TimesRoom sheet.old (length numbers.departures.now)
        numbers.departures.now numbers.driving.now numbers.delays.now }
    ensures { TimesPut sheet.old (length numbers.entry.departures.now)
        numbers.entry.departures.now numbers.entry.driving.now numbers.entry.delays.now sheet.new }
{
    put_column(sheet, Column::departures(), numbers.departures);
    put_column(sheet, Column::driving(), numbers.driving);
    put_column(sheet, Column::delays(), numbers.delays);
}

// Zeros behind the last field.
#[tactic(auto, using(sheet::proofs::Lengths::filling_within, std::proofs::Common::pow_pos))]
fn put_filling(sheet: &mut [u8], layout: Layout)
    requires { length sheet.old ≡ bytes_of layout.m }
    ensures { FillingPut layout.m sheet.old sheet.new }
{
    put(sheet, layout.bits(), layout.filling(), 0);
}

// The whole sheet into as many bytes as it has.
pub fn put_sheet(sheet: &mut [u8], head: Head, numbers: Lists)
    requires { Writable (given head.trains head.period (lent numbers)) sheet.old }
    ensures { SheetOf (numbers_given (given head.trains head.period (lent numbers.entry)))
        sheet.new }
{
    let layout = Layout::new(head.trains);
    put_head(sheet, head);
    put_times(sheet, numbers);
    put_column(sheet, layout.passengers(), numbers.passengers);
    put_filling(sheet, layout);
}
