// From a sheet to what rows and walk read: its times and a list of sums. No other crate makes
// them of a sheet's numbers.
#![tactic(auto)]

mod fields;
mod sums;
mod times;

ghost use Rattle.std.specs.Prelude.{◌≡◌, length};
ghost use Rattle.terms.specs.Verdict.{◌and_then◌};
ghost use Rattle.sheet.specs.Checks.{sheet_verdict};
ghost use Rattle.prepare.specs.Prepared.{Prepared};

use crate::fields::Fields;
use crate::sums::sum_columns;
use crate::times::fill_timing;
use cells::sources::Sources;
use reader::Reading;
use reader::decoding::decode;
use sheet::numbers::Arrays;
use terms::Verdict;

// Takes the sheet apart and, if it is accepted, fills times and sums.
fn prepare_sheet(sheet: &[u8], sources: &mut Sources) -> Reading
    ensures { Prepared (sheet_verdict sheet.now) sheet.now
        sources.new.timing sources.new.sums result }
{
    let mut columns = Arrays::zeros();
    let head = decode(sheet, &mut columns)?;
    fill_timing(&mut sources.timing, head, columns.lists());
    sum_columns(
        &mut sources.sums,
        &Fields::new(head.trains, &columns.passengers),
    );
    Ok(head)
}

// The same, unless an earlier check refused.
pub fn prepare(earlier: Verdict, sheet: &[u8], sources: &mut Sources) -> Reading
    ensures { Prepared (earlier and_then sheet_verdict sheet.now)
        sheet.now sources.new.timing sources.new.sums result }
{
    earlier?;
    prepare_sheet(sheet, sources)
}
