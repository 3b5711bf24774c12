// Read: a sheet into four lent lists, refused by number. Each field of the sheet is read once.
// `read` has no `requires`: any bytes and any lists get an answer. `decoding::decode`, from which
// planning and reporting start too, has lists of the right lengths by their type.
#![tactic(auto)]

pub mod decoding;

ghost use Rattle.std.specs.Prelude.{◌≡◌};
ghost use Rattle.sheet.specs.Numbers.{lists};
ghost use Rattle.sheet.specs.Accepted.{Lengths};
ghost use Rattle.reader.specs.Reading.{read_trains, read_period};
ghost use Rattle.reader.specs.Read.{Read};

use crate::decoding::decode;
use sheet::checks::check_lengths;
use sheet::numbers::{Arrays, Lists};
use terms::{Head, ListFault, Refusal};

// What read answers, and what a sheet that is decoded or prepared answers: m and T, or why not.
pub type Reading = Result<Head, Refusal>;

// m, 0 where refused.
pub fn trains(answer: Reading) -> u32
    ensures { result ≡ read_trains answer }
{
    answer.map_or(0, |head| head.trains)
}

// T, 0 where refused.
pub fn period(answer: Reading) -> u32
    ensures { result ≡ read_period answer }
{
    answer.map_or(0, |head| head.period)
}

// Reads a sheet into lists of the right lengths. It is decoded beside them, since a refusal leaves
// them as they were.
fn read_sheet(
    sheet: &[u8],
    departures: &mut [u32],
    driving: &mut [u32],
    delays: &mut [u32],
    passengers: &mut [u32],
) -> Reading
    requires { Lengths 64 2080
        (lists departures.old driving.old delays.old passengers.old) }
    ensures { Read sheet.now
        (lists departures.old driving.old
        delays.old passengers.old)
        (lists departures.new driving.new
        delays.new passengers.new)
        result }
{
    let mut columns = Arrays::zeros();
    let head = decode(sheet, &mut columns)?;
    departures.copy_from_slice(&columns.departures);
    driving.copy_from_slice(&columns.driving);
    delays.copy_from_slice(&columns.delays);
    passengers.copy_from_slice(&columns.passengers);
    Ok(head)
}

// Reads a sheet into the lent lists.
pub fn read(
    sheet: &[u8],
    departures: &mut [u32],
    driving: &mut [u32],
    delays: &mut [u32],
    passengers: &mut [u32],
) -> Reading
    ensures { Read sheet.now
        (lists departures.old driving.old
        delays.old passengers.old)
        (lists departures.new driving.new
        delays.new passengers.new)
        result }
{
    let lent = Lists {
        departures,
        driving,
        delays,
        passengers,
    };
    check_lengths(Refusal::OfList(ListFault::BufferLength), 64, 2080, lent)?;
    read_sheet(sheet, departures, driving, delays, passengers)
}
