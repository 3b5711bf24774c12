// Where the fields of every sheet stand.
ghost use Rattle.std.specs.Prelude.{◌≡◌, ◌+◌, ◌*◌, ◌^◌, ◌<◌};
ghost use Rattle.bits.specs.Field.{Within, Put};
ghost use Rattle.sheet.specs.Format.{entry, departure_column, driving_column, delay_column};

use bits::{field, put};

// The head: m, then T.
pub const TRAINS_AT: usize = 0;

pub const TRAINS_WIDTH: usize = 7;

pub const PERIOD_AT: usize = 7;

pub const PERIOD_WIDTH: usize = 11;

// Fields of one width at equal distances: `width` bits from bit `first`, and again every `step`
// bits.
#[derive(Clone, Copy)]
pub struct Column {
    pub first: usize,
    pub step: usize,
    pub width: usize,
}

impl Column {
    pub fn departures() -> Column
        ensures { result ≡ departure_column }
    {
        Column {
            first: 18,
            step: 33,
            width: 12,
        }
    }

    pub fn driving() -> Column
        ensures { result ≡ driving_column }
    {
        Column {
            first: 30,
            step: 33,
            width: 10,
        }
    }

    pub fn delays() -> Column
        ensures { result ≡ delay_column }
    {
        Column {
            first: 40,
            step: 33,
            width: 11,
        }
    }

    // The number in place `k`, from 0.
    #[tactic(auto, unfolding(crate::specs::Format::entry))]
    pub fn field(self, sheet: &[u8], k: usize) -> u32
        requires { Within sheet.now (self.first + self.step * k) self.width }
        ensures { result ≡ entry sheet.now self k }
    {
        field(sheet, self.first + self.step * k, self.width)
    }

    // Place `k`, from 0, becomes `value`.
    pub fn put(self, sheet: &mut [u8], k: usize, value: u32)
        requires { Within sheet.old (self.first + self.step * k) self.width
            × (value < 2 ^ self.width) }
        ensures { Put sheet.old (self.first + self.step * k) self.width value sheet.new }
    {
        put(sheet, self.first + self.step * k, self.width, value);
    }
}
