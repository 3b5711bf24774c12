// What a line is worked from, before it is a book: its times, and the sums of those who leave.
ghost use Rattle.std.specs.Prelude.{◌≡◌, replicate};
ghost use Rattle.cells.specs.Timing.{no_times};
ghost use Rattle.cells.specs.Sums.{sums_count};

use crate::sums::SUMS;
use crate::timing::Timing;

#[derive(Drop)]
pub struct Sources {
    pub timing: Timing,
    pub sums: [u32; SUMS],
}

impl Sources {
    pub fn zeros() -> Sources
        ensures timing { result.timing ≡ no_times }
        ensures sums { result.sums ≡ replicate sums_count 0 }
    {
        Sources {
            timing: Timing::zeros(),
            sums: [0; SUMS],
        }
    }
}
