// The sheet of a number of trains: where its passenger fields stand, and how long it is.
ghost use Rattle.std.specs.Prelude.{◌≤◌};

use crate::format::Column;
use terms::Station;

// That of a line of `m` trains.
#[derive(Clone, Copy)]
pub struct Layout {
    pub m: u32,
    pub ghost few: { m ≤ 64 },
}

impl Layout {
    ghost use Rattle.std.specs.Prelude.{◌≡◌, ◌-◌, ◌*◌};
    ghost use Rattle.sheet.specs.Format.{passenger_column, bits_of, bytes_of, pairs_of};
    ghost use Rattle.sheet.specs.Pairs.{IsPair, field_of_pair};

    pub fn new(m: u32) -> Layout
        requires { m ≤ 64 }
        ensures { result.m ≡ m }
    {
        Layout { m }
    }

    // Its bits.
    #[tactic(auto, unfolding(crate::specs::Format::bits_of))]
    pub fn bits(self) -> usize
        ensures { result ≡ bits_of self.m }
    {
        let m = self.m as usize;
        7 * (m * m) + 40 * m + 18
    }

    // Its bytes, the filling bits included.
    #[tactic(auto, unfolding(crate::specs::Format::bytes_of))]
    pub fn bytes(self) -> usize
        ensures { result ≡ bytes_of self.m }
    {
        self.bits().div_ceil(8)
    }

    // Its filling bits, behind the last field.
    #[tactic(auto, using(crate::proofs::Lengths::bytes_le, crate::proofs::Lengths::bytes_bits))]
    pub fn filling(self) -> usize
        ensures { result ≡ 8 * bytes_of self.m - bits_of self.m }
    {
        8 * self.bytes() - self.bits()
    }

    // Its passenger fields.
    #[tactic(auto, unfolding(crate::specs::Format::pairs_of))]
    pub fn pairs(self) -> usize
        ensures { result ≡ pairs_of self.m }
    {
        let m = self.m as usize;
        m * (m + 1) / 2
    }

    // The column of its passenger fields.
    pub fn passengers(self) -> Column
        ensures { result ≡ passenger_column self.m }
    {
        Column {
            first: 18 + 33 * self.m as usize,
            step: 14,
            width: 14,
        }
    }

    // The passenger field, from 1, of those who board at one station and leave at another.
    pub fn field_of_pair(self, from: Station, to: Station) -> usize
        requires { IsPair self.m from.0 to.0 }
        ensures { (result ≡ field_of_pair self.m from.0 to.0) × (1 ≤ result)
            × (result ≤ pairs_of self.m) }
    {
        let before = from.index();
        before * (2 * self.m as usize + 1 - before) / 2 + (to.0 - from.0) as usize
    }
}
