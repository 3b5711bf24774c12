// The passenger fields of a line, each in range.
ghost use Rattle.prepare.specs.Preparing.{FieldsGiven};

use sheet::layout::Layout;
use terms::Station;

// Those of a line of `m` trains.
#[derive(Clone, Copy)]
pub struct Fields<'a> {
    pub m: u32,
    pub passengers: &'a [u32],
    pub ghost given: { FieldsGiven m passengers.now },
}

impl<'a> Fields<'a> {
    ghost use Rattle.std.specs.Prelude.{◌≡◌, ◌≤◌};
    ghost use Rattle.sheet.specs.Pairs.{IsPair};
    ghost use Rattle.prepare.specs.Preparing.{pair_in};

    pub fn new(m: u32, passengers: &'a [u32]) -> Fields<'a>
        requires { FieldsGiven m passengers.now }
        ensures m { result.m ≡ m }
        ensures passengers { result.passengers.now ≡ passengers.now }
    {
        Fields { m, passengers }
    }

    // Those who board at one station and leave at another.
    #[tactic(auto, unfolding(crate::specs::Preparing::pair_in))]
    pub fn pair(&self, from: Station, to: Station) -> u32
        requires { IsPair self.now.m from.0 to.0 }
        ensures { (result ≡ pair_in self.now.m self.now.passengers.now from.0 to.0) ×
            (result ≤ 10000) }
    {
        self.passengers[Layout::new(self.m).field_of_pair(from, to) - 1]
    }
}
