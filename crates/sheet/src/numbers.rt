// The numbers of a line in four lists: departures, driving times and source delays by train, and
// the passengers by pair.
ghost use Rattle.std.specs.Prelude.{◌≡◌, replicate};
ghost use Rattle.sheet.specs.Accepted.{Lengths};
ghost use Rattle.sheet.specs.Held.{lent};

// Four lists lent to be read.
#[derive(Clone, Copy)]
pub struct Lists<'a> {
    pub departures: &'a [u32],
    pub driving: &'a [u32],
    pub delays: &'a [u32],
    pub passengers: &'a [u32],
}

// Four lists with room for the numbers of any line.
#[derive(Drop)]
pub struct Arrays {
    pub departures: [u32; 64],
    pub driving: [u32; 64],
    pub delays: [u32; 64],
    pub passengers: [u32; 2080],
}

impl Arrays {
    pub fn zeros() -> Arrays
        ensures departures { result.departures ≡ replicate 64 0 }
        ensures driving { result.driving ≡ replicate 64 0 }
        ensures delays { result.delays ≡ replicate 64 0 }
        ensures passengers { result.passengers ≡ replicate 2080 0 }
    {
        Arrays {
            departures: [0; 64],
            driving: [0; 64],
            delays: [0; 64],
            passengers: [0; 2080],
        }
    }

    // The same lists, lent to be read.
    pub fn lists(&self) -> Lists<'_>
        ensures departures { result.departures.now ≡ self.now.departures }
        ensures driving { result.driving.now ≡ self.now.driving }
        ensures delays { result.delays.now ≡ self.now.delays }
        ensures passengers { result.passengers.now ≡ self.now.passengers }
        ensures long { Lengths 64 2080 (lent result) }
    {
        Lists {
            departures: &self.departures,
            driving: &self.driving,
            delays: &self.delays,
            passengers: &self.passengers,
        }
    }
}
