// The lengths of the four lists that a record lends, and the room for them.
ghost use Rattle.std.specs.Prelude.{◌≡◌, ◌≤◌, IfOk, replicate, take};
ghost use Rattle.sheet.specs.Format.{pairs_of};

use records::source::short;
use sheet::layout::Layout;
use sheet::numbers::Lists;
use std::io;
use std::io::Read;

// The places of the longest lists that a record can lend: for trains, and for passengers.
const TRAINS: usize = 70;

const PASSENGERS: usize = 2100;

#[derive(Clone, Copy)]
pub struct Lengths {
    pub departures: usize,
    pub driving: usize,
    pub delays: usize,
    pub passengers: usize,
}

impl Lengths {
    // The next four numbers of the input, cut to the places that there are.
    pub fn next<R: Read>(from: &mut R) -> io::Result<Lengths>
        ensures { IfOk result (λ l. (l.departures ≤ TRAINS) × (l.driving ≤ TRAINS) ×
            (l.delays ≤ TRAINS) × (l.passengers ≤ PASSENGERS)) }
    {
        Ok(Lengths {
            departures: short(from)?.min(TRAINS),
            driving: short(from)?.min(TRAINS),
            delays: short(from)?.min(TRAINS),
            passengers: short(from)?.min(PASSENGERS),
        })
    }

    // Those of m trains, of which read never answers more than 64.
    pub fn of_trains(m: u32) -> Lengths
        ensures trains { (result.departures ≡ m) × (result.driving ≡ m) × (result.delays ≡ m) }
        ensures passengers { m ≤ 64 → result.passengers ≡ pairs_of m }
    {
        let n = m as usize;
        Lengths {
            departures: n,
            driving: n,
            delays: n,
            passengers: if m <= 64 { Layout::new(m).pairs() } else { 0 },
        }
    }
}

// The four lists at their longest.
#[derive(Drop)]
pub struct Room {
    pub departures: [u32; TRAINS],
    pub driving: [u32; TRAINS],
    pub delays: [u32; TRAINS],
    pub passengers: [u32; PASSENGERS],
}

impl Room {
    pub fn filled(value: u32) -> Room
        ensures departures { result.departures ≡ replicate TRAINS value }
        ensures driving { result.driving ≡ replicate TRAINS value }
        ensures delays { result.delays ≡ replicate TRAINS value }
        ensures passengers { result.passengers ≡ replicate PASSENGERS value }
    {
        Room {
            departures: [value; TRAINS],
            driving: [value; TRAINS],
            delays: [value; TRAINS],
            passengers: [value; PASSENGERS],
        }
    }

    // As many places of each list as are asked for, or all that it has.
    pub fn lists(&self, lengths: Lengths) -> Lists
        ensures departures { result.departures.now ≡
            take lengths.departures self.entry.now.departures }
        ensures driving { result.driving.now ≡ take lengths.driving self.entry.now.driving }
        ensures delays { result.delays.now ≡ take lengths.delays self.entry.now.delays }
        ensures passengers { result.passengers.now ≡
            take lengths.passengers self.entry.now.passengers }
    {
        Lists {
            departures: records::front(&self.departures, lengths.departures),
            driving: records::front(&self.driving, lengths.driving),
            delays: records::front(&self.delays, lengths.delays),
            passengers: records::front(&self.passengers, lengths.passengers),
        }
    }
}
