// The checks on a line's numbers, in the order of document 01: those of a sheet that is read,
// planned or reported on, and of the lists that are written.
ghost use Rattle.std.specs.Prelude.{◌≡◌, ◌≤◌, length};
ghost use Rattle.lists.specs.Run.{nth};
ghost use Rattle.terms.specs.Verdict.{verdict_of, first_of};
ghost use Rattle.sheet.specs.Numbers.{times_in};
ghost use Rattle.sheet.specs.Held.{lent, times_lent};
ghost use Rattle.sheet.specs.Checks.{lengths_verdict, ranges_verdict, earliest_of, train_checks};
ghost use Rattle.sheet.specs.Checks.{train_verdict, passengers_verdict, numbers_verdict};
ghost use Rattle.sheet.specs.Checks.{TrainRoom, Room};

use crate::layout::Layout;
use crate::numbers::Lists;
use terms::{Head, HeadFault, Refusal, Train, TrainFault, Verdict};

// The lengths of four lists: `n` for each of the trains' three, `k` for the passengers'.
#[tactic(auto, unfolding(crate::specs::Checks::lengths_verdict, terms::specs::Verdict::verdict_of, lists::specs::Choice::if_same))]
pub fn check_lengths(refusal: Refusal, n: usize, k: usize, given: Lists) -> Verdict
    ensures { result ≡ lengths_verdict refusal n k (lent given.entry) }
{
    if given.departures.len() != n {
        return Err(refusal);
    }
    if given.driving.len() != n {
        return Err(refusal);
    }
    if given.delays.len() != n {
        return Err(refusal);
    }
    if given.passengers.len() != k {
        return Err(refusal);
    }
    Ok(())
}

// The number of trains and the period.
#[tactic(auto, unfolding(crate::specs::Checks::ranges_verdict, terms::specs::Verdict::verdict_of, lists::specs::Choice::if_below))]
pub fn check_ranges(head: Head) -> Verdict
    ensures { result ≡ ranges_verdict head.trains head.period }
{
    if head.trains < 1 {
        return Err(Refusal::OfHead(HeadFault::TrainCount));
    }
    if 64 < head.trains {
        return Err(Refusal::OfHead(HeadFault::TrainCount));
    }
    if head.period < 1 {
        return Err(Refusal::OfHead(HeadFault::Period));
    }
    if 1440 < head.period {
        return Err(Refusal::OfHead(HeadFault::Period));
    }
    Ok(())
}

// The earliest minute at which a train may leave: when its feeder is planned to arrive. Train 1 has
// none and may leave at 0.
#[tactic(auto, unfolding(crate::specs::Checks::earliest_of, lists::specs::Choice::if_below))]
fn earliest(train: Train, departures: &[u32], driving: &[u32]) -> u64
    requires { (train.0 ≤ length departures.now) × (train.0 ≤ length driving.now) }
    ensures { result ≡ earliest_of (nth departures.now) (nth driving.now)
        train.0 }
{
    if 1 < train.0 {
        let k = train.leaves().feeder().index();
        u64::from(departures[k]) + u64::from(driving[k])
    } else {
        0
    }
}

// The times of one train: departure, driving time, source delay, slack.
#[tactic(auto, unfolding(crate::specs::Checks::train_checks, terms::specs::Verdict::verdict_of, lists::specs::Choice::if_below))]
fn check_times(train: Train, departure: u64, driving: u32, delay: u32, earliest: u64) -> Verdict
    ensures { result ≡ verdict_of (train_checks train.0 departure driving delay earliest) }
{
    if 2879 < departure {
        return Err(Refusal::OfTrain(train, TrainFault::Departure));
    }
    if 1023 < driving {
        return Err(Refusal::OfTrain(train, TrainFault::Driving));
    }
    if 1440 < delay {
        return Err(Refusal::OfTrain(train, TrainFault::SourceDelay));
    }
    if departure < earliest {
        return Err(Refusal::OfTrain(train, TrainFault::Slack));
    }
    Ok(())
}

// One train of the lists.
fn check_train(train: Train, given: Lists) -> Verdict
    requires { TrainRoom train.0 given.departures.now given.driving.now given.delays.now }
    ensures { result ≡ train_verdict (times_lent given.entry) train.0 }
{
    let k = train.index();
    let departure = u64::from(given.departures[k]);
    let earliest = earliest(train, given.departures, given.driving);
    check_times(
        train,
        departure,
        given.driving[k],
        given.delays[k],
        earliest,
    )
}

// Trains 1 to `m`, one after the other.
fn check_trains(m: u32, given: Lists) -> Verdict
    requires { TrainRoom m given.departures.now given.driving.now given.delays.now }
    ensures { result ≡ first_of (train_verdict (times_lent given.entry)) 1 m }
{
    for i in 1..=m {
        check_train(Train(i), given)?;
    }
    Ok(())
}

// The passenger fields, from the first on. Not inlined: within write, which has many numbers at
// hand, the loop takes nearly twice as long.
#[inline(never)]
fn check_passengers(passengers: &[u32]) -> Verdict
    requires { length passengers.now ≤ 2080 }
    ensures { result ≡ first_of (passengers_verdict (nth passengers.now)) 1
        (length passengers.now) }
{
    for (k, count) in passengers.iter().enumerate() {
        if 10000 < *count {
            return Err(Refusal::Passengers(k as u32 + 1));
        }
    }
    Ok(())
}

// All trains, then all passenger fields.
#[tactic(auto, using(crate::proofs::Lengths::pairs_le))]
pub fn check_numbers(layout: Layout, given: Lists) -> Verdict
    requires { Room layout.m (lent given) }
    ensures { result ≡ numbers_verdict layout.m (times_lent given.entry)
        (nth given.entry.passengers.now) }
{
    check_trains(layout.m, given)?;
    let n = layout.pairs();
    check_passengers(&given.passengers[..n])
}
