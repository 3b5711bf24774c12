// The vocabulary: trains and stations, numbered apart; the refusals by name; what a check finds and
// what an operation answers. No other crate knows the number or the place of a refusal.
#![tactic(auto)]

ghost use Rattle.std.specs.Prelude.{◌≡◌, ◌+◌, ◌-◌, ◌≤◌};
ghost use Rattle.terms.specs.Refusal.{number_of, place_of, blanks_of};
ghost use Rattle.terms.specs.Answer.{answer_number, answer_place, answer_carries};

// Train i leaves station i and reaches station i + 1.
#[derive(Clone, Copy)]
pub struct Train(pub u32);

#[derive(Clone, Copy)]
pub struct Station(pub u32);

impl Train {
    pub fn leaves(self) -> Station
        ensures { result.0 ≡ self.0 }
    {
        Station(self.0)
    }

    pub fn reaches(self) -> Station
        requires { self.0 ≤ 64 }
        ensures { result.0 ≡ self.0 + 1 }
    {
        Station(self.0 + 1)
    }

    // Where the train stands in a list that begins with train 1: where its station stands.
    pub fn index(self) -> usize
        requires { 1 ≤ self.0 }
        ensures { result ≡ self.0 - 1 }
    {
        self.leaves().index()
    }
}

impl Station {
    // The train that reaches this station, whose passengers may go on from here. None reaches
    // station 1.
    pub fn feeder(self) -> Train
        requires { 2 ≤ self.0 }
        ensures { result.0 ≡ self.0 - 1 }
    {
        Train(self.0 - 1)
    }

    // Where the station stands in a list that begins with station 1.
    pub fn index(self) -> usize
        requires { 1 ≤ self.0 }
        ensures { result ≡ self.0 - 1 }
    {
        self.0 as usize - 1
    }
}

// A train's new source delay, as a report brings it; any train and any minutes.
#[derive(Clone, Copy)]
pub struct Delay {
    pub train: Train,
    pub minutes: u32,
}

// What is wrong with a lent list.
#[derive(Clone, Copy)]
pub enum ListFault {
    // a buffer has another length than stated
    BufferLength,
    // in write, a list has another length than the line's trains demand
    ListLength,
}

// What is wrong with m, T or the length of a sheet.
#[derive(Clone, Copy)]
pub enum HeadFault {
    // a sheet under 3 bytes: too short for m and T
    NoHead,
    // m is 0 or over 64
    TrainCount,
    // T is 0 or over 1,440
    Period,
    // a sheet shorter than m demands
    TooShort,
    // a sheet longer than m demands
    TooLong,
}

// What is wrong with the numbers of a train.
#[derive(Clone, Copy)]
pub enum TrainFault {
    // departure over 2,879
    Departure,
    // driving time over 1,023
    Driving,
    // source delay over 1,440
    SourceDelay,
    // slack under 0
    Slack,
}

// What is wrong with a report or with the cells that it finds.
#[derive(Clone, Copy)]
pub enum ReportFault {
    // train is 0 or over m
    NoSuchTrain,
    // new delay over 1,440
    NewDelay(Train),
    // a cell in use in a row after the train is over the limit; the train is the one that the row's
    // run begins with
    CellOverLimit(Train),
}

// Why an input is refused: a fault and, where it has one, its place. In groups, which read, write,
// plan and report do not all give.
#[derive(Clone, Copy)]
pub enum Refusal {
    OfList(ListFault),
    OfHead(HeadFault),
    OfTrain(Train, TrainFault),
    // passengers over 10,000 in this field, from 1
    Passengers(u32),
    // a filling bit is 1
    Filling,
    OfReport(ReportFault),
}

impl Refusal {
    pub fn number(self) -> u32
        ensures { result ≡ number_of self }
    {
        match self {
            Refusal::OfList(fault) => match fault {
                ListFault::BufferLength => 10,
                ListFault::ListLength => 10,
            },
            Refusal::OfHead(fault) => match fault {
                HeadFault::NoHead => 1,
                HeadFault::TrainCount => 2,
                HeadFault::Period => 3,
                HeadFault::TooShort => 1,
                HeadFault::TooLong => 4,
            },
            Refusal::OfTrain(_, fault) => match fault {
                TrainFault::Departure => 5,
                TrainFault::Driving => 13,
                TrainFault::SourceDelay => 6,
                TrainFault::Slack => 7,
            },
            Refusal::Passengers(_) => 8,
            Refusal::Filling => 9,
            Refusal::OfReport(fault) => match fault {
                ReportFault::NoSuchTrain => 11,
                ReportFault::NewDelay(_) => 6,
                ReportFault::CellOverLimit(_) => 12,
            },
        }
    }

    pub fn place(self) -> u32
        ensures { result ≡ place_of self }
    {
        match self {
            Refusal::OfList(_) => 0,
            Refusal::OfHead(_) => 0,
            Refusal::OfTrain(train, _) => train.0,
            Refusal::Passengers(field) => field,
            Refusal::Filling => 0,
            Refusal::OfReport(fault) => match fault {
                ReportFault::NoSuchTrain => 0,
                ReportFault::NewDelay(train) => train.0,
                ReportFault::CellOverLimit(first) => first.0,
            },
        }
    }

    // Whether a plan or a report that is refused for this reason blanks decisions and delays.
    pub fn blanks(self) -> bool
        ensures { result ≡ blanks_of self }
    {
        match self {
            Refusal::OfList(fault) => match fault {
                ListFault::BufferLength => false,
                ListFault::ListLength => false,
            },
            Refusal::OfHead(_) => true,
            Refusal::OfTrain(_, _) => true,
            Refusal::Passengers(_) => true,
            Refusal::Filling => true,
            Refusal::OfReport(_) => true,
        }
    }
}

// The head of a sheet, which is what read answers: m and T.
#[derive(Clone, Copy)]
pub struct Head {
    pub trains: u32,
    pub period: u32,
}

// What a check finds: nothing, or why the input is refused.
pub type Verdict = Result<(), Refusal>;

// What write, plan and report answer: the one number that an accepted call brings, or why not.
pub type Answer = Result<u64, Refusal>;

// The number of the refusal, 0 where accepted, whatever an accepted call brings.
pub fn number<T: Copy>(answer: Result<T, Refusal>) -> u32
    ensures { result ≡ answer_number answer }
{
    match answer {
        Ok(_) => 0,
        Err(refusal) => refusal.number(),
    }
}

// The place of the refusal, 0 where accepted or where it has none.
pub fn place<T: Copy>(answer: Result<T, Refusal>) -> u32
    ensures { result ≡ answer_place answer }
{
    match answer {
        Ok(_) => 0,
        Err(refusal) => refusal.place(),
    }
}

// The total, or in write the length of the sheet; 0 where refused.
pub fn carries(answer: Answer) -> u64
    ensures { result ≡ answer_carries answer }
{
    answer.unwrap_or(0)
}
