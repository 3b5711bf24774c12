// Reads one sheet from standard input, plans it and prints the plan: the total, then per train its
// number, its decision ('-' for train 1) and its arrival delay. Refused: number and place. Document
// 01, "Sums to check by hand". A sheet that is longer than any line has is read no further than
// 3,908 bytes, which is enough to refuse it.
#![tactic(auto)]

ghost use Rattle.std.specs.Prelude.{◌≡◌, ◌≤◌, length, IfOk};
ghost use Rattle.sheet.specs.Accepted.{AcceptedSheet};
ghost use Rattle.sheet.specs.Format.{trains_of};

use bits::field;
use planner::plan;
use sheet::format::{TRAINS_AT, TRAINS_WIDTH};
use std::io;
use std::io::{Read, Write};

// Reads until the buffer is full or the input ends, and answers how many bytes were read.
fn read_full<R: Read>(from: &mut R, buffer: &mut [u8]) -> io::Result<usize>
    ensures { IfOk result (λ n. n ≤ length buffer.new) }
{
    let mut n = 0;
    while n < buffer.len() {
        let more = from.read(&mut buffer[n..])?;
        if more == 0 {
            break;
        }
        n += more;
    }
    Ok(n)
}

// Train 1 has no feeder to wait for. The space before the word is written with it.
fn word(train: usize, decision: u8) -> &'static str {
    match (train, decision) {
        (1, _) => " -",
        (_, 1) => " keep",
        _ => " go",
    }
}

// The trains, one line each.
fn print_trains<W: Write>(out: &mut W, decisions: &[u8], delays: &[u32]) -> io::Result<()> {
    for (train, (decision, delay)) in (1..).zip(decisions.iter().zip(delays)) {
        writeln!(out, "{train}{} {delay}", word(train, *decision))?;
    }
    Ok(())
}

// The number of trains of an accepted sheet.
#[tactic(auto, using(crate::proofs::Head::head_within, crate::proofs::Head::head_trains))]
fn trains(sheet: &[u8]) -> usize
    requires { AcceptedSheet sheet.now }
    ensures is { result ≡ trains_of sheet.now }
    ensures most { result ≤ 64 }
{
    field(sheet, TRAINS_AT, TRAINS_WIDTH) as usize
}

fn main(rt: HostRuntime) -> io::Result<()> {
    let mut buffer = [0u8; 3908];
    let mut cells = [0u64; 4096];
    let mut decisions = [0u8; 64];
    let mut delays = [0u32; 64];
    let n = read_full(&mut rt.stdin(), &mut buffer)?;
    let sheet = &buffer[..n];
    let answer = plan(sheet, &mut cells, &mut decisions, &mut delays);
    let mut out = rt.stdout();
    // the first word of a line is a write of its own
    match answer {
        Err(refusal) => {
            write!(out, "refused")?;
            writeln!(out, " {} {}", refusal.number(), refusal.place())
        }
        Ok(total) => {
            write!(out, "total")?;
            writeln!(out, " {total}")?;
            let m = trains(sheet);
            print_trains(&mut out, &decisions[..m], &delays[..m])
        }
    }
}
