// Document 01, "By program", for read and write: the records of stdin, made by
// tests/sheet_cases.py. What they must print, stdout, is written by hand from document 01.
#![tactic(auto)]

use std::io;

fn main(rt: HostRuntime) -> io::Result<()> {
    sheet_run::run(&mut rt.stdin(), &mut rt.stdout())
}
