// Many sheets and lists, valid and damaged, long and short: the records of stdin.
// What they must print, stdout, comes from the independent reading of document 01 in
// tests/sheets.py.
#![tactic(auto)]

use std::io;

fn main(rt: HostRuntime) -> io::Result<()> {
    sheet_run::run(&mut rt.stdin(), &mut rt.stdout())
}
