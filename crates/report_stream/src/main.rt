// Many runs of plans and reports, each on one sheet and one set of cells: the records of stdin.
// What they must print, stdout, comes from the independent reading of document 01 in
// tests/reports.py.
#![tactic(auto)]

use std::io;

fn main(rt: HostRuntime) -> io::Result<()> {
    plan_run::run(&mut rt.stdin(), &mut rt.stdout())
}
