// Many lines to plan, valid and damaged, long and short: the records of stdin.
// What they must print, stdout, comes from the independent reading of document 01 in
// tests/plans.py.
#![tactic(auto)]

use std::io;

fn main(rt: HostRuntime) -> io::Result<()> {
    plan_run::run(&mut rt.stdin(), &mut rt.stdout())
}
