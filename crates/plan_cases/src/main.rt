// Document 01, "Sums to check by hand" and "By program", for plan: the records of stdin, and what
// they must print, stdout. tests/plan_cases.py makes both, from what document 01 prints and, where
// it prints nothing, from the independent reading in tests/plans.py.
#![tactic(auto)]

use std::io;

fn main(rt: HostRuntime) -> io::Result<()> {
    plan_run::run(&mut rt.stdin(), &mut rt.stdout())
}
