// Document 01's b4, b7 and b8 and its table of refusals, for report: the records of stdin, and what
// they must print, stdout. tests/report_cases.py makes both, from what document 01 prints or what
// follows from its sentences; the sums of 64 trains are those of tests/reports.py.
#![tactic(auto)]

use std::io;

fn main(rt: HostRuntime) -> io::Result<()> {
    plan_run::run(&mut rt.stdin(), &mut rt.stdout())
}
