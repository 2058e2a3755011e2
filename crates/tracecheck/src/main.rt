// tracecheck: standard input is a trace; standard output is a short account of it.
// The counting is `trace::survey`; here it is only read in and printed.
#![tactic(auto)]

mod account;

use account::Account;
use std::io::Read;
use trace::survey::Survey;

fn run(rt: &HostRuntime) -> anyhow::Result<()> {
    let mut trace = Vec::new(rt.alloc());
    rt.stdin().read_to_end(&mut trace)?;
    let account = Account {
        bytes: trace.len(),
        survey: Survey::of(&trace),
    };
    rt.print(account)?;
    Ok(())
}

fn main(rt: HostRuntime) -> anyhow::Result<()> {
    run(&rt)
}
