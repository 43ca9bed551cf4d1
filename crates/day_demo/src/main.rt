// A client of the book, proved over the clauses of its calls. The program prints nothing yet.
#![tactic(auto)]

mod client;

fn main(rt: HostRuntime) -> anyhow::Result<()> {
    let _ = rt;
    Ok(())
}
