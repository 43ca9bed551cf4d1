// Puts the same orders through both kinds of queue and prints them in rank order, with the lots at each price.
#![tactic(auto)]

mod demo;
mod levels;
mod report;
mod sample;

use demo::demo_text;

fn main(rt: HostRuntime) -> anyhow::Result<()> {
    let text = demo_text(rt.alloc())?;
    rt.print(text.as_str())?;
    Ok(())
}
