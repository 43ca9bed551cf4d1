// Reads a message tape from standard input and prints what stands on it, a line a message.
#![tactic(auto)]

mod dump;
mod text;

use dump::dump_tape;
use std::io::{Read, Write};
use terms::limits::TAPE_MAX;

fn main(rt: HostRuntime) -> anyhow::Result<()> {
    let mut tape = Vec::new(rt.alloc());
    rt.stdin().take(TAPE_MAX as u64 + 1).read_to_end(&mut tape)?;
    let text = dump_tape(rt.alloc(), tape.as_slice())?;
    // in one write, where the system takes it whole: `print` would make one of every 1,024 bytes
    rt.stdout().write_all(text.as_bytes())?;
    Ok(())
}
