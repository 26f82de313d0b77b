// The lab terminal: keyed bath results on standard input, one a line, become FT2 marks on standard output.
#![tactic(auto)]

use anyhow::{Context, anyhow};
use ft2::format::Ft2;
use readings::keyed::keyed;
use send::Sender;
use std::io::Write;

mod send;

fn run(rt: &HostRuntime) -> anyhow::Result<()> {
    let heap = rt.alloc();
    let format = Ft2::new(7, 1).context("the settings are refused")?;
    let mut sender = Sender::new(heap, format);
    for (number, line) in (1u64..).zip(rt.lines(heap)) {
        match keyed(line?.as_str()) {
            Ok(reading) => {
                sender.put_gap()?;
                sender.put_frame(reading)?;
            }
            Err(miskeyed) => eprintln!(rt; "line {number} is not sent: {miskeyed}")?,
        }
    }
    sender.put_gap()?;
    rt.stdout().write_all(sender.marks())?;
    Ok(())
}

// What went wrong is told in quotes. It stands in each program: no crate is there for programs alone.
fn main(rt: HostRuntime) -> anyhow::Result<()> {
    run(&rt).map_err(|why| anyhow!("\"{why}\""))
}
