// Long noise through one receiver of each format, with a frame behind a quiet gap at the end of each round.
// Words: how many rounds, and the seed of the noise.
#![tactic(auto)]

use anyhow::{Context, anyhow};
use formats::format::WriteFormat;
use ft2::format::Ft2;
use ft12::format::Ft12;
use listener::Listener;
use noise::Noise;
use plans::{FT2_PLANS, FT12_PLANS, Plan, Sent};
use std::env;
use tally::Tally;

mod listener;
mod noise;
mod plans;
mod tally;

// Marks of noise in a round.
const MARKS: u32 = 50000;

// The most marks that a frame or a gap has here.
const WRITTEN: usize = 4096;

// Appends a quiet gap and the frame. Not shared with bath: the sizes differ, and no crate is there for programs alone.
fn append_frame<F: WriteFormat>(
    format: &F,
    sent: &Sent,
    marks: &mut Vec<u8>,
) -> anyhow::Result<()> {
    let mut buffer = [0; WRITTEN];
    let gap = format.write_gap(&mut buffer).context("no gap")?;
    marks.extend_from_slice(&buffer[..gap])?;
    let count = format
        .write(sent.kind, sent.octets.as_slice(), &mut buffer)
        .context("no frame")?;
    marks.extend_from_slice(&buffer[..count])?;
    Ok(())
}

// So many rounds of noise, each with a frame behind a gap at its end.
fn soak<F: WriteFormat + Copy + Drop>(
    rt: &HostRuntime,
    format: F,
    plans: [Plan; 4],
    rounds: u32,
    seed: u32,
) -> anyhow::Result<Tally>
where
    F::Fault: Drop,
{
    let heap = rt.alloc();
    let mut noise = Noise::new(seed);
    let mut listener = Listener::new(format);
    for plan in plans.iter().cycle().take(rounds as usize) {
        let mut marks = Vec::new(heap);
        noise.fill(&mut marks, MARKS)?;
        let sent = plan.fill(heap, &mut noise)?;
        append_frame(&format, &sent, &mut marks)?;
        listener.hear(marks.as_slice(), &sent);
    }
    Ok(listener.tally)
}

// The number that the next word of the command line writes; the default where there is no word.
fn number_of(words: &mut env::Args, default: u32) -> anyhow::Result<u32> {
    match words.next() {
        Some(text) => Ok(text.as_str().parse()?),
        None => Ok(default),
    }
}

fn run(rt: &HostRuntime) -> anyhow::Result<()> {
    let mut words = env::args(rt)?;
    // the program's own name
    let _ = words.next();
    let rounds = number_of(&mut words, 4)?;
    let seed = number_of(&mut words, 1)?;
    let ft12 = Ft12::new(8).context("no such settings")?;
    let tally = soak(rt, ft12, FT12_PLANS, rounds, seed)?;
    println!(rt; "FT1.2: {tally}")?;
    let ft2 = Ft2::new(20, 3).context("no such settings")?;
    let tally = soak(rt, ft2, FT2_PLANS, rounds, seed)?;
    println!(rt; "FT2: {tally}")?;
    Ok(())
}

// What went wrong is told in quotes. It stands in each program: no crate is there for programs alone.
fn main(rt: HostRuntime) -> anyhow::Result<()> {
    run(&rt).map_err(|why| anyhow!("\"{why}\""))
}
