// Sets the line against the lab: a day's capture of each, heard by one receiver each, batch by batch.
#![tactic(auto)]

use anyhow::{Context, anyhow};
use day::batches::{Rows, last_reading};
use day::entry::{Entry, Lost, Site};
use day::layers::{Layers, hear_through};
use ft2::format::Ft2;
use ft12::format::Ft12;
use lines::character_record::CharacterRecord;
use lines::mark_record::MarkRecord;
use std::env::Args;
use std::{env, fs};

// The next word of the command line.
fn word(args: &mut Args) -> anyhow::Result<String> {
    args.next()
        .context("viscosity LINE-FILE LINE-LAYERS LAB-FILE LAB-LAYERS")
}

// The octets of a capture, and the layers that it is heard through.
#[derive(Drop)]
struct Capture {
    octets: Vec<u8>,
    layers: Layers,
}

impl Capture {
    // The capture that the next two words of the command line name.
    fn read(rt: &HostRuntime, args: &mut Args) -> anyhow::Result<Capture> {
        let file = word(args)?;
        let layers = word(args)?;
        let layers = layers
            .as_str()
            .parse::<Layers>()
            .map_err(|why| anyhow!("{layers} is {why}"))?;
        let octets = fs::read(rt, file.as_str()).map_err(|why| anyhow!("{file}: {why}"))?;
        Ok(Capture { octets, layers })
    }
}

// The capture of the line: FT1.2 characters, with seven octets in a fixed frame.
fn hear_line(rt: &HostRuntime, capture: &Capture) -> anyhow::Result<Vec<Entry>> {
    let format = Ft12::new(7).context("the settings are refused")?;
    let record = CharacterRecord::new(capture.octets.as_slice()).context(
        "the line's capture has an odd number of octets",
    )?;
    Ok(hear_through(rt.alloc(), Site::Line, format, capture.layers, record)?)
}

// The capture of the lab: FT2 marks, with seven octets in a fixed frame.
fn hear_lab(rt: &HostRuntime, capture: &Capture) -> anyhow::Result<Vec<Entry>> {
    let format = Ft2::new(7, 1).context("the settings are refused")?;
    let record = MarkRecord::new(capture.octets.as_slice());
    Ok(hear_through(rt.alloc(), Site::Lab, format, capture.layers, record)?)
}

fn print_batches(rt: &HostRuntime, line: &[Entry], lab: &[Entry]) -> anyhow::Result<()> {
    for row in Rows::new(line, lab) {
        println!(rt; "{row}")?;
    }
    match last_reading(line, None) {
        Some(reading) => println!(rt; "last line reading: batch {}, {reading}", reading.batch())?,
        None => println!(rt; "no line reading")?,
    }
    Ok(())
}

// The frames of a site that show no reading, to be polled for anew.
fn print_lost(rt: &HostRuntime, site: Site, entries: &[Entry]) -> anyhow::Result<()> {
    let damaged = entries
        .iter()
        .filter(|entry| matches!(entry, Err(Lost::Damaged(_))))
        .count();
    println!(rt; "{site}: {damaged} damaged, to be polled for anew")?;
    for lost in entries.iter().filter_map(|entry| entry.err()) {
        println!(rt; "  {lost}")?;
    }
    Ok(())
}

fn run(rt: &HostRuntime) -> anyhow::Result<()> {
    let mut args = env::args(rt)?;
    // the program's own name
    let _ = args.next();
    let line = Capture::read(rt, &mut args)?;
    let lab = Capture::read(rt, &mut args)?;
    let line = hear_line(rt, &line)?;
    let lab = hear_lab(rt, &lab)?;
    print_batches(rt, line.as_slice(), lab.as_slice())?;
    print_lost(rt, Site::Line, line.as_slice())?;
    print_lost(rt, Site::Lab, lab.as_slice())
}

// What went wrong is told in quotes. It stands in each program: no crate is there for programs alone.
fn main(rt: HostRuntime) -> anyhow::Result<()> {
    run(&rt).map_err(|why| anyhow!("\"{why}\""))
}
