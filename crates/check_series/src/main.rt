#![tactic(auto)]

// The program `check`: reads series.wcnf, series.asg and series.prf in the current folder, and prints one line.
mod files;
mod judge;

use files::{ROOM, Unread, load_named};
use instance::Checked;
use judge::judge_series;
use std::io;
use std::rt::Files;

// The judgement on the series, or the first of its files that is unread.
fn answer(rt: &impl Files) -> Result<Checked, Unread> {
    let mut text = [0u8; ROOM];
    let text = load_named(rt, "series.wcnf", &mut text)?;
    let mut bytes = [0u8; ROOM];
    let bytes = load_named(rt, "series.asg", &mut bytes)?;
    let mut proof = [0u8; ROOM];
    let proof = load_named(rt, "series.prf", &mut proof)?;
    Ok(judge_series(text, bytes, proof))
}

fn main(rt: HostRuntime) -> io::Result<()> {
    match answer(&rt) {
        Ok(checked) => println!(rt; "{checked}"),
        Err(unread) => println!(rt; "{unread}"),
    }
}
