//! Runs the vectors of `vectors.txt` in its folder, which other implementations and the standards
//! gave, and prints for each group how many agreed.

#![tactic(auto)]

mod ciphers;
mod fault;
mod group;
mod hex;
mod vector;

use ciphers::agrees;
use files::read_or_empty;
use group::{GROUPS, Group};
use std::process::ExitCode;
use vector::{Vector, read_vector};

/// How many vectors of a group there are, and how many agreed.
#[derive(Clone, Copy)]
struct Tally {
    agreed: u32,
    all: u32,
}

/// Reads the vectors of a text, and reports the lines that are malformed; says how many.
fn read_vectors(rt: &HostRuntime, text: &str, vectors: &mut Vec<Vector>) -> anyhow::Result<u32> {
    let mut malformed = 0u32;
    for (number, line) in (1usize..).zip(text.lines()) {
        if line.is_empty() || line.starts_with('#') {
            continue;
        }
        match read_vector(rt.alloc(), line) {
            Ok(vector) => vectors.push(vector)?,
            Err(_) => {
                println!(rt; "line {number} is malformed")?;
                malformed = malformed.saturating_add(1);
            }
        }
    }
    Ok(malformed)
}

/// Runs the vectors of a group. One that cannot be run, for whatever reason, has not agreed.
fn run_group(rt: &HostRuntime, group: Group, vectors: &[Vector]) -> Tally {
    let mut tally = Tally { agreed: 0, all: 0 };
    // Counted here: a closure that allocates, as a run does, is not taken by filter.
    for vector in vectors.iter().filter(|vector| vector.group == group) {
        tally.all = tally.all.saturating_add(1);
        if let Ok(true) = agrees(rt.alloc(), vector) {
            tally.agreed = tally.agreed.saturating_add(1);
        }
    }
    tally
}

fn main(rt: HostRuntime) -> anyhow::Result<ExitCode> {
    let text = String::from_utf8(read_or_empty(&rt, "vectors.txt")?)?;
    let mut vectors = Vec::new(rt.alloc());
    let malformed = read_vectors(&rt, text.as_str(), &mut vectors)?;
    let mut all_agreed = malformed == 0;
    for (name, group) in GROUPS {
        let Tally { agreed, all } = run_group(&rt, group, vectors.as_slice());
        println!(rt; "{name}: {agreed} of {all}")?;
        all_agreed = all_agreed && all > 0 && agreed == all;
    }
    if all_agreed {
        Ok(ExitCode::SUCCESS)
    } else {
        Ok(ExitCode::FAILURE)
    }
}
