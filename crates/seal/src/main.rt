//! Makes a download file: reads `target.tdf`, `keys.bin`, `sections.txt` and the images that it names
//! in its folder, writes `image.dlf`, and prints its sections as they are listed again.
//!
//! The file is what `packing::pack` is proved to make. How the list is read, and what is printed, is
//! tested and not proved.

#![tactic(auto)]

mod fault;
mod line;
mod said;

use anyhow::anyhow;
use description::describe;
use description::parts::Description;
use fault::Fault;
use files::read_or_empty;
use line::read_words;
use packing::fault::Fault as PackFault;
use packing::pack;
use packing::plan::Planned;
use sections::file::list;
use sections::section::Section;
use std::process::ExitCode;
use std::{fs, io};

/// Where the file is written until it is listed again.
const NEW: &str = "image.dlf.new";

/// Whether a line of the list is a section's: it has words, and is no comment.
fn is_section(line: &str) -> bool {
    !line.trim().is_empty() && !line.starts_with('#')
}

/// The line of the list that a section of the file has, both numbered from 1.
fn line_of(list: &str, section: u32) -> Option<usize> {
    let before = section.checked_sub(1)? as usize;
    let (i, _) = list
        .lines()
        .enumerate()
        .filter(|(_, line)| is_section(line))
        .nth(before)?;
    Some(i + 1)
}

/// Reads a line of the list and its image.
fn read_section<'a>(rt: &HostRuntime, line: &'a str, number: usize) -> Result<Planned, Fault<'a>> {
    let words: Vec<&str> = line.split_whitespace().collect(rt.alloc())?;
    let line = read_words(words.as_slice()).map_err(|why| Fault::Line { number, why })?;
    match fs::read(rt, line.name) {
        Ok(image) => Ok(Planned {
            plan: line.plan,
            image,
        }),
        Err(why) => Err(Fault::Image {
            number,
            name: line.name,
            why,
        }),
    }
}

/// Reads the list of sections.
fn read_sections<'a>(rt: &HostRuntime, list: &'a str) -> Result<Vec<Planned>, Fault<'a>> {
    let mut sections = Vec::new(rt.alloc());
    for (i, line) in list.lines().enumerate() {
        if is_section(line) {
            sections.push(read_section(rt, line, i + 1)?)?;
        }
    }
    Ok(sections)
}

/// Prints a section: its tag in as many digits of hex as its bits fill.
fn say_section(rt: &HostRuntime, number: usize, page_length: u32, s: &Section) -> io::Result<()> {
    let cipher = s.cipher;
    let mode = s.mode;
    let bits = s.bits;
    let length = s.length;
    let first = s.first_page;
    let pages = length.div_ceil(page_length.max(1));
    let last = first.saturating_add(pages).saturating_sub(1);
    let tag = s.tag;
    let digits = usize::from(bits.div_ceil(4));
    println!(rt;
        "section {number}: {cipher} {mode}, L = {length}, pages {first} to {last}, l = {bits}, tag {tag:0digits$x}"
    )
}

/// Writes the file, lists what was written, prints its sections, and puts it in its place.
fn write_file<'a>(rt: &HostRuntime, target: &Description, file: &[u8]) -> Result<(), Fault<'a>> {
    fs::write(rt, NEW, file)?;
    let back = fs::read(rt, NEW)?;
    if back.as_slice() != file {
        return Err(Fault::Failed(anyhow!("image.dlf.new does not read back as it was written")));
    }
    let listing = list(back.as_slice(), target.page_length, target.page_count)?;
    for (i, section) in listing.sections().iter().enumerate() {
        say_section(rt, i + 1, target.page_length, section)?;
    }
    fs::rename(rt, NEW, "image.dlf")?;
    let count = listing.count();
    let size = back.len();
    let word = if count == 1 { "section" } else { "sections" };
    println!(rt; "image.dlf: {count} {word}, {size} bytes, listed again")?;
    Ok(())
}

/// What the folder holds beside the images.
#[derive(Drop)]
struct Inputs {
    target: Description,
    keys: Vec<u8>,
    list: String,
}

/// Reads the folder, but for the images.
fn read_inputs<'a>(rt: &HostRuntime) -> Result<Inputs, Fault<'a>> {
    let target = describe(read_or_empty(rt, "target.tdf")?.as_slice())?;
    let keys = read_or_empty(rt, "keys.bin")?;
    let list = String::from_utf8(read_or_empty(rt, "sections.txt")?).map_err(|_| Fault::NoText)?;
    Ok(Inputs { target, keys, list })
}

/// Makes the file.
fn make<'a>(rt: &HostRuntime, inputs: &'a Inputs) -> Result<(), Fault<'a>> {
    let Inputs { target, keys, list } = inputs;
    let sections = read_sections(rt, list.as_str())?;
    match pack(rt.alloc(), target, keys.as_slice(), sections.as_slice()) {
        Ok(file) => write_file(rt, target, file.as_slice()),
        Err(PackFault::Refused(refusal)) => Err(Fault::Refused {
            refusal,
            line: line_of(list.as_str(), refusal.place),
        }),
        Err(PackFault::Memory) => Err(Fault::Failed(anyhow!("no memory"))),
    }
}

/// Says why no file is made.
fn say_fault(rt: &HostRuntime, fault: Fault<'_>) -> anyhow::Result<ExitCode> {
    match fault {
        Fault::Failed(why) => return Err(why),
        Fault::Refused { refusal, .. } => println!(rt; "{refusal}")?,
        _ => {}
    }
    println!(rt; "{fault}")?;
    Ok(ExitCode::FAILURE)
}

fn main(rt: HostRuntime) -> anyhow::Result<ExitCode> {
    let inputs = match read_inputs(&rt) {
        Ok(inputs) => inputs,
        Err(fault) => return say_fault(&rt, fault),
    };
    match make(&rt, &inputs) {
        Ok(()) => Ok(ExitCode::SUCCESS),
        Err(fault) => say_fault(&rt, fault),
    }
}
