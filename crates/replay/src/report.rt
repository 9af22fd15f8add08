//! What is printed of a run.

use crate::fault::Fault;
use crate::marks::{BlockMark, Mark, PageMark};
use crate::meaning::Meaning;
use crate::replaying::{Outcome, Setting};
use crate::said::Told;
use scripts::order::{Order, Step};
use sections::section::Section;
use std::{fmt, io};
use traces::call::Answer;

/// Marks in a row of a map, and in a group of a row.
const ROW: usize = 32;

const GROUP: usize = 8;

/// A mark of a map, what is said of it, and the heading of its places if these are listed.
#[derive(Clone, Copy)]
struct Legend<M> {
    mark: M,
    word: &'static str,
    places: Option<&'static str>,
}

/// Prints the section that is downloaded, and where its image goes.
fn say_section(
    rt: &HostRuntime,
    script: &str,
    number: u32,
    s: &Section,
    outcome: &Outcome,
) -> io::Result<()> {
    let cipher = s.cipher;
    let mode = s.mode;
    let length = s.length;
    let blocks = outcome.blocks.len().saturating_sub(1);
    let pages = outcome.pages.len().saturating_sub(1);
    let first = s.first_page as usize;
    let last = first.saturating_add(pages);
    println!(rt;
        "{script}: section {number}, {cipher} {mode}, L = {length}, blocks 0 to {blocks}, image pages 0 to {pages} on target pages {first} to {last}"
    )
}

/// Prints a line for each step: the line of the script, the order and its answer.
fn say_steps(rt: &HostRuntime, steps: &[Step], answers: &[Answer]) -> io::Result<()> {
    let mut answers = answers.iter().copied();
    for step in steps {
        let Step { line, order } = *step;
        let answer = match order {
            Order::Lost(_) => None,
            _ => answers.next(),
        };
        let told = Told { order, answer };
        println!(rt; "{line} {order}: {told}")?;
    }
    Ok(())
}

/// Prints a map in numbered rows.
fn say_map<M: Mark>(rt: &HostRuntime, marks: &[M]) -> io::Result<()> {
    for (i, row) in marks.chunks(ROW).enumerate() {
        let from = i.saturating_mul(ROW);
        print!(rt; "{from:>5}:")?;
        for group in row.chunks(GROUP) {
            print!(rt; " ")?;
            for mark in group {
                let letter = mark.letter();
                print!(rt; "{letter}")?;
            }
        }
        println!(rt; "")?;
    }
    Ok(())
}

/// Prints the places at which a mark stands in a map; nothing if it stands nowhere.
fn say_places<M: Mark>(
    rt: &HostRuntime,
    heading: &str,
    marks: &[M],
    wanted: M,
) -> anyhow::Result<()> {
    let mut places = Vec::new(rt.alloc());
    for (i, mark) in marks.iter().enumerate() {
        if *mark == wanted {
            places.push(i)?;
        }
    }
    if places.is_empty() {
        return Ok(());
    }
    print!(rt; "{heading}:")?;
    let runs = places.as_slice().chunk_by(|a, b| a.saturating_add(1) == *b);
    for (i, run) in runs.enumerate() {
        match run {
            [first, .., last] if i > 0 => print!(rt; ", {first} to {last}")?,
            [first, .., last] => print!(rt; " {first} to {last}")?,
            [place] if i > 0 => print!(rt; ", {place}")?,
            [place] => print!(rt; " {place}")?,
            [] => {}
        }
    }
    println!(rt; "")?;
    Ok(())
}

/// How often each mark stands in a map.
#[derive(Clone, Copy)]
struct Counts<'a, M> {
    marks: &'a [M],
    legends: &'a [Legend<M>],
}

/// Written as one, so that the line that it stands in is printed as one.
impl<'a, M: Mark> fmt::Display for Counts<'a, M> {
    fn fmt<W: fmt::Write>(&self, f: &mut fmt::Formatter<W>) -> fmt::Result {
        for (i, legend) in self.legends.iter().enumerate() {
            if i > 0 {
                write!(f, ",")?;
            }
            let count = self
                .marks
                .iter()
                .filter(|mark| **mark == legend.mark)
                .count();
            let word = legend.word;
            let letter = legend.mark.letter();
            write!(f, " {count} {word} ({letter})")?;
        }
        Ok(())
    }
}

/// Prints how often each mark stands in a map, the map, and the places that are listed.
fn say_marks<M: Mark>(
    rt: &HostRuntime,
    name: &str,
    marks: &[M],
    legends: &[Legend<M>],
) -> anyhow::Result<()> {
    let counts = Counts { marks, legends };
    println!(rt; "{name}:{counts}")?;
    say_map(rt, marks)?;
    for legend in legends {
        if let Some(heading) = legend.places {
            say_places(rt, heading, marks, legend.mark)?;
        }
    }
    Ok(())
}

/// Prints the map of the blocks.
fn say_blocks(rt: &HostRuntime, marks: &[BlockMark]) -> anyhow::Result<()> {
    let legends = [
        Legend {
            mark: BlockMark::Arrived,
            word: "arrived",
            places: None,
        },
        Legend {
            mark: BlockMark::Altered,
            word: "altered",
            places: Some("altered blocks"),
        },
        Legend {
            mark: BlockMark::Missing,
            word: "missing",
            places: Some("missing blocks"),
        },
    ];
    say_marks(rt, "blocks", marks, &legends)
}

/// Prints the map of the image pages.
fn say_pages(rt: &HostRuntime, marks: &[PageMark]) -> anyhow::Result<()> {
    let legends = [
        Legend {
            mark: PageMark::Good,
            word: "good",
            places: None,
        },
        Legend {
            mark: PageMark::Programmed,
            word: "programmed, not good",
            places: Some("image pages programmed, not good"),
        },
        Legend {
            mark: PageMark::Erased,
            word: "erased",
            places: Some("image pages erased"),
        },
    ];
    say_marks(rt, "image pages", marks, &legends)
}

/// Prints a run.
pub(crate) fn say_run(
    rt: &HostRuntime,
    script: &str,
    setting: &Setting,
    outcome: &Outcome,
) -> anyhow::Result<()> {
    let number = setting.script.section;
    let steps = setting.script.steps.as_slice();
    say_section(rt, script, number, &setting.section, outcome)?;
    say_steps(rt, steps, outcome.answers.as_slice())?;
    let state = if outcome.closed {
        "closed"
    } else {
        "receiving"
    };
    println!(rt; "at the end: {state}")?;
    say_blocks(rt, outcome.blocks.as_slice())?;
    say_pages(rt, outcome.pages.as_slice())
}

/// Prints why a script is not run.
pub(crate) fn say_fault(rt: &HostRuntime, script: &str, fault: &Fault) -> io::Result<()> {
    match fault {
        Fault::Unread { file, why } => {
            let file = file.name(script);
            println!(rt; "{file} cannot be read: {why}")
        }
        Fault::NoText => println!(rt; "{script} is not a text in UTF-8"),
        Fault::Line { line, why } => println!(rt; "{script} line {line}: {why}"),
        Fault::Refused { file, refusal } => {
            let file = file.name(script);
            let meaning = Meaning { refusal: *refusal };
            println!(rt; "{file}: {refusal}, {meaning}")
        }
        Fault::NoSection { refusal } => {
            let number = refusal.place;
            println!(rt; "{script}: {refusal}, image.dlf has no section {number}")
        }
        Fault::Memory => println!(rt; "no memory"),
    }
}
