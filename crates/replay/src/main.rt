//! Replays a download: reads `target.tdf`, `keys.bin`, `image.dlf` and the script `trace.txt` in its
//! folder, makes the calls that the script asks for, and prints each answer and how the blocks and the
//! pages stand at the end. Arguments name other scripts, which are run in turn, each on a target of
//! its own.
//!
//! Every call is made by `traces::run::run`, whose contract says what each call answers and does. How
//! a script is read, and what is printed, is tested and not proved.

#![tactic(auto)]

mod fault;
mod frames;
mod marks;
mod meaning;
mod replaying;
mod report;
mod said;

use description::describe;
use fault::{Fault, Source};
use keys::SpreadKeys;
use replaying::{Outcome, Setting, replay};
use report::{say_fault, say_run};
use scripts::reading::read_script;
use sections::file::list;
use std::process::ExitCode;
use std::{env, fs, io};

/// Why the scripts were not all run.
#[derive(Drop)]
enum Stop {
    /// One is not run, and the reason is printed.
    Fault,
    /// Something cannot be printed, or the arguments cannot be read.
    Runtime { why: anyhow::Error },
}

impl From<io::Error> for Stop {
    fn from(why: io::Error) -> Stop {
        Stop::Runtime { why: why.into() }
    }
}

impl From<anyhow::Error> for Stop {
    fn from(why: anyhow::Error) -> Stop {
        Stop::Runtime { why }
    }
}

/// The bytes of a file.
fn read(rt: &HostRuntime, script: &str, file: Source) -> Result<Vec<u8>, Fault> {
    fs::read(rt, file.name(script)).map_err(|why| Fault::Unread { file, why })
}

/// Reads the folder and a script.
fn read_setting(rt: &HostRuntime, script: &str) -> Result<Setting, Fault> {
    let target = describe(read(rt, script, Source::Target)?.as_slice());
    let target = target.map_err(|refusal| Source::Target.refused(refusal))?;
    let keys = SpreadKeys::spread(read(rt, script, Source::Keys)?.as_slice());
    let keys = keys.map_err(|refusal| Source::Keys.refused(refusal))?;
    let file = read(rt, script, Source::Download)?;
    let listing = list(file.as_slice(), target.page_length, target.page_count);
    let listing = listing.map_err(|refusal| Source::Download.refused(refusal))?;
    let text = String::from_utf8(read(rt, script, Source::Script)?).map_err(|_| Fault::NoText)?;
    let script = read_script(rt.alloc(), text.as_str())?;
    let section = listing.section(script.section);
    let section = section.map_err(|refusal| Fault::NoSection { refusal })?;
    Ok(Setting {
        target,
        keys,
        file,
        listing,
        section,
        script,
    })
}

/// Runs a script.
fn run_script(rt: &HostRuntime, script: &str) -> Result<(Setting, Outcome), Fault> {
    let setting = read_setting(rt, script)?;
    let outcome = replay(rt.alloc(), &setting)?;
    Ok((setting, outcome))
}

/// Runs a script and prints what came of it, or why it is not run.
fn say_script(rt: &HostRuntime, script: &str) -> Result<(), Stop> {
    match run_script(rt, script) {
        Ok((setting, outcome)) => Ok(say_run(rt, script, &setting, &outcome)?),
        Err(fault) => {
            say_fault(rt, script, &fault)?;
            Err(Stop::Fault)
        }
    }
}

/// Runs the scripts that the arguments name, or `trace.txt`, up to the first that is not run.
fn say_scripts(rt: &HostRuntime) -> Result<(), Stop> {
    let mut scripts = env::args(rt)?.skip(1).peekable();
    if scripts.peek().is_none() {
        return say_script(rt, "trace.txt");
    }
    for script in scripts {
        say_script(rt, script.as_str())?;
    }
    Ok(())
}

fn main(rt: HostRuntime) -> anyhow::Result<ExitCode> {
    match say_scripts(&rt) {
        Ok(()) => Ok(ExitCode::SUCCESS),
        Err(Stop::Fault) => Ok(ExitCode::FAILURE),
        Err(Stop::Runtime { why }) => Err(why),
    }
}
