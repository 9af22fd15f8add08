//! Answers a support call: reads `target.tdf`, `keys.bin` and `image.bin` in its folder and prints
//! the value that the chip should show, and the wrong reading beside it.

#![tactic(auto)]

use files::read_or_empty;
use std::process::ExitCode;
use support::report_on;

fn main(rt: HostRuntime) -> anyhow::Result<ExitCode> {
    let text = read_or_empty(&rt, "target.tdf")?;
    let keys = read_or_empty(&rt, "keys.bin")?;
    let image = read_or_empty(&rt, "image.bin")?;
    match report_on(text.as_slice(), keys.as_slice(), image.as_slice()) {
        Ok(report) => {
            println!(rt; "{report}")?;
            Ok(ExitCode::SUCCESS)
        }
        Err(refusal) => {
            println!(rt; "{refusal}")?;
            Ok(ExitCode::FAILURE)
        }
    }
}
