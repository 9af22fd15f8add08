//! Reading a script.

use crate::fault::{LineFault, ScriptFault};
use crate::order::{Flip, FrameLine, Order, Script, Step};
use std::alloc::{AllocError, Global};

/// The number that a word writes in decimal digits.
fn number(word: &str) -> Result<u32, LineFault> {
    if word.starts_with('+') {
        return Err(LineFault::Number);
    }
    word.parse().map_err(|_| LineFault::Number)
}

/// The number of the only word there is.
fn only_number(words: &[&str], otherwise: LineFault) -> Result<u32, LineFault> {
    match words {
        [word] => number(word),
        _ => Err(otherwise),
    }
}

/// The image page of the only word there is.
fn image_page(words: &[&str]) -> Result<u16, LineFault> {
    let page = only_number(words, LineFault::Program)?;
    u16::try_from(page).map_err(|_| LineFault::Program)
}

/// A first block and a count of blocks.
fn blocks(first: &str, count: &str) -> Result<FrameLine, LineFault> {
    Ok(FrameLine {
        first: number(first)?,
        count: number(count)?,
        flip: None,
    })
}

/// The bit that two words name.
fn read_flip(byte: &str, bit: &str) -> Result<Flip, LineFault> {
    let byte = number(byte)?;
    match number(bit)? {
        bit @ 0..=7 => Ok(Flip {
            byte,
            bit: bit as u8,
        }),
        _ => Err(LineFault::Bit),
    }
}

/// The words after `frame`.
fn read_frame(words: &[&str]) -> Result<FrameLine, LineFault> {
    match words {
        [first, count] => blocks(first, count),
        [first, count, "flip", byte, bit] => {
            let frame = blocks(first, count)?;
            Ok(FrameLine {
                flip: Some(read_flip(byte, bit)?),
                ..frame
            })
        }
        _ => Err(LineFault::Frame),
    }
}

/// The words after `drop`.
fn read_lost(words: &[&str]) -> Result<FrameLine, LineFault> {
    match words {
        [first, count] => blocks(first, count),
        _ => Err(LineFault::Lost),
    }
}

/// An order of one word.
fn alone(words: &[&str], order: Order) -> Result<Order, LineFault> {
    if words.is_empty() {
        Ok(order)
    } else {
        Err(LineFault::Alone)
    }
}

/// The last frame that was sent or lost.
fn last_frame(steps: &[Step]) -> Result<FrameLine, LineFault> {
    steps
        .iter()
        .rev()
        .find_map(|step| step.order.frame())
        .ok_or(LineFault::NothingToRepeat)
}

/// Reads an order that stands after the steps.
fn read_order(name: &str, words: &[&str], steps: &[Step]) -> Result<Order, LineFault> {
    match name {
        "frame" => Ok(Order::Frame(read_frame(words)?)),
        "drop" => Ok(Order::Lost(read_lost(words)?)),
        "repeat" => alone(words, Order::Repeat(last_frame(steps)?)),
        "give" => Ok(Order::Give {
            block: only_number(words, LineFault::Give)?,
        }),
        "erase" => Ok(Order::Erase {
            page: only_number(words, LineFault::Erase)?,
        }),
        "program" => Ok(Order::Program {
            page: image_page(words)?,
        }),
        "close" => alone(words, Order::Close),
        "reopen" => alone(words, Order::Reopen),
        "verify" => alone(words, Order::Verify),
        "section" => Err(LineFault::LateSection),
        _ => Err(LineFault::UnknownWord),
    }
}

/// The words of a line before its comment.
fn words_of<'a>(heap: Global, line: &'a str) -> Result<Vec<&'a str>, AllocError> {
    let text = line.split_once('#').map_or(line, |(text, _)| text);
    text.split_whitespace().collect(heap)
}

/// Reads a script. The first malformed line is named.
pub fn read_script(heap: Global, text: &str) -> Result<Script, ScriptFault> {
    let mut section = None;
    let mut steps = Vec::new(heap);
    for (line, text) in (1usize..).zip(text.lines()) {
        let line = u32::try_from(line).unwrap_or(u32::MAX);
        let at_line = |why| ScriptFault::Line { line, why };
        let words = words_of(heap, text)?;
        match words.as_slice() {
            [] => {}
            ["section", rest @ ..] if section.is_none() && steps.is_empty() => {
                section = Some(only_number(rest, LineFault::Section).map_err(at_line)?);
            }
            [name, rest @ ..] => {
                let order = read_order(name, rest, steps.as_slice()).map_err(at_line)?;
                steps.push(Step { line, order })?;
            }
        }
    }
    Ok(Script {
        section: section.unwrap_or(1),
        steps,
    })
}
