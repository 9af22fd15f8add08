//! The frames of a script, cut from the file's own body, and its calls.

ghost use Rattle.std.specs.Prelude.{◌≡◌, ◌*◌, ◌≤◌, take, drop, IfOk, None};

use crate::fault::Fault;
use scripts::fault::LineFault;
use scripts::order::{FrameLine, Order, Step};
use std::alloc::Global;
use traces::call::Call;

/// So many blocks of a body from a block on, as far as the body goes.
fn part_of(body: &[u8], n: usize, first: u32, count: u32) -> &[u8]
    requires { n ≤ 16 }
    ensures { result.now ≡ take (n * count) (drop (n * first) body.now) }
{
    let from = body.len().min(n * first as usize);
    let rest = &body[from..];
    let long = rest.len().min(n * count as usize);
    &rest[..long]
}

/// The bytes of a frame: those of the body, but for the bit that is flipped.
fn cut(heap: Global, body: &[u8], n: usize, frame: FrameLine, line: u32) -> Result<Vec<u8>, Fault>
    requires { n ≤ 16 }
    ensures { frame.flip ≡ None → IfOk result (λ v. v.items ≡ take (n * frame.count) (drop (n * frame.first) body.now)) }
{
    let mut bytes = Vec::from_slice(heap, part_of(body, n, frame.first, frame.count))?;
    let Some(flip) = frame.flip else {
        return Ok(bytes);
    };
    let why = LineFault::NoSuchByte;
    let byte = bytes.get_mut(flip.byte as usize);
    *byte.ok_or(Fault::Line { line, why })? ^= 1 << flip.bit;
    Ok(bytes)
}

/// The frames of the steps that have one, in order, cut from a body.
// No list of one entry a step: a long script has few frames, and a fault is told before memory is asked
// for what comes after it.
pub(crate) fn cut_frames(
    heap: Global,
    body: &[u8],
    n: usize,
    steps: &[Step],
) -> Result<Vec<Vec<u8>>, Fault>
    requires { n ≤ 16 }
{
    let mut frames = Vec::new(heap);
    for step in steps {
        if let Some(frame) = step.order.frame() {
            frames.push(cut(heap, body, n, frame, step.line)?)?;
        }
    }
    Ok(frames)
}

/// The call that an order makes, with the bytes of its frame.
fn call_of<'a>(order: Order, bytes: &'a [u8]) -> Option<Call<'a>> {
    match order {
        Order::Frame(frame) | Order::Repeat(frame) => Some(Call::Frame {
            first: frame.first,
            bytes,
        }),
        Order::Lost(_) => None,
        Order::Give { block } => Some(Call::Give { block }),
        Order::Erase { page } => Some(Call::Erase { page }),
        Order::Program { page } => Some(Call::Program { page }),
        Order::Close => Some(Call::Close),
        Order::Reopen => Some(Call::Reopen),
        Order::Verify => Some(Call::Verify),
    }
}

/// The calls of the steps, in order, each with the frame that was cut for it. A lost frame makes none.
pub(crate) fn calls_of<'a>(
    heap: Global,
    steps: &[Step],
    frames: &'a [Vec<u8>],
) -> Result<Vec<Call<'a>>, Fault> {
    let mut frames = frames.iter();
    let mut calls = Vec::new(heap);
    for step in steps {
        let frame = match step.order.frame() {
            Some(_) => frames.next(),
            None => None,
        };
        let bytes = frame.map_or(&[][..], |bytes| bytes.as_slice());
        if let Some(call) = call_of(step.order, bytes) {
            calls.push(call)?;
        }
    }
    Ok(calls)
}
