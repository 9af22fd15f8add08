//! A whole trace.

ghost use Rattle.std.specs.Prelude.{◌≡◌, map, length, take, drop, Ok, Err};
ghost use Rattle.refusals.specs.Codes.{Code, answer};
ghost use Rattle.modes.specs.Calls.{mode_answer};
ghost use Rattle.sections.specs.Entries.{Described};
ghost use Rattle.sections.specs.Meaning.{sections_in};
ghost use Rattle.downloads.specs.Frames.{block_of};
ghost use Rattle.downloads.specs.States.{section_in as download_in};
ghost use Rattle.downloads.specs.Received.{body_in, marks_of};
ghost use Rattle.traces.specs.Traces.{AllOfBytes};
ghost use Rattle.traces.specs.Meaning.{call_of, answer_of, section_of, closed_in, stops_at, section_in};
ghost use Rattle.traces.specs.Runs.{run_answer, Unchanged, made_in, closed_to, Ends};
ghost use Rattle.traces.specs.Bench.{SameBench, Serves, PerformsAllOn, RunsOn, buffers_on};

use crate::call::{Answer, Bench, Call, Phase, Progress, Until};
use crate::perform::perform;
use blocks::BlockCipher;
use downloads::state::Receiving;
use refusals::{Layer, Reason, Refusal};
use sections::listing::Listing;
use targets::Target;

/// Makes the calls in turn and writes down each answer: all of them, or up to the first that is
/// refused.
fn run_calls<C: BlockCipher, T: Target>(
    phase: Phase,
    bench: &mut Bench<'_, '_, '_, '_, '_, C, T>,
    calls: &[Call<'_>],
    answers: &mut [Answer],
    until: Until,
) -> Progress
    requires serves { Serves C.BlockCipher.map (section_of phase) bench.old }
    requires room { length answers.old ≡ length calls.now }
    ensures section { section_of result.phase ≡ section_of phase }
    ensures same { SameBench bench.old bench.new }
    ensures made { Ends (stops_at until) (length calls.now) (map answer_of answers.new) result.made }
    ensures rest { drop result.made answers.new ≡ drop result.made answers.old }
    ensures bytes { AllOfBytes (map call_of (take result.made calls.now)) }
    ensures performs { PerformsAllOn C.BlockCipher.map T.Target.state (section_of phase) (closed_in phase) (closed_in result.phase) bench.old bench.new (map call_of (take result.made calls.now)) (map answer_of (take result.made answers.new)) }
{
    let mut phase = phase;
    for (made, call) in calls.iter().enumerate() {
        let moved = perform(phase, bench, *call);
        phase = moved.phase;
        // By index: after a loop over iter_mut a proof knows no element.
        answers[made] = moved.answer;
        if moved.answer.halts(until) {
            let made = made + 1;
            return Progress { phase, made };
        }
    }
    let made = calls.len();
    Progress { phase, made }
}

/// The section of a download keeps that its mode agrees with it. Nothing is computed.
fn bring_mode(state: &Receiving)
    ensures { mode_answer (block_of (download_in state.now)) (download_in state.now).mode (download_in state.now).sync (download_in state.now).length ≡ Ok tt }
{
    let _section = state.section();
}

/// Opens the section of a number and runs a trace: makes the calls in turn, as far as `until` says,
/// and writes down one answer a call; answers past the calls that were made stay. Refused, with
/// nothing changed: another number of answers than of calls; what opening refuses.
pub fn run<C: BlockCipher, T: Target>(
    listing: &Listing,
    number: u32,
    bench: &mut Bench<'_, '_, '_, '_, '_, C, T>,
    calls: &[Call<'_>],
    answers: &mut [Answer],
    until: Until,
) -> Result<Progress, Refusal>
    ensures answer { answer section_in result ≡ run_answer (length calls.now) (length answers.old) (sections_in listing.now) number (C.BlockCipher.map bench.old.cipher.now).size (length (body_in bench.old.received)) (length (marks_of bench.old.received)) }
    ensures refused { (e : Code) → answer section_in result ≡ Err e → Unchanged (buffers_on bench.old) (buffers_on bench.new) answers.old answers.new (T.Target.state bench.old.target.now) (T.Target.state bench.new.target.now) }
    ensures same { SameBench bench.old bench.new }
    ensures made { (s : Described) → answer section_in result ≡ Ok s → Ends (stops_at until) (length calls.now) (map answer_of answers.new) (made_in result) }
    ensures rest { drop (made_in result) answers.new ≡ drop (made_in result) answers.old }
    ensures runs { (s : Described) → answer section_in result ≡ Ok s → RunsOn C.BlockCipher.map T.Target.state s (closed_to result) bench.old bench.new (map call_of (take (made_in result) calls.now)) (map answer_of (take (made_in result) answers.new)) }
{
    // Two slices: calls are lent to be read, and the answers to be written; a refusal tells their lengths.
    if answers.len() != calls.len() {
        return Err(Refusal::new(Reason::WrongBuffer, 0, Layer::Download));
    }
    let cipher = bench.cipher;
    let state = bench.received.open(listing, number, cipher)?;
    bring_mode(&state);
    let phase = Phase::Receiving(state);
    Ok(run_calls(phase, bench, calls, answers, until))
}
