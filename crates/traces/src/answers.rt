//! One call of a trace.

ghost use Rattle.std.specs.Prelude.{◌≡◌, true, false, ◌&&◌, length, if◌then◌else◌};
ghost use Rattle.refusals.specs.Codes.{code_of, outcome, unless};
ghost use Rattle.gost.specs.Keyed.{rows_in, words_in};
ghost use Rattle.sections.specs.Meaning.{meaning_of};
ghost use Rattle.downloads.specs.Frames.{block_of};
ghost use Rattle.downloads.specs.Verdicts.{verify_answer, read_after};
ghost use Rattle.downloads.specs.Received.{body_in, marks_of, copies_of, held_in, held_by, frame_said, close_said, SameLoans};
ghost use Rattle.traces.specs.Traces.{done, not_built, refused, answered, is_refused};
ghost use Rattle.traces.specs.Answers.{verdict_as};
ghost use Rattle.traces.specs.Meaning.{answer_of, section_of, closed_in, stops_at};
ghost use Rattle.traces.specs.Bench.{given_from, body_framed, marks_framed, copies_framed};

use crate::call::{Answer, Phase, Until};
use blocks::BlockCipher;
use downloads::giving::give;
use downloads::received::{Received, ReceivedRef};
use gost::cipher::Gost;
use refusals::Refusal;
use sections::section::Section;
use targets::Target;

impl From<Refusal> for Answer {
    ghost from_gives = { λ e a. answer_of a ≡ refused (code_of e) };

    fn from(refusal: Refusal) -> Answer {
        Answer::Refused { refusal }
    }
}

/// What a call answers that says nothing else.
impl From<Result<(), Refusal>> for Answer {
    ghost from_gives = { λ r a. answer_of a ≡ answered (outcome r) done };

    fn from(said: Result<(), Refusal>) -> Answer {
        match said {
            Ok(()) => Answer::Done,
            Err(refusal) => refusal.into(),
        }
    }
}

impl Answer {
    /// Whether a trace ends at this answer.
    pub(crate) fn halts(&self, until: Until) -> bool
        ensures { result ≡ (stops_at until && is_refused (answer_of self.now)) }
    {
        matches!(until, Until::Refusal) && matches!(self, Answer::Refused { .. })
    }
}

impl Phase {
    /// The section of a download.
    pub(crate) fn section(&self) -> Section
        ensures { meaning_of result ≡ section_of self.now }
    {
        match self {
            Phase::Receiving(state) => state.section(),
            Phase::Closed(state) => state.section(),
        }
    }
}

/// A download after a call, and what the call answered.
#[derive(Drop)]
pub(crate) struct Moved {
    pub(crate) phase: Phase,
    pub(crate) answer: Answer,
}

impl Moved {
    pub(crate) fn new(phase: Phase, answer: Answer) -> Moved
        ensures phase { result.phase ≡ phase }
        ensures answer { result.answer ≡ answer }
    {
        Moved { phase, answer }
    }
}

/// A frame, if the download is receiving.
pub(crate) fn on_frame(
    phase: Phase,
    received: &mut Received<'_, '_>,
    first: u32,
    bytes: &[u8],
) -> Moved
    ensures answer { answer_of result.answer ≡ (if closed_in phase then not_built else answered (frame_said (section_of phase) (held_in received.old) first bytes.now) done) }
    ensures phase { (section_of result.phase ≡ section_of phase) × (closed_in result.phase ≡ closed_in phase) }
    ensures same { SameLoans received.old received.new }
    ensures body { body_in received.new ≡ body_framed (section_of phase) (closed_in phase) received.old first bytes.now }
    ensures arrivals { marks_of received.new ≡ marks_framed (section_of phase) (closed_in phase) received.old first bytes.now }
    ensures copies { copies_of (block_of (section_of phase)) (held_in received.new) ≡ copies_framed (section_of phase) (closed_in phase) received.old first bytes.now }
{
    match phase {
        Phase::Closed(state) => Moved::new(Phase::Closed(state), Answer::NotBuilt),
        Phase::Receiving(state) => {
            match state.take_frame(received, first, bytes) {
                Ok(state) => Moved::new(Phase::Receiving(state), Answer::Done),
                Err(e) => Moved::new(Phase::Receiving(e.state), e.refusal.into()),
            }
        }
    }
}

/// Closing, if the download is receiving.
pub(crate) fn on_close(phase: Phase, received: ReceivedRef<'_, '_>) -> Moved
    ensures answer { answer_of result.answer ≡ (if closed_in phase then not_built else answered (close_said (section_of phase) (held_by received.entry)) done) }
    ensures section { section_of result.phase ≡ section_of phase }
    ensures closed { closed_in result.phase ≡ (if closed_in phase then true else unless (close_said (section_of phase) (held_by received.entry)) false true) }
{
    match phase {
        Phase::Closed(state) => Moved::new(Phase::Closed(state), Answer::NotBuilt),
        Phase::Receiving(state) => match state.close(received) {
            Ok(state) => Moved::new(Phase::Closed(state), Answer::Done),
            Err(e) => Moved::new(Phase::Receiving(e.state), e.refusal.into()),
        },
    }
}

/// Reopening, if the download is closed.
pub(crate) fn on_reopen(phase: Phase) -> Moved
    ensures answer { answer_of result.answer ≡ (if closed_in phase then done else not_built) }
    ensures section { section_of result.phase ≡ section_of phase }
    ensures closed { closed_in result.phase ≡ false }
{
    match phase {
        Phase::Closed(state) => Moved::new(Phase::Receiving(state.reopen()), Answer::Done),
        Phase::Receiving(state) => Moved::new(Phase::Receiving(state), Answer::NotBuilt),
    }
}

/// Verifying, if the download is closed.
pub(crate) fn on_verify<T: Target>(
    phase: Phase,
    target: &T,
    tag: Gost<'_>,
    page: &mut [u8],
) -> Moved
    ensures answer { answer_of result.answer ≡ (if closed_in phase then verdict_as (verify_answer (rows_in tag.entry) (words_in tag.entry) (section_of phase) (T.Target.state target.now) (length page.old)) else not_built) }
    ensures section { section_of result.phase ≡ section_of phase }
    ensures closed { closed_in result.phase ≡ closed_in phase }
    ensures page { page.new ≡ (if closed_in phase then read_after (rows_in tag.entry) (words_in tag.entry) (section_of phase) (T.Target.state target.now) page.old else page.old) }
{
    match phase {
        Phase::Receiving(state) => Moved::new(Phase::Receiving(state), Answer::NotBuilt),
        Phase::Closed(state) => match state.verify(target, tag, page) {
            Ok(verified) => {
                let verdict = verified.verdict;
                Moved::new(Phase::Closed(verified.state), Answer::Verdict { verdict })
            }
            Err(e) => Moved::new(Phase::Closed(e.state), e.refusal.into()),
        },
    }
}

/// Giving a block.
pub(crate) fn on_give<C: BlockCipher>(
    section: &Section,
    cipher: &C,
    received: ReceivedRef<'_, '_>,
    i: u32,
) -> Answer
    ensures { answer_of result ≡ given_from (C.BlockCipher.map cipher.now) (meaning_of section.now) (held_by received.entry) i }
{
    let mut block = [0; 16];
    let n = section.cipher.block_length();
    match give(section, cipher, received, i, &mut block[0..n]) {
        Ok(count) => Answer::Plain { block, count },
        Err(refusal) => refusal.into(),
    }
}
