//! Targets: the pages that a download is programmed into.
//!
//! A target means a `TargetState` (specs/State.antt): its page length and page count, its fill byte,
//! what each page holds, which pages are locked and which are ready, and whether it is rewritable.
//! What the calls answer and do is defined in specs/Calls.antt, and what holds over every sequence of
//! calls in specs/Laws.antt. Code above is written and proved once, against that meaning.
//! `formed` is the law of the interface: each target shows it, and generic code has it of every
//! target.
//!
//! Open results: none.

#![tactic(auto)]

mod building;
mod calls;
mod judging;
pub mod kinds;
pub mod paged;

ghost use Rattle.std.specs.Prelude.{◌≡◌, length};
ghost use Rattle.refusals.specs.Codes.{outcome};
ghost use Rattle.targets.specs.State.{TargetState, WellFormed};
ghost use Rattle.targets.specs.Calls.{erase_answer, erased, program_answer, programmed, read_answer, read_out};
ghost use Rattle.targets.specs.Laws.{ReadsBack, LocksKeep};

use refusals::Refusal;

/// A target. A refused call changes nothing.
pub trait Target {
    ghost state: { Self → TargetState };

    /// Bytes in a page.
    fn page_length(&self) -> u32
        ensures value { result ≡ (state self.now).page_length };

    /// How many pages there are.
    fn page_count(&self) -> u32
        ensures { result ≡ (state self.now).page_count };

    /// The byte of an erased place.
    fn fill(&self) -> u8
        ensures { result ≡ (state self.now).fill };

    /// Fills a page, and makes it ready.
    fn erase(&mut self, page: u32) -> Result<(), Refusal>
        ensures answer { outcome result ≡ erase_answer (state self.old) page }
        ensures after { state self.new ≡ erased (state self.old) page }
        ensures locks { LocksKeep (state self.old) };

    /// Puts bytes into a page that is ready. It stays ready if the target is rewritable.
    fn program(&mut self, page: u32, bytes: &[u8]) -> Result<(), Refusal>
        ensures answer { outcome result ≡ program_answer (state self.old) page (length bytes.now) }
        ensures after { state self.new ≡ programmed (state self.old) page bytes.now }
        ensures kept { ReadsBack (state self.old) page bytes.now };

    /// Copies a page into `out`.
    fn read(&self, page: u32, out: &mut [u8]) -> Result<(), Refusal>
        ensures answer { outcome result ≡ read_answer (state self.now) page (length out.old) }
        ensures out { out.new ≡ read_out (state self.now) page out.old };

    // The law of the interface.
    ghost formed: { (t : Self) → WellFormed (state t) };
}
