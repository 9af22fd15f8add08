//! Whether a call on a page is refused.

ghost use Rattle.std.specs.Prelude.{◌≡◌, Ok};
ghost use Rattle.refusals.specs.Codes.{outcome, code_of, refuse};
ghost use Rattle.refusals.specs.declared.Layer.TheVariants.{Target as TargetLayer};
ghost use Rattle.targets.specs.Calls.{refused_if, erase_answer, program_answer, read_answer};
ghost use Rattle.targets.specs.Paged.{state_of};

use crate::kinds::Kind;
use crate::paged::Paged;
use refusals::{Layer, Reason, Refusal};

/// A refusal by a target.
pub(crate) fn refusal(reason: Reason, place: u32) -> Refusal
    ensures { code_of result ≡ refuse reason place TargetLayer }
{
    Refusal::new(reason, place, Layer::Target)
}

/// A refusal by a target, if so.
fn refuse_if(so: bool, reason: Reason, place: u32) -> Result<(), Refusal>
    ensures { outcome result ≡ refused_if so reason place (Ok tt) }
{
    if so {
        return Err(refusal(reason, place));
    }
    Ok(())
}

impl<K: Kind> Paged<'_, K> {
    /// Whether the page may be erased.
    pub(crate) fn may_erase(&self, page: u32) -> Result<(), Refusal>
        ensures { outcome result ≡ erase_answer (state_of K.REWRITABLE self.now) page }
    {
        refuse_if(page >= self.page_count, Reason::NoSuchPage, page)?;
        refuse_if(self.locked[page as usize], Reason::LockedPage, page)
    }

    /// Whether the page may be read into a buffer of that length.
    pub(crate) fn may_read(&self, page: u32, length: usize) -> Result<(), Refusal>
        ensures { outcome result ≡ read_answer (state_of K.REWRITABLE self.now) page length }
    {
        refuse_if(page >= self.page_count, Reason::NoSuchPage, page)?;
        refuse_if(length != self.page_length as usize, Reason::WrongBuffer, 0)
    }

    /// Whether the page may be programmed with that many bytes.
    pub(crate) fn may_program(&self, page: u32, length: usize) -> Result<(), Refusal>
        ensures { outcome result ≡ program_answer (state_of K.REWRITABLE self.now) page length }
    {
        self.may_read(page, length)?;
        let place = page as usize;
        refuse_if(self.locked[place], Reason::LockedPage, page)?;
        refuse_if(!self.ready[place], Reason::NotReady, page)
    }
}
