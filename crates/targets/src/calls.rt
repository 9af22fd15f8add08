//! The calls on a target over lent memory, of either kind.

ghost use Rattle.std.specs.Prelude.{◌≡◌, ◌+◌, ◌*◌, ◌<◌};
ghost use Rattle.targets.specs.Paged.{state_of};
ghost use Rattle.targets.specs.law.Formed.{formed};

use crate::Target;
use crate::kinds::Kind;
use crate::paged::Paged;
use refusals::Refusal;
use std::ops::Range;

impl<K: Kind> Paged<'_, K> {
    /// Where a page lies in the memory.
    fn place(&self, page: u32) -> Range<usize>
        requires { page < self.now.page_count }
        ensures start { result.start ≡ page * self.now.page_length }
        ensures end { result.end ≡ page * self.now.page_length + self.now.page_length }
    {
        let size = self.page_length as usize;
        let start = page as usize * size;
        start..start + size
    }
}

impl<K: Kind> Target for Paged<'_, K> {
    ghost state = { state_of K.REWRITABLE };

    ghost formed = { λ t. formed K.REWRITABLE t.page_length t.page_count t.fill t.memory.now t.locked t.ready t.sized t.counted t.exact t.filled t.held t.lock_marks t.ready_marks };

    fn page_length(&self) -> u32 {
        self.page_length
    }

    fn page_count(&self) -> u32 {
        self.page_count
    }

    fn fill(&self) -> u8 {
        self.fill
    }

    fn erase(&mut self, page: u32) -> Result<(), Refusal> {
        self.may_erase(page)?;
        let place = self.place(page);
        let fill = self.fill;
        self.memory[place].fill(fill);
        self.ready[page as usize] = true;
        Ok(())
    }

    fn program(&mut self, page: u32, bytes: &[u8]) -> Result<(), Refusal> {
        self.may_program(page, bytes.len())?;
        let place = self.place(page);
        self.memory[place].copy_from_slice(bytes);
        self.ready[page as usize] = K::REWRITABLE;
        Ok(())
    }

    fn read(&self, page: u32, out: &mut [u8]) -> Result<(), Refusal> {
        self.may_read(page, out.len())?;
        out.copy_from_slice(&self.memory[self.place(page)]);
        Ok(())
    }
}
