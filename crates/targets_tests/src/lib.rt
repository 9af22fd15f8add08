//! Tests of targets: what the calls do, every refusal in its order, and the edges of the limits, for
//! both kinds.

#![tactic(auto)]

#[cfg(test)]
mod tests {
    use refusals::Refusal;
    use std::process::Abort;
    use std::test::Fail;
    use targets::Target;
    use targets::kinds::{Flash, FlashKind, Kind, Ram, RamKind};
    use targets::paged::Paged;

    const OPEN: [bool; 1024] = [false; 1024];

    // Sees that a refusal is so, by a target.
    fn is(rt: &impl Abort, why: Refusal, number: u8, place: u32) -> Result<(), Fail> {
        assert_eq!(rt; why.reason.number(), number);
        assert_eq!(rt; why.place, place);
        assert_eq!(rt; why.layer.number(), 4);
        Ok(())
    }

    // Sees that a call was refused so.
    fn refused(
        rt: &impl Abort,
        answer: Result<(), Refusal>,
        number: u8,
        place: u32,
    ) -> Result<(), Fail> {
        match answer {
            Ok(_) => Err(Fail::new("granted")),
            Err(why) => is(rt, why, number, place),
        }
    }

    // Sees that every byte of a page is `byte`; `out` is as long as a page.
    fn holds<T: Target>(
        rt: &impl Abort,
        target: &T,
        page: u32,
        byte: u8,
        out: &mut [u8],
    ) -> Result<(), Fail> {
        target.read(page, out)?;
        for b in out {
            assert_eq!(rt; *b, byte);
        }
        Ok(())
    }

    // Erases a page and programs it twice; `bytes` are all 7.
    fn write<T: Target>(
        rt: &impl Abort,
        target: &mut T,
        page: u32,
        again: bool,
        bytes: &[u8],
        out: &mut [u8],
    ) -> Result<(), Fail> {
        target.erase(page)?;
        holds(rt, target, page, 255, out)?;
        target.program(page, bytes)?;
        holds(rt, target, page, 7, out)?;
        if again {
            target.program(page, bytes)?;
        } else {
            refused(rt, target.program(page, bytes), 15, page)?;
        }
        holds(rt, target, page, 7, out)?;
        target.erase(page)?;
        holds(rt, target, page, 255, out)
    }

    #[test]
    fn flash_is_ready_once_erased(rt: HostRuntime) -> Result<(), Fail> {
        let mut memory = [9; 240];
        let mut flash = Flash::new(&mut memory, 48, 5, 255, &OPEN)?;
        assert_eq!(rt; flash.page_length(), 48);
        assert_eq!(rt; flash.page_count(), 5);
        assert_eq!(rt; flash.fill(), 255);
        let mut out = [0; 48];
        refused(&rt, flash.program(4, &[7; 48]), 15, 4)?;
        holds(&rt, &flash, 4, 9, &mut out)?;
        write(&rt, &mut flash, 4, false, &[7; 48], &mut out)?;
        write(&rt, &mut flash, 0, false, &[7; 48], &mut out)?;
        holds(&rt, &flash, 1, 9, &mut out)?;
        holds(&rt, &flash, 3, 9, &mut out)
    }

    #[test]
    fn ram_is_always_ready(rt: HostRuntime) -> Result<(), Fail> {
        let mut memory = [9; 240];
        let mut ram = Ram::new(&mut memory, 48, 5, 255, &OPEN)?;
        assert_eq!(rt; ram.page_length(), 48);
        assert_eq!(rt; ram.page_count(), 5);
        assert_eq!(rt; ram.fill(), 255);
        let mut out = [0; 48];
        ram.program(4, &[7; 48])?;
        holds(&rt, &ram, 4, 7, &mut out)?;
        write(&rt, &mut ram, 4, true, &[7; 48], &mut out)?;
        write(&rt, &mut ram, 0, true, &[7; 48], &mut out)?;
        holds(&rt, &ram, 1, 9, &mut out)?;
        holds(&rt, &ram, 3, 9, &mut out)
    }

    #[test]
    fn one_page(rt: HostRuntime) -> Result<(), Fail> {
        let mut short = [9; 16];
        let mut out = [0; 16];
        write(
            &rt,
            &mut Flash::new(&mut short, 16, 1, 255, &OPEN)?,
            0,
            false,
            &[7; 16],
            &mut out,
        )?;
        assert_eq!(rt; short[15], 255);
        let mut long = [9; 4096];
        let mut out = [0; 4096];
        write(
            &rt,
            &mut Ram::new(&mut long, 4096, 1, 255, &OPEN)?,
            0,
            true,
            &[7; 4096],
            &mut out,
        )?;
        assert_eq!(rt; long[4095], 255);
        Ok(())
    }

    #[test]
    fn most_pages(rt: HostRuntime) -> Result<(), Fail> {
        let mut memory = [9; 16384];
        let mut flash = Flash::new(&mut memory, 16, 1024, 255, &OPEN)?;
        let mut out = [0; 16];
        write(&rt, &mut flash, 1023, false, &[7; 16], &mut out)?;
        holds(&rt, &flash, 1022, 9, &mut out)?;
        refused(&rt, flash.erase(1024), 13, 1024)?;
        refused(&rt, flash.erase(4294967295), 13, 4294967295)?;
        refused(&rt, flash.program(1024, &[7; 16]), 13, 1024)?;
        refused(&rt, flash.read(1024, &mut out), 13, 1024)
    }

    // The refusals that both kinds share: three pages of 16 bytes, page 1 locked, all of 9.
    fn in_order<T: Target>(rt: &impl Abort, target: &mut T) -> Result<(), Fail> {
        let mut short = [5; 15];
        let mut out = [0; 16];
        refused(rt, target.erase(3), 13, 3)?;
        refused(rt, target.erase(1), 14, 1)?;
        refused(rt, target.program(3, &short), 13, 3)?;
        refused(rt, target.program(1, &short), 9, 0)?;
        refused(rt, target.program(1, &[7; 17]), 9, 0)?;
        refused(rt, target.program(1, &[7; 16]), 14, 1)?;
        refused(rt, target.read(3, &mut short), 13, 3)?;
        refused(rt, target.read(1, &mut short), 9, 0)?;
        for b in short {
            assert_eq!(rt; b, 5);
        }
        holds(rt, target, 0, 9, &mut out)?;
        holds(rt, target, 1, 9, &mut out)?;
        holds(rt, target, 2, 9, &mut out)?;
        target.erase(2)?;
        target.program(2, &[7; 16])?;
        holds(rt, target, 1, 9, &mut out)
    }

    #[test]
    fn refusals_in_order(rt: HostRuntime) -> Result<(), Fail> {
        let mut locked = OPEN;
        locked[1] = true;
        let mut memory = [9; 48];
        let mut flash = Flash::new(&mut memory, 16, 3, 255, &locked)?;
        refused(&rt, flash.program(0, &[7; 16]), 15, 0)?;
        in_order(&rt, &mut flash)?;
        let mut memory = [9; 48];
        in_order(&rt, &mut Ram::new(&mut memory, 16, 3, 255, &locked)?)
    }

    // Sees that no target of the kind is built on the memory.
    fn refuses<K: Kind>(
        rt: &impl Abort,
        memory: &mut [u8],
        page_length: u32,
        page_count: u32,
    ) -> Result<(), Fail> {
        match Paged::<K>::new(memory, page_length, page_count, 255, &OPEN) {
            Ok(_) => Err(Fail::new("built")),
            Err(why) => is(rt, why, 9, 0),
        }
    }

    // Sees that neither kind is built on the memory, and that the memory stays.
    fn unbuilt(
        rt: &impl Abort,
        memory: &mut [u8],
        page_length: u32,
        page_count: u32,
    ) -> Result<(), Fail> {
        refuses::<FlashKind>(rt, memory, page_length, page_count)?;
        refuses::<RamKind>(rt, memory, page_length, page_count)?;
        for b in memory {
            assert_eq!(rt; *b, 9);
        }
        Ok(())
    }

    #[test]
    fn limits(rt: HostRuntime) -> Result<(), Fail> {
        unbuilt(&rt, &mut [9; 0], 0, 1)?;
        unbuilt(&rt, &mut [9; 15], 15, 1)?;
        unbuilt(&rt, &mut [9; 17], 17, 1)?;
        unbuilt(&rt, &mut [9; 4112], 4112, 1)?;
        unbuilt(&rt, &mut [9; 0], 16, 0)?;
        unbuilt(&rt, &mut [9; 16400], 16, 1025)
    }

    #[test]
    fn memory_of_another_length(rt: HostRuntime) -> Result<(), Fail> {
        unbuilt(&rt, &mut [9; 0], 48, 2)?;
        unbuilt(&rt, &mut [9; 95], 48, 2)?;
        unbuilt(&rt, &mut [9; 97], 48, 2)?;
        unbuilt(&rt, &mut [9; 48], 48, 2)
    }
}
