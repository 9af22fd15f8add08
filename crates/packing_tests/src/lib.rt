//! Tests of packing: a good file of both ciphers and the three modes, and each refusal.

#![tactic(auto)]

#[cfg(test)]
mod tests {
    use description::describe;
    use description::parts::Description;
    use gost::cipher::Gost;
    use kuznyechik::cipher::Kuznyechik;
    use modes::block::decipher_block;
    use modes::mode::Sync;
    use packing::fault::Fault;
    use packing::pack;
    use packing::plan::{Plan, Planned, PlannedMode};
    use sections::file::list;
    use sections::kind::CipherKind;
    use sections::section::Section;
    use std::alloc::Global;
    use std::process::Abort;
    use std::test::Fail;

    // Six pages of 16 bytes.
    const SMALL: &[u8] =
        b"kind ram\npage 16\npages 6\nfill 0\nbox 1 9 6 3 2 8 11 1 7 10 4 14 15 12 0 13 5\nbox 2 0 0 0 0 0 0 0 0 0 0 0 0 0 0 0 0\nbox 3 1 1 1 1 1 1 1 1 1 1 1 1 1 1 1 1\nbox 4 0 1 2 3 4 5 6 7 8 9 10 11 12 13 14 15\nbox 5 0 1 2 3 4 5 6 7 8 9 10 11 12 13 14 15\nbox 6 0 1 2 3 4 5 6 7 8 9 10 11 12 13 14 15\nbox 7 0 1 2 3 4 5 6 7 8 9 10 11 12 13 14 15\nbox 8 0 1 2 3 4 5 6 7 8 9 10 11 12 13 14 15\n";

    // 64 pages of 1,024 bytes.
    const LARGE: &[u8] =
        b"kind flash\npage 1024\npages 64\nfill 255\nbox 1 9 6 3 2 8 11 1 7 10 4 14 15 12 0 13 5\nbox 2 0 0 0 0 0 0 0 0 0 0 0 0 0 0 0 0\nbox 3 1 1 1 1 1 1 1 1 1 1 1 1 1 1 1 1\nbox 4 0 1 2 3 4 5 6 7 8 9 10 11 12 13 14 15\nbox 5 0 1 2 3 4 5 6 7 8 9 10 11 12 13 14 15\nbox 6 0 1 2 3 4 5 6 7 8 9 10 11 12 13 14 15\nbox 7 0 1 2 3 4 5 6 7 8 9 10 11 12 13 14 15\nbox 8 0 1 2 3 4 5 6 7 8 9 10 11 12 13 14 15\n";

    const KEYS: [u8; 64] = [5; 64];

    const FIRST: Plan = Plan {
        cipher: CipherKind::Gost,
        mode: PlannedMode::Codebook,
        bits: 1,
        first_page: 1,
    };

    const EIGHT: Sync = Sync {
        first: 0x0807060504030201,
        second: 0,
    };

    const SIXTEEN: Sync = Sync {
        first: 1,
        second: 2,
    };

    fn target(text: &[u8]) -> Result<Description, Fail> {
        describe(text).map_err(|_| Fail::new("no target"))
    }

    fn plan(cipher: CipherKind, mode: PlannedMode, bits: u8, first_page: u16) -> Plan {
        Plan {
            cipher,
            mode,
            bits,
            first_page,
        }
    }

    // A plan with an image of so many sevens.
    fn sevens(heap: Global, plan: Plan, size: usize) -> Result<Planned, Fail> {
        let image = vec![in heap; 7u8; size]?;
        Ok(Planned { plan, image })
    }

    fn refusal(
        rt: &impl Abort,
        res: Result<Vec<u8>, Fault>,
        number: u8,
        place: u32,
    ) -> Result<(), Fail> {
        match res {
            Err(Fault::Refused(why)) => {
                assert_eq!(rt; why.reason.number(), number);
                assert_eq!(rt; why.place, place);
                assert_eq!(rt; why.layer.number(), 2);
                Ok(())
            }
            _ => Err(Fail::new("not refused")),
        }
    }

    // What a section is refused with on the small target, after a good one on pages 1 and 2.
    fn second(
        rt: &impl Abort,
        heap: Global,
        plan: Plan,
        size: usize,
        number: u8,
    ) -> Result<(), Fail> {
        let mut planned = Vec::new(heap);
        planned.push(sevens(heap, FIRST, 24)?)?;
        planned.push(sevens(heap, plan, size)?)?;
        let small = target(SMALL)?;
        refusal(rt, pack(heap, &small, &KEYS, planned.as_slice()), number, 2)
    }

    fn listed(file: &[u8], number: u32) -> Result<Section, Fail> {
        let listing = list(file, 16, 6).map_err(|_| Fail::new("not listed"))?;
        listing.section(number).map_err(|_| Fail::new("no section"))
    }

    #[test]
    fn listed_back(rt: HostRuntime) -> Result<(), Fail> {
        let heap = rt.alloc();
        let mut planned = Vec::new(heap);
        let a = plan(CipherKind::Gost, PlannedMode::Feedback(EIGHT), 32, 5);
        let b = plan(CipherKind::Kuznyechik, PlannedMode::Feedback(SIXTEEN), 1, 3);
        let c = plan(CipherKind::Gost, PlannedMode::Counter(EIGHT), 31, 2);
        let d = plan(CipherKind::Kuznyechik, PlannedMode::Codebook, 7, 0);
        planned.push(sevens(heap, a, 9)?)?;
        planned.push(sevens(heap, b, 17)?)?;
        planned.push(sevens(heap, c, 16)?)?;
        planned.push(sevens(heap, d, 32)?)?;
        let small = target(SMALL)?;
        let Ok(file) = pack(heap, &small, &KEYS, planned.as_slice()) else {
            return Err(Fail::new("refused"));
        };
        assert_eq!(rt; file.len(), 4 + 4 * 32 + 9 + 17 + 16 + 32);
        let first = listed(file.as_slice(), 1)?;
        assert_eq!(rt; first.bits, 32);
        assert_eq!(rt; first.first_page, 5);
        assert_eq!(rt; first.offset, 132);
        let last = listed(file.as_slice(), 4)?;
        assert_eq!(rt; last.length, 32);
        assert_eq!(rt; last.offset, 174);
        assert!(rt; last.tag < 128);
        Ok(())
    }

    #[test]
    fn opened_again(rt: HostRuntime) -> Result<(), Fail> {
        let heap = rt.alloc();
        let mut planned = Vec::new(heap);
        let a = plan(CipherKind::Gost, PlannedMode::Counter(EIGHT), 16, 0);
        let b = plan(
            CipherKind::Kuznyechik,
            PlannedMode::Feedback(SIXTEEN),
            16,
            1,
        );
        planned.push(sevens(heap, a, 9)?)?;
        planned.push(sevens(heap, b, 18)?)?;
        let small = target(SMALL)?;
        let Ok(file) = pack(heap, &small, &KEYS, planned.as_slice()) else {
            return Err(Fail::new("refused"));
        };
        let bytes = file.as_slice();
        assert!(rt; bytes.len() == 4 + 64 + 27);
        let words = [0x05050505; 8];
        let cipher = Gost::new(&small.table, &words);
        let mut block = [0; 8];
        let first = listed(bytes, 1)?;
        let got = decipher_block(
            &cipher,
            first.mode,
            first.sync,
            &bytes[68..77],
            1,
            &mut block,
        );
        assert_eq!(rt; got.is_ok(), true);
        assert_eq!(rt; block[0], 7);
        let mut keys = [[0; 16]; 10];
        assert_eq!(rt;
            kuznyechik::key::spread_key(&KEYS[..32], &mut keys).is_ok(),
            true
        );
        let cipher = Kuznyechik::new(&keys);
        let mut block = [0; 16];
        let last = listed(bytes, 2)?;
        let got = decipher_block(&cipher, last.mode, last.sync, &bytes[77..], 0, &mut block);
        assert_eq!(rt; got.is_ok(), true);
        assert_eq!(rt; block, [7; 16]);
        Ok(())
    }

    #[test]
    fn keys_and_counts(rt: HostRuntime) -> Result<(), Fail> {
        let heap = rt.alloc();
        let small = target(SMALL)?;
        let mut planned = Vec::new(heap);
        refusal(
            &rt,
            pack(heap, &small, &KEYS[..63], planned.as_slice()),
            9,
            0,
        )?;
        refusal(&rt, pack(heap, &small, &KEYS, planned.as_slice()), 5, 0)?;
        for page in 0..8u16 {
            let good = plan(CipherKind::Gost, PlannedMode::Counter(EIGHT), 8, page);
            planned.push(sevens(heap, good, 9)?)?;
        }
        let Ok(file) = pack(heap, &target(LARGE)?, &KEYS, planned.as_slice()) else {
            return Err(Fail::new("eight sections"));
        };
        assert_eq!(rt; file.len(), 4 + 8 * 32 + 8 * 9);
        let ninth = plan(CipherKind::Gost, PlannedMode::Counter(EIGHT), 8, 0);
        planned.push(sevens(heap, ninth, 9)?)?;
        // nine sections
        refusal(&rt, pack(heap, &small, &KEYS, planned.as_slice()), 5, 0)
    }

    #[test]
    fn sections(rt: HostRuntime) -> Result<(), Fail> {
        let code = PlannedMode::Codebook;
        let eight = PlannedMode::Feedback(EIGHT);
        let plans = [
            (plan(CipherKind::Gost, code, 0, 4), 16, 5),
            (plan(CipherKind::Gost, code, 33, 4), 16, 5),
            (
                plan(CipherKind::Gost, PlannedMode::Counter(SIXTEEN), 8, 4),
                16,
                5,
            ),
            (
                plan(CipherKind::Kuznyechik, PlannedMode::Counter(SIXTEEN), 8, 4),
                16,
                5,
            ),
            // Fields come before lengths, and lengths before pages.
            (plan(CipherKind::Gost, eight, 33, 4), 8, 5),
            (plan(CipherKind::Gost, eight, 33, 4), 20000, 5),
            (plan(CipherKind::Gost, eight, 8, 2), 8, 6),
            (plan(CipherKind::Gost, eight, 8, 4), 16385, 6),
            (plan(CipherKind::Gost, eight, 8, 4), 20000, 6),
            (plan(CipherKind::Kuznyechik, code, 8, 4), 24, 6),
            (plan(CipherKind::Gost, eight, 8, 5), 17, 7),
            (plan(CipherKind::Gost, eight, 8, 2), 9, 7),
            (plan(CipherKind::Gost, eight, 8, 65535), 9, 7),
        ];
        for (plan, size, number) in plans {
            second(&rt, rt.alloc(), plan, size, number)?;
        }
        Ok(())
    }

    #[test]
    fn sizes(rt: HostRuntime) -> Result<(), Fail> {
        let heap = rt.alloc();
        let large = target(LARGE)?;
        let mut planned = Vec::new(heap);
        for page in [0u16, 16, 32, 48] {
            let good = plan(CipherKind::Gost, PlannedMode::Feedback(EIGHT), 8, page);
            planned.push(sevens(heap, good, 16384)?)?;
        }
        refusal(&rt, pack(heap, &large, &KEYS, planned.as_slice()), 4, 0)
    }
}
