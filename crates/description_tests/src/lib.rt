//! Tests of the target description: every refusal at its edge.
//!
//! A part of a description that is sound so far is refused only at its end, by the lowest part that is
//! missing. So `refused(text, 3, 1)` says of a text with no `kind` line that every line of it was taken.

#![tactic(auto)]

#[cfg(test)]
mod tests {
    use description::describe;
    use description::parts::TargetKind;
    use std::alloc::Global;
    use std::process::Abort;
    use std::test::Fail;

    const PARTS: &[u8] = b"kind flash\npage 512\npages 32\nfill 255\n";

    const ROW_1: &[u8] = b"box 1 0 1 2 3 4 5 6 7 8 9 10 11 12 13 14 15\n";

    const ROWS_2_TO_8: &[u8] = b"box 2 0 1 2 3 4 5 6 7 8 9 10 11 12 13 14 15
box 3 15 14 13 12 11 10 9 8 7 6 5 4 3 2 1 0
box 4 0 0 0 0 0 0 0 0 0 0 0 0 0 0 0 0
box 5 15 15 15 15 15 15 15 15 15 15 15 15 15 15 15 15
box 6 1 0 3 2 5 4 7 6 9 8 11 10 13 12 15 14
box 7 0 1 2 3 4 5 6 7 8 9 10 11 12 13 14 15
box 8 00000 00001 2 3 4 5 6 7 8 9 10 11 12 13 14 00015
";

    const SIXTEEN_LOCKS: &[u8] =
        b"pages 32\nlock 0\nlock 1\nlock 2\nlock 3\nlock 4\nlock 5\nlock 6\nlock 7\nlock 8\nlock 9\nlock 10\nlock 11\nlock 12\nlock 13\nlock 14\nlock 31\n";

    // Sees that the text is refused so, by the layer of descriptions.
    fn refused(rt: &impl Abort, text: &[u8], number: u8, place: u32) -> Result<(), Fail> {
        match describe(text) {
            Ok(_) => Err(Fail::new("accepted")),
            Err(e) => {
                assert_eq!(rt; e.reason.number(), number);
                assert_eq!(rt; e.place, place);
                assert_eq!(rt; e.layer.number(), 1);
                Ok(())
            }
        }
    }

    // Sees of each text that it is refused so: its number and its place.
    fn all(rt: &impl Abort, cases: &[(&[u8], u8, u32)]) -> Result<(), Fail> {
        for &(text, number, place) in cases {
            refused(rt, text, number, place)?;
        }
        Ok(())
    }

    // The two texts, one after the other.
    fn joined(heap: Global, first: &[u8], second: &[u8]) -> Result<Vec<u8>, Fail> {
        let mut text = Vec::new(heap);
        text.extend_from_slice(first)?;
        text.extend_from_slice(second)?;
        Ok(text)
    }

    // A line of so many spaces.
    fn spaces(heap: Global, count: usize) -> Result<Vec<u8>, Fail> {
        Ok(vec![in heap; b' '; count]?)
    }

    #[test]
    fn words_that_are_not_known(rt: HostRuntime) -> Result<(), Fail> {
        all(
            &rt,
            &[
                (b"size 3", 1, 1),
                (b"Kind flash", 1, 1),
                (b"kinds flash", 1, 1),
                (b"flash", 1, 1),
                (b"ram flash", 1, 1),
                (b"12", 1, 1),
                (b"kind", 1, 1),
                (b"kind rom", 1, 1),
                (b"kind page", 1, 1),
                (b"kind 1", 1, 1),
                (b"kind flash ram", 1, 1),
                (b"kind flash\r\n", 1, 1),
                (b"kind\tflash", 1, 1),
                (b"kind\x00flash", 1, 1),
            ],
        )
    }

    #[test]
    fn numbers_that_are_not_allowed(rt: HostRuntime) -> Result<(), Fail> {
        all(
            &rt,
            &[
                (b"page", 1, 1),
                (b"page sixteen", 1, 1),
                (b"page 16 16", 1, 1),
                (b"page 0", 1, 1),
                (b"page 15", 1, 1),
                (b"page 24", 1, 1),
                (b"page 4112", 1, 1),
                (b"pages 0", 1, 1),
                (b"pages 1025", 1, 1),
                (b"fill 256", 1, 1),
                (b"fill 000255", 1, 1),
                (b"fill -1", 1, 1),
                (b"fill 1.", 1, 1),
                (b"fill 0x1", 1, 1),
            ],
        )
    }

    #[test]
    fn numbers_at_their_edge(rt: HostRuntime) -> Result<(), Fail> {
        all(
            &rt,
            &[
                (b"page 16", 3, 1),
                (b"page 4096", 3, 1),
                (b"page 00016", 3, 1),
                (b"pages 1", 3, 1),
                (b"pages 1024", 3, 1),
                (b"fill 0", 3, 1),
                (b"fill 00255", 3, 1),
            ],
        )
    }

    #[test]
    fn parts_that_are_missing(rt: HostRuntime) -> Result<(), Fail> {
        all(
            &rt,
            &[
                (b"", 3, 1),
                (b"\n\n", 3, 1),
                (b"page 16\npages 1\nfill 0\n", 3, 1),
                (b"kind flash", 3, 2),
                (b"kind ram\n", 3, 2),
                (b"  kind   flash  \n  ", 3, 2),
                (b"pages 1\nfill 0\nkind ram\n", 3, 2),
                (b"kind ram\npage 16\nfill 0", 3, 3),
                (b"kind ram\npage 16\npages 1", 3, 4),
                (b"fill 0\npages 1\npage 16\nkind ram", 3, 5),
            ],
        )
    }

    #[test]
    fn lines_are_counted_with_blank_ones(rt: HostRuntime) -> Result<(), Fail> {
        all(
            &rt,
            &[
                (b"\n\nkind x", 1, 3),
                (b" \nkind flash\n\n  \nkind ram\n", 2, 5),
                (b"kind flash\nkind flash\nsize\n", 2, 2),
                (b"kind flash\nsize\nkind flash\n", 1, 2),
            ],
        )
    }

    #[test]
    fn page_length_times_pages(rt: HostRuntime) -> Result<(), Fail> {
        all(
            &rt,
            &[
                (b"page 4096\npages 16", 3, 1),
                (b"page 4096\npages 17", 1, 2),
                (b"pages 16\npage 4096", 3, 1),
                (b"pages 17\npage 4096", 1, 2),
                (b"page 64\npages 1024", 3, 1),
                (b"page 272\npages 241", 1, 2),
                (b"pages 241\npage 272", 1, 2),
                (b"page 64\npages 1024\npage 4096", 2, 3),
                (b"page 4096\npages 16\npages 1024", 2, 3),
                (b"page 64\npage 64", 2, 2),
                (b"page 64\npage 7", 1, 2),
                (b"pages 1\npages 1025", 1, 2),
                (b"fill 1\nfill 1", 2, 2),
                (b"fill 1\nfill 256", 1, 2),
            ],
        )
    }

    #[test]
    fn locks(rt: HostRuntime) -> Result<(), Fail> {
        all(
            &rt,
            &[
                (b"lock 0", 1, 1),
                (b"lock 0\npages 4", 1, 1),
                (b"pages 4\nlock 3", 3, 1),
                (b"pages 4\nlock 4", 1, 2),
                (b"pages 4\nlock", 1, 2),
                (b"pages 4\nlock 1 2", 1, 2),
                (b"pages 4\nlock 3\nlock 3", 2, 3),
                (b"pages 1024\nlock 1023", 3, 1),
                (SIXTEEN_LOCKS, 3, 1),
            ],
        )?;
        let more = joined(rt.alloc(), SIXTEEN_LOCKS, b"lock 20\n")?;
        refused(&rt, &more, 1, 18)?;
        let again = joined(rt.alloc(), SIXTEEN_LOCKS, b"lock 0\n")?;
        refused(&rt, &again, 1, 18)
    }

    #[test]
    fn rows(rt: HostRuntime) -> Result<(), Fail> {
        all(
            &rt,
            &[
                (b"box", 1, 1),
                (b"box 1", 1, 1),
                (b"box 0 0 1 2 3 4 5 6 7 8 9 10 11 12 13 14 15", 1, 1),
                (b"box 9 0 1 2 3 4 5 6 7 8 9 10 11 12 13 14 15", 1, 1),
                (b"box 1 0 1 2 3 4 5 6 7 8 9 10 11 12 13 14 16", 1, 1),
                (b"box 1 256 1 2 3 4 5 6 7 8 9 10 11 12 13 14 15", 1, 1),
                (b"box 1 0 1 2 3 4 5 6 7 8 9 10 11 12 13 14", 1, 1),
                (b"box 1 0 1 2 3 4 5 6 7 8 9 10 11 12 13 14 15 0", 1, 1),
                (b"box 1 0 1 2 3 4 5 6 7 8 9 10 11 12 13 14 box", 1, 1),
                (b"box 8 0 1 2 3 4 5 6 7 8 9 10 11 12 13 14 15", 3, 1),
                (
                    b"box 1 0 0 0 0 0 0 0 0 0 0 0 0 0 0 0 0\nbox 1 0 0 0 0 0 0 0 0 0 0 0 0 0 0 0 0",
                    2,
                    2,
                ),
                (
                    b"box 1 0 0 0 0 0 0 0 0 0 0 0 0 0 0 0 0\nbox 1 0 0 0 0 0 0 0 0 0 0 0 0 0 0 0 16",
                    1,
                    2,
                ),
            ],
        )
    }

    #[test]
    fn sizes(rt: HostRuntime) -> Result<(), Fail> {
        let full = spaces(rt.alloc(), 4096)?;
        refused(&rt, &full, 3, 1)?;
        let over = spaces(rt.alloc(), 4097)?;
        refused(&rt, &over, 4, 0)
    }

    #[test]
    fn whole_descriptions(rt: HostRuntime) -> Result<(), Fail> {
        let seven = joined(rt.alloc(), PARTS, ROWS_2_TO_8)?;
        refused(&rt, &seven, 3, 5)?;
        let eight = joined(rt.alloc(), &seven, ROW_1)?;
        let plain = describe(&eight)?;
        assert_eq!(rt; plain.kind, TargetKind::Flash);
        assert_eq!(rt; plain.page_length, 512);
        assert_eq!(rt; plain.page_count, 32);
        assert_eq!(rt; plain.fill, 255);
        assert!(rt; !plain.locked[7]);
        let with_lock = joined(rt.alloc(), &eight, b"lock 7")?;
        let locked = describe(&with_lock)?;
        assert!(rt; locked.locked[7]);
        assert!(rt; !locked.locked[6]);
        let repeated = joined(rt.alloc(), &eight, ROW_1)?;
        refused(&rt, &repeated, 2, 13)
    }

    #[test]
    fn a_kind_is_printed(rt: HostRuntime) -> Result<(), Fail> {
        for (kind, word) in [(TargetKind::Flash, "flash"), (TargetKind::Ram, "ram")] {
            let text = format!(in rt.alloc(); "{kind}")?;
            assert!(rt; text.as_str() == word);
        }
        Ok(())
    }
}
