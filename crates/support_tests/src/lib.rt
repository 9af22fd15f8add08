//! Tests of the answer to a support call, at zeros for table and keys.

#![tactic(auto)]

#[cfg(test)]
mod tests {
    use std::process::Abort;
    use std::test::Fail;
    use support::report::Report;
    use support::report_on;

    const TARGET: &[u8] = b"kind flash\npage 16\npages 4\nfill 255
box 1 0 0 0 0 0 0 0 0 0 0 0 0 0 0 0 0
box 2 0 0 0 0 0 0 0 0 0 0 0 0 0 0 0 0
box 3 0 0 0 0 0 0 0 0 0 0 0 0 0 0 0 0
box 4 0 0 0 0 0 0 0 0 0 0 0 0 0 0 0 0
box 5 0 0 0 0 0 0 0 0 0 0 0 0 0 0 0 0
box 6 0 0 0 0 0 0 0 0 0 0 0 0 0 0 0 0
box 7 0 0 0 0 0 0 0 0 0 0 0 0 0 0 0 0
box 8 0 0 0 0 0 0 0 0 0 0 0 0 0 0 0 0
";

    // How many bytes of it come before the rows.
    const PARTS: usize = 36;

    const IMAGE: [u8; 9] = [1, 2, 3, 4, 5, 6, 7, 8, 0x11];

    fn refused(
        rt: &impl Abort,
        text: &[u8],
        keys: &[u8],
        image: &[u8],
        number: u8,
        place: u32,
        layer: u8,
    ) -> Result<(), Fail> {
        match report_on(text, keys, image) {
            Ok(_) => Err(Fail::new("accepted")),
            Err(why) => {
                assert_eq!(rt; why.reason.number(), number);
                assert_eq!(rt; why.place, place);
                assert_eq!(rt; why.layer.number(), layer);
                Ok(())
            }
        }
    }

    fn accepted(image: &[u8]) -> Result<Report, Fail> {
        Ok(report_on(TARGET, &[0; 64], image)?)
    }

    #[test]
    fn the_description_comes_first(rt: HostRuntime) -> Result<(), Fail> {
        // missing files count as empty
        refused(&rt, b"", b"", b"", 3, 1, 1)?;
        refused(&rt, b"kind\n", b"", b"", 1, 1, 1)
    }

    #[test]
    fn keys_have_64_bytes(rt: HostRuntime) -> Result<(), Fail> {
        refused(&rt, TARGET, b"", b"", 9, 0, 2)?;
        refused(&rt, TARGET, &[0; 63], &IMAGE, 9, 0, 2)?;
        refused(&rt, TARGET, &[0; 65], &IMAGE, 9, 0, 2)
    }

    #[test]
    fn an_image_has_nine_bytes_and_fits_the_target(rt: HostRuntime) -> Result<(), Fail> {
        refused(&rt, TARGET, &[0; 64], &[1; 8], 6, 0, 2)?;
        refused(&rt, TARGET, &[0; 64], &[1; 65], 7, 0, 2)?;
        refused(&rt, TARGET, &[0; 64], &[1; 16384], 7, 0, 2)?;
        refused(&rt, TARGET, &[0; 64], &[1; 16385], 6, 0, 2)?;
        assert_eq!(rt; accepted(&[1; 64])?.image_pages, 4);
        Ok(())
    }

    #[test]
    fn nine_bytes_on_a_page_of_sixteen(rt: HostRuntime) -> Result<(), Fail> {
        let report = accepted(&IMAGE)?;
        assert_eq!(rt; report.image_length, 9);
        assert_eq!(rt; report.image_pages, 1);
        assert_eq!(rt; report.value, 0x0403_0210);
        assert_eq!(rt; report.wrong, 0xfbfc_fd10);
        Ok(())
    }

    #[test]
    fn a_whole_page_has_no_fill(rt: HostRuntime) -> Result<(), Fail> {
        let report = accepted(&[1; 16])?;
        assert_eq!(rt; report.image_pages, 1);
        assert_eq!(rt; report.value, report.wrong);
        let report = accepted(&[1; 17])?;
        assert_eq!(rt; report.image_pages, 2);
        assert_ne!(rt; report.value, report.wrong);
        Ok(())
    }

    #[test]
    fn the_body_key_is_not_the_tag_key(rt: HostRuntime) -> Result<(), Fail> {
        let mut keys = [0; 64];
        keys[31] = 1;
        let same = report_on(TARGET, &keys, &IMAGE)?;
        assert_eq!(rt; same.value, 0x0403_0210);
        Ok(())
    }

    #[test]
    fn kind_and_locked_pages_are_printed(rt: HostRuntime) -> Result<(), Fail> {
        let mut text = Vec::new(rt.alloc());
        text.extend_from_slice(b"kind ram\npage 16\npages 1024\nlock 1023\nlock 0\nfill 0\n")?;
        for b in TARGET.iter().skip(PARTS) {
            text.push(*b)?;
        }
        let report = report_on(text.as_slice(), &[0; 64], &IMAGE)?;
        assert_eq!(rt;
            report.value,
            report.wrong,
            "fill 0 to the end of the last block changes nothing"
        );
        let shown = format!(in rt.alloc(); "{report}")?;
        assert!(rt;
            shown.as_str().starts_with(
                "kind ram\npage length 16\npages 1024\nfill 0\nlocked pages 0 1023\n",
            )
        );
        Ok(())
    }

    #[test]
    fn a_report_is_printed(rt: HostRuntime) -> Result<(), Fail> {
        let report = accepted(&IMAGE)?;
        let text = format!(in rt.alloc(); "{report}")?;
        assert!(rt;
            text.as_str()
                == "kind flash
page length 16
pages 4
fill 255
locked pages none
image length 9
image pages 1
imitovstavka, l = 32: 0x04030210
WRONG READING, fill of the last page taken in: 0xfbfcfd10
another l: shift right by 32 - l, for l = 16: 0x0403"
        );
        Ok(())
    }
}
