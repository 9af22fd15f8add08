//! Tests of the modes: refusals, short last blocks, and values of another implementation.
//!
//! The values with table CryptoPro-A were made by OpenSSL's GOST engine (`gost89`, `gost89-cnt`).

#![tactic(auto)]

#[cfg(test)]
mod tests {
    use blocks::BlockCipher;
    use gost::cipher::Gost;
    use gost::key::spread_key;
    use gost::table::SubstitutionTable;
    use kuznyechik::cipher::Kuznyechik;
    use modes::block::decipher_block;
    use modes::masks::Counters;
    use modes::mode::{Mode, Sync};
    use modes::text::encipher_text;
    use refusals::Refusal;
    use samples::{KEY, TABLE_A};
    use std::process::Abort;
    use std::test::Fail;

    // Bytes 01 to 08.
    const SYNC: Option<Sync> = Some(Sync {
        first: 0x0807_0605_0403_0201,
        second: 0,
    });

    const PLAIN: [u8; 21] = [
        0x03, 0x0a, 0x11, 0x18, 0x1f, 0x26, 0x2d, 0x34, 0x3b, 0x42, 0x49, 0x50, 0x57, 0x5e, 0x65,
        0x6c, 0x73, 0x7a, 0x81, 0x88, 0x8f,
    ];

    const FEEDBACK: [u8; 21] = [
        0x24, 0xc0, 0x84, 0x67, 0x7b, 0x00, 0x8c, 0xd0, 0x56, 0x0d, 0xf4, 0xb6, 0x66, 0xd2, 0x0c,
        0x03, 0x89, 0x35, 0x79, 0x84, 0xc9,
    ];

    const COUNTER: [u8; 21] = [
        0xe8, 0x84, 0x5e, 0x45, 0x65, 0x6c, 0x24, 0xfb, 0x8d, 0xa1, 0x6b, 0x9d, 0x00, 0x41, 0xfd,
        0x3b, 0x40, 0xb4, 0x43, 0x13, 0xf4,
    ];

    fn refused<T: Drop>(
        rt: &impl Abort,
        got: Result<T, Refusal>,
        number: u8,
        place: u32,
        layer: u8,
    ) -> Result<(), Fail> {
        let Err(why) = got else {
            return Err(Fail::new("accepted"));
        };
        assert_eq!(rt; why.reason.number(), number);
        assert_eq!(rt; why.place, place);
        assert_eq!(rt; why.layer.number(), layer);
        Ok(())
    }

    // Enciphers the plain text, compares, and deciphers each of its three blocks.
    fn there_and_back(rt: &impl Abort, mode: Mode, expected: [u8; 21]) -> Result<(), Fail> {
        let table = SubstitutionTable::new(TABLE_A)?;
        let mut words = [0; 8];
        spread_key(&KEY, &mut words)?;
        let cipher = Gost::new(&table, &words);
        let mut text = PLAIN;
        encipher_text(&cipher, mode, SYNC, &mut text)?;
        assert_eq!(rt; text, expected);
        let mut out = [0xaa; 8];
        assert_eq!(rt; decipher_block(&cipher, mode, SYNC, &text, 2, &mut out)?, 5);
        assert_eq!(rt;
            out,
            [
                PLAIN[16], PLAIN[17], PLAIN[18], PLAIN[19], PLAIN[20], 0xaa, 0xaa, 0xaa,
            ]
        );
        assert_eq!(rt; decipher_block(&cipher, mode, SYNC, &text, 0, &mut out)?, 8);
        assert_eq!(rt; out[0], PLAIN[0]);
        assert_eq!(rt; decipher_block(&cipher, mode, SYNC, &text, 1, &mut out)?, 8);
        assert_eq!(rt; out[7], PLAIN[15]);
        Ok(())
    }

    #[test]
    fn feedback_of_another_implementation(rt: HostRuntime) -> Result<(), Fail> {
        there_and_back(&rt, Mode::Feedback, FEEDBACK)
    }

    #[test]
    fn counter_of_another_implementation(rt: HostRuntime) -> Result<(), Fail> {
        there_and_back(&rt, Mode::Counter, COUNTER)
    }

    #[test]
    fn modes_and_syncs_that_do_not_agree(rt: HostRuntime) -> Result<(), Fail> {
        let table = SubstitutionTable::new(TABLE_A)?;
        let words = [0; 8];
        let cipher = Gost::new(&table, &words);
        let mut text = PLAIN;
        let cases = [
            (Mode::Codebook, SYNC, 5),
            (Mode::Counter, None, 5),
            (Mode::Feedback, None, 5),
            (Mode::Codebook, None, 6),
        ];
        for (mode, sync, number) in cases {
            let got = encipher_text(&cipher, mode, sync, &mut text);
            refused(&rt, got, number, 0, 2)?;
        }
        assert_eq!(rt; text, PLAIN, "a refusal leaves the text");
        Ok(())
    }

    #[test]
    fn counter_needs_blocks_of_eight_bytes(rt: HostRuntime) -> Result<(), Fail> {
        let keys = [[0; 16]; 10];
        let cipher = Kuznyechik::new(&keys);
        let mut text = PLAIN;
        let got = encipher_text(&cipher, Mode::Counter, SYNC, &mut text);
        refused(&rt, got, 5, 0, 2)?;
        encipher_text(&cipher, Mode::Feedback, SYNC, &mut text)?;
        assert_ne!(rt; text, PLAIN);
        let mut out = [0; 16];
        assert_eq!(rt;
            decipher_block(&cipher, Mode::Feedback, SYNC, &text, 1, &mut out)?,
            5
        );
        assert_eq!(rt; out[4], PLAIN[20]);
        assert_eq!(rt; out[5], 0);
        Ok(())
    }

    #[test]
    fn blocks_that_there_are_not(rt: HostRuntime) -> Result<(), Fail> {
        let table = SubstitutionTable::new(TABLE_A)?;
        let words = [0; 8];
        let cipher = Gost::new(&table, &words);
        let mut out = [7; 9];
        refused(
            &rt,
            decipher_block(&cipher, Mode::Feedback, SYNC, &PLAIN, 0, &mut out),
            9,
            0,
            3,
        )?;
        refused(
            &rt,
            decipher_block(&cipher, Mode::Feedback, SYNC, &PLAIN, 3, &mut out[0..8]),
            10,
            3,
            3,
        )?;
        refused(
            &rt,
            decipher_block(&cipher, Mode::Feedback, SYNC, &[], 0, &mut out[0..8]),
            10,
            0,
            3,
        )?;
        refused(
            &rt,
            decipher_block(
                &cipher,
                Mode::Feedback,
                SYNC,
                &PLAIN,
                0xffff_ffff,
                &mut out[0..8],
            ),
            10,
            0xffff_ffff,
            3,
        )?;
        refused(
            &rt,
            decipher_block(&cipher, Mode::Codebook, None, &PLAIN, 0, &mut out[0..8]),
            6,
            0,
            2,
        )?;
        assert_eq!(rt; out, [7; 9], "a refusal leaves the buffer");
        Ok(())
    }

    // The counters of a block. Nothing is said of them, so the asserts are left to the run.
    fn counters_at(from: Counters, block: u64) -> Counters {
        from.of_block(block)
    }

    #[test]
    fn counters_far_out(rt: HostRuntime) {
        let from = Counters {
            third: 0xfefe_feff,
            fourth: 0xfefe_fefb,
        };
        assert_eq!(rt; counters_at(from, 0).third, 0);
        assert_eq!(rt; counters_at(from, 0).fourth, 0xffff_ffff);
        assert_eq!(rt; counters_at(from, 1).fourth, 0x0101_0104);
        let last = counters_at(from, 0xffff_fffe);
        assert_eq!(rt; last.fourth, 0xfefe_fefb);
    }
}
