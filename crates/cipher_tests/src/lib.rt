//! Tests of tables, keys, GOST 28147-89 and its imitovstavka.
//!
//! The values with table CryptoPro-A were made by OpenSSL's GOST engine (`gost-mac`).

#![tactic(auto)]

#[cfg(test)]
mod tests {
    use blocks::BlockCipher;
    use gost::cipher::Gost;
    use gost::key::spread_key;
    use gost::table::SubstitutionTable;
    use imitovstavka::chain::Chain;
    use imitovstavka::imitovstavka;
    use imitovstavka::length::TagLength;
    use refusals::Refusal;
    use samples::{KEY, TABLE_A};
    use std::process::Abort;
    use std::test::Fail;

    const TEXT: [u8; 17] = [
        0x03, 0x0a, 0x11, 0x18, 0x1f, 0x26, 0x2d, 0x34, 0x3b, 0x42, 0x49, 0x50, 0x57, 0x5e, 0x65,
        0x6c, 0x73,
    ];

    // Sees that a call was refused so.
    fn refused(
        rt: &impl Abort,
        why: Refusal,
        number: u8,
        place: u32,
        layer: u8,
    ) -> Result<(), Fail> {
        assert_eq!(rt; why.reason.number(), number);
        assert_eq!(rt; why.place, place);
        assert_eq!(rt; why.layer.number(), layer);
        Ok(())
    }

    // The value of the first bytes of the text.
    fn value(rt: &impl Abort, bits: u8, length: usize) -> Result<u32, Fail> {
        let table = SubstitutionTable::new(TABLE_A)?;
        let mut words = [0; 8];
        spread_key(&KEY, &mut words)?;
        let bits = TagLength::new(bits)?;
        assert!(rt; length <= 17);
        let text = TEXT;
        Ok(imitovstavka(Gost::new(&table, &words), bits, &text[0..length])?)
    }

    #[test]
    fn a_table_has_numbers_up_to_fifteen(rt: HostRuntime) -> Result<(), Fail> {
        let mut rows = [[15; 16]; 8];
        if let Err(_) = SubstitutionTable::new(rows) {
            return Err(Fail::new("fifteen was refused"));
        }
        rows[7][15] = 16;
        match SubstitutionTable::new(rows) {
            Ok(_) => Err(Fail::new("sixteen was accepted")),
            Err(why) => refused(&rt, why, 5, 0, 2),
        }
    }

    #[test]
    fn a_key_has_32_bytes(rt: HostRuntime) -> Result<(), Fail> {
        let mut words = [7; 8];
        for key in [&[1u8; 31][0..31], &[1u8; 33][0..33]] {
            match spread_key(key, &mut words) {
                Ok(()) => return Err(Fail::new("accepted")),
                Err(why) => refused(&rt, why, 9, 0, 2)?,
            }
        }
        assert_eq!(rt; words, [7; 8], "a refused key leaves the words");
        spread_key(&KEY, &mut words)?;
        assert_eq!(rt; words[0], 0x0302_0100);
        assert_eq!(rt; words[7], 0x1f1e_1d1c);
        Ok(())
    }

    #[test]
    fn a_block_has_eight_bytes(rt: HostRuntime) -> Result<(), Fail> {
        let table = SubstitutionTable::new(TABLE_A)?;
        let words = [0; 8];
        let cipher = Gost::new(&table, &words);
        assert_eq!(rt; cipher.block_length(), 8);
        let mut part = [1u8, 2, 3, 4, 5, 6, 7, 8, 9];
        match cipher.encipher(&mut part) {
            Ok(()) => return Err(Fail::new("nine bytes were accepted")),
            Err(why) => refused(&rt, why, 9, 0, 3)?,
        }
        match cipher.decipher(&mut part[0..7]) {
            Ok(()) => return Err(Fail::new("seven bytes were accepted")),
            Err(why) => refused(&rt, why, 9, 0, 3)?,
        }
        assert_eq!(rt; part, [1, 2, 3, 4, 5, 6, 7, 8, 9]);
        Ok(())
    }

    #[test]
    fn there_and_back(rt: HostRuntime) -> Result<(), Fail> {
        let table = SubstitutionTable::new(TABLE_A)?;
        let mut words = [0; 8];
        spread_key(&KEY, &mut words)?;
        let cipher = Gost::new(&table, &words);
        let mut block = [1u8, 2, 3, 4, 5, 6, 7, 8];
        cipher.encipher(&mut block)?;
        assert_ne!(rt; block, [1, 2, 3, 4, 5, 6, 7, 8]);
        cipher.decipher(&mut block)?;
        assert_eq!(rt; block, [1, 2, 3, 4, 5, 6, 7, 8]);
        Ok(())
    }

    #[test]
    fn values_of_another_implementation(rt: HostRuntime) -> Result<(), Fail> {
        assert_eq!(rt; value(&rt, 32, 9)?, 0x6d5b_99d7);
        assert_eq!(rt; value(&rt, 32, 16)?, 0x886a_2598);
        assert_eq!(rt; value(&rt, 32, 17)?, 0x6ef7_7e49);
        assert_eq!(rt; value(&rt, 1, 16)?, 1);
        assert_eq!(rt; value(&rt, 16, 17)?, 0x6ef7);
        Ok(())
    }

    #[test]
    fn a_text_has_nine_bytes(rt: HostRuntime) -> Result<(), Fail> {
        let table = SubstitutionTable::new(TABLE_A)?;
        let bits = TagLength::new(32)?;
        match imitovstavka(Gost::new(&table, &[0; 8]), bits, &[1; 8]) {
            Ok(_) => Err(Fail::new("eight bytes were accepted")),
            Err(why) => refused(&rt, why, 6, 0, 2),
        }
    }

    #[test]
    fn a_value_has_1_to_32_bits(rt: HostRuntime) -> Result<(), Fail> {
        for bits in [0, 33, 255] {
            match TagLength::new(bits) {
                Ok(_) => return Err(Fail::new("accepted")),
                Err(why) => refused(&rt, why, 5, 0, 2)?,
            }
        }
        let _ = TagLength::new(1)?;
        let _ = TagLength::new(32)?;
        Ok(())
    }

    #[test]
    fn a_text_in_parts(rt: HostRuntime) -> Result<(), Fail> {
        let table = SubstitutionTable::new(TABLE_A)?;
        let mut words = [0; 8];
        spread_key(&KEY, &mut words)?;
        let text = TEXT;
        let mut chain = Chain::new(Gost::new(&table, &words));
        chain.absorb(&text[0..8]);
        chain.absorb(&[]);
        chain.absorb(&text[8..16]);
        chain.absorb(&text[16..17]);
        assert_eq!(rt; chain.value(TagLength::new(32)?), 0x6ef7_7e49);
        Ok(())
    }

    #[test]
    fn a_refusal_is_printed(rt: HostRuntime) -> Result<(), Fail> {
        match TagLength::new(0) {
            Ok(_) => Err(Fail::new("accepted")),
            Err(why) => {
                let text = format!(in rt.alloc(); "{why}")?;
                assert!(rt; text.as_str() == "refused 5 0 2");
                Ok(())
            }
        }
    }
}
