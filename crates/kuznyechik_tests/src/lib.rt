//! Tests of Kuznyechik.

#![tactic(auto)]

#[cfg(test)]
mod tests {
    use blocks::BlockCipher;
    use kuznyechik::cipher::Kuznyechik;
    use kuznyechik::key::spread_key;
    use refusals::Refusal;
    use std::process::Abort;
    use std::test::Fail;

    // The example key of the standard, its example block, and what that is enciphered to.
    const KEY: [u8; 32] = *b"\x88\x99\xaa\xbb\xcc\xdd\xee\xff\x00\x11\x22\x33\x44\x55\x66\x77\
        \xfe\xdc\xba\x98\x76\x54\x32\x10\x01\x23\x45\x67\x89\xab\xcd\xef";

    const PLAIN: [u8; 16] = *b"\x11\x22\x33\x44\x55\x66\x77\x00\xff\xee\xdd\xcc\xbb\xaa\x99\x88";

    const CIPHER: [u8; 16] = *b"\x7f\x67\x9d\x90\xbe\xbc\x24\x30\x5a\x46\x8d\x42\xb9\xd4\xed\xcd";

    // Sees that a call was refused so.
    fn refused(rt: &impl Abort, why: Refusal, number: u8, place: u32, layer: u8) {
        assert_eq!(rt; why.reason.number(), number);
        assert_eq!(rt; why.place, place);
        assert_eq!(rt; why.layer.number(), layer);
    }

    #[test]
    fn the_example_there_and_back(rt: HostRuntime) -> Result<(), Fail> {
        let mut keys = [[0; 16]; 10];
        spread_key(&KEY, &mut keys)?;
        let cipher = Kuznyechik::new(&keys);
        assert_eq!(rt; cipher.block_length(), 16);
        let mut block = PLAIN;
        cipher.encipher(&mut block)?;
        assert_eq!(rt; block, CIPHER);
        cipher.decipher(&mut block)?;
        assert_eq!(rt; block, PLAIN);
        Ok(())
    }

    #[test]
    fn a_key_has_32_bytes(rt: HostRuntime) -> Result<(), Fail> {
        let mut keys = [[7; 16]; 10];
        for key in [&[1u8; 31][0..31], &[1u8; 33][0..33]] {
            match spread_key(key, &mut keys) {
                Ok(()) => return Err(Fail::new("accepted")),
                Err(why) => refused(&rt, why, 9, 0, 2),
            }
        }
        assert_eq!(rt; keys, [[7; 16]; 10], "a refused key leaves the round keys");
        Ok(())
    }

    #[test]
    fn a_block_has_16_bytes(rt: HostRuntime) -> Result<(), Fail> {
        let keys = [[7; 16]; 10];
        let cipher = Kuznyechik::new(&keys);
        let mut part = [5u8; 17];
        match cipher.encipher(&mut part) {
            Ok(()) => return Err(Fail::new("17 bytes were accepted")),
            Err(why) => refused(&rt, why, 9, 0, 3),
        }
        match cipher.decipher(&mut part[0..15]) {
            Ok(()) => return Err(Fail::new("15 bytes were accepted")),
            Err(why) => refused(&rt, why, 9, 0, 3),
        }
        assert_eq!(rt; part, [5; 17], "a refused part stays as it was");
        Ok(())
    }
}
