//! Tests of listing download files and of sealing, at every limit.

#![tactic(auto)]

ghost use Rattle.std.specs.Prelude.{◌<◌};

#[cfg(test)]
mod tests {
    use blocks::BlockCipher;
    use gost::cipher::Gost;
    use gost::table::SubstitutionTable;
    use refusals::Refusal;
    use sections::file::list;
    use sections::listing::Listing;
    use sections::sealing::seal;
    use std::process::Abort;
    use std::test::Fail;

    // GOST in feedback, a tag of 32 bits, page 3, nine bytes, a sync and a tag.
    const ENTRY: [u8; 32] = [
        1, 3, 32, 0, 3, 0, 0, 0, 9, 0, 0, 0, 1, 2, 3, 4, 5, 6, 7, 8, 0, 0, 0, 0, 0, 0, 0, 0, 1, 2,
        3, 255,
    ];

    // Kuznyechik in codebook, a tag of one bit, pages 1 and 2, 32 bytes.
    const SECOND: [u8; 32] = [
        2, 1, 1, 0, 1, 0, 0, 0, 32, 0, 0, 0, 0, 0, 0, 0, 0, 0, 0, 0, 0, 0, 0, 0, 0, 0, 0, 0, 1, 0,
        0, 0,
    ];

    fn refusal(
        rt: &impl Abort,
        res: Result<Listing, Refusal>,
        number: u8,
        place: u32,
    ) -> Result<(), Fail> {
        match res {
            Ok(_) => Err(Fail::new("accepted")),
            Err(why) => {
                assert_eq!(rt; why.reason.number(), number);
                assert_eq!(rt; why.place, place);
                assert_eq!(rt; why.layer.number(), 2);
                Ok(())
            }
        }
    }

    fn accepted(res: Result<Listing, Refusal>) -> Result<Listing, Fail> {
        res.map_err(|_| Fail::new("refused"))
    }

    // A file of that section, its body nine zeros.
    const FILE: [u8; 45] = [
        1, 1, 0, 0, 1, 3, 32, 0, 3, 0, 0, 0, 9, 0, 0, 0, 1, 2, 3, 4, 5, 6, 7, 8, 0, 0, 0, 0, 0, 0,
        0, 0, 1, 2, 3, 255, 0, 0, 0, 0, 0, 0, 0, 0, 0,
    ];

    // The file with one byte of its entry changed, for four pages of sixteen bytes.
    fn changed(at: usize, byte: u8) -> Result<Listing, Refusal>
        requires { at < 32 }
    {
        let mut file = FILE;
        file[4 + at] = byte;
        list(&file, 16, 4)
    }

    // The file with l = 1 and a tag of one byte.
    fn one_bit(tag: u8) -> Result<Listing, Refusal> {
        let mut file = FILE;
        file[6] = 1;
        file[32] = tag;
        file[33] = 0;
        file[34] = 0;
        file[35] = 0;
        list(&file, 16, 4)
    }

    // A file of one section with L of two bytes and a body of so many zeros, for 1,024 pages.
    fn of_length(low: u8, high: u8, size: usize) -> Result<Listing, Refusal>
        requires { size < 16400 }
    {
        let mut entry = ENTRY;
        entry[8] = low;
        entry[9] = high;
        let mut file = [0; 16436];
        file[0] = 1;
        file[1] = 1;
        file[4..36].copy_from_slice(&entry);
        list(&file[..36 + size], 16, 1027)
    }

    // A file of two sections, the mode, the first page and the length of the second changed.
    fn two(mode: u8, first_page: u8, length: u8) -> Result<Listing, Refusal> {
        let mut second = SECOND;
        second[1] = mode;
        second[4] = first_page;
        second[8] = length;
        let mut file = [0; 109];
        file[0] = 1;
        file[1] = 2;
        file[4..36].copy_from_slice(&ENTRY);
        file[36..68].copy_from_slice(&second);
        list(&file, 16, 6)
    }

    #[test]
    fn sizes(rt: HostRuntime) -> Result<(), Fail> {
        let file = [0; 65537];
        refusal(&rt, list(&file[..3], 16, 4), 4, 0)?;
        refusal(&rt, list(&file[..4], 16, 4), 5, 0)?;
        refusal(&rt, list(&file[..65536], 16, 4), 5, 0)?;
        refusal(&rt, list(&file, 16, 4), 4, 0)?;
        refusal(&rt, list(&file, 0, 4), 9, 0)
    }

    #[test]
    fn headers(rt: HostRuntime) -> Result<(), Fail> {
        refusal(&rt, list(&[2, 1, 0, 0], 16, 4), 5, 0)?;
        refusal(&rt, list(&[1, 0, 0, 0], 16, 4), 5, 0)?;
        refusal(&rt, list(&[1, 9, 0, 0], 16, 4), 5, 0)?;
        refusal(&rt, list(&[1, 1, 1, 0], 16, 4), 5, 0)?;
        refusal(&rt, list(&[1, 1, 0, 1], 16, 4), 5, 0)?;
        // an entry cut short
        refusal(&rt, list(&[1, 8, 0, 0], 16, 4), 5, 1)
    }

    #[test]
    fn fields(rt: HostRuntime) -> Result<(), Fail> {
        refusal(&rt, changed(0, 0), 5, 1)?;
        refusal(&rt, changed(0, 3), 5, 1)?;
        refusal(&rt, changed(1, 0), 5, 1)?;
        // codebook with a sync
        refusal(&rt, changed(1, 1), 5, 1)?;
        refusal(&rt, changed(1, 4), 5, 1)?;
        refusal(&rt, changed(3, 1), 5, 1)?;
        refusal(&rt, changed(6, 1), 5, 1)?;
        refusal(&rt, changed(7, 1), 5, 1)?;
        // a sync of nine bytes
        refusal(&rt, changed(20, 1), 5, 1)?;
        refusal(&rt, changed(27, 1), 5, 1)?;
        // counter with blocks of sixteen bytes
        refusal(&rt, two(2, 1, 32), 5, 2)
    }

    #[test]
    fn tags(rt: HostRuntime) -> Result<(), Fail> {
        refusal(&rt, changed(2, 0), 5, 1)?;
        // a tag of 32 bits
        refusal(&rt, changed(2, 31), 5, 1)?;
        refusal(&rt, changed(2, 33), 5, 1)?;
        let _ = accepted(changed(2, 32))?;
        let _ = accepted(changed(1, 2))?;
        // a tag of two bits
        refusal(&rt, one_bit(2), 5, 1)?;
        let _ = accepted(one_bit(1))?;
        Ok(())
    }

    #[test]
    fn lengths(rt: HostRuntime) -> Result<(), Fail> {
        refusal(&rt, of_length(8, 0, 8), 6, 1)?;
        let _ = accepted(of_length(9, 0, 9))?;
        let _ = accepted(of_length(0, 64, 16384))?;
        refusal(&rt, of_length(1, 64, 16385), 6, 1)?;
        // codebook without whole blocks
        refusal(&rt, two(1, 1, 33), 6, 2)?;
        refusal(&rt, of_length(9, 0, 8), 8, 0)?;
        refusal(&rt, of_length(9, 0, 10), 8, 0)
    }

    #[test]
    fn pages(rt: HostRuntime) -> Result<(), Fail> {
        let _ = accepted(changed(4, 3))?;
        refusal(&rt, changed(4, 4), 7, 1)?;
        let touching = accepted(two(1, 1, 32))?;
        assert_eq!(rt; touching.count(), 2);
        let _ = accepted(two(1, 4, 32))?;
        refusal(&rt, two(1, 2, 32), 7, 2)?;
        refusal(&rt, two(1, 3, 32), 7, 2)?;
        refusal(&rt, two(1, 5, 32), 7, 2)
    }

    #[test]
    fn asked_sections(rt: HostRuntime) -> Result<(), Fail> {
        let listing = accepted(two(1, 1, 32))?;
        let Ok(second) = listing.section(2) else {
            return Err(Fail::new("refused"));
        };
        assert_eq!(rt; second.offset, 77);
        assert_eq!(rt; second.length, 32);
        assert_eq!(rt; second.bits, 1);
        assert_eq!(rt; listing.section(0).is_err(), true);
        assert_eq!(rt; listing.section(3).is_err(), true);
        Ok(())
    }

    #[test]
    fn sealed_then_listed(rt: HostRuntime) -> Result<(), Fail> {
        let Ok(table) = SubstitutionTable::new([[0; 16]; 8]) else {
            return Err(Fail::new("no table"));
        };
        let key = [0; 8];
        let cipher = Gost::new(&table, &key);
        let image = [7; 9];
        let mut body = [0; 9];
        let mut entry = ENTRY;
        assert_eq!(rt;
            seal(&mut entry[..31], &image, &mut body, &cipher, cipher).is_err(),
            true
        );
        assert_eq!(rt;
            seal(&mut entry, &image[..8], &mut body, &cipher, cipher).is_err(),
            true
        );
        assert_eq!(rt;
            seal(&mut entry, &image, &mut body, &cipher, cipher).is_ok(),
            true
        );
        let mut file = [0; 45];
        file[0] = 1;
        file[1] = 1;
        file[4..36].copy_from_slice(&entry);
        file[36..].copy_from_slice(&body);
        let listing = accepted(list(&file, 16, 4))?;
        let Ok(section) = listing.section(1) else {
            return Err(Fail::new("refused"));
        };
        assert_eq!(rt; section.offset, 36);
        let mut again = [0; 9];
        entry[28] = 0;
        assert_eq!(rt;
            seal(&mut entry, &image, &mut again, &cipher, cipher).is_ok(),
            true
        );
        assert_eq!(rt;
            u32::from_le_bytes([entry[28], entry[29], entry[30], entry[31]]),
            section.tag
        );
        assert_eq!(rt; again, body);
        Ok(())
    }
}
