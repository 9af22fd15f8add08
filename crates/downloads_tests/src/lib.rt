//! Tests of downloads: traces, and the calls that a trace cannot make.

#![tactic(auto)]

ghost use Rattle.std.specs.Prelude.{◌+◌, ◌≤◌, length};

#[cfg(test)]
mod tests {
    use blocks::BlockCipher;
    use downloads::arrivals::ArrivalRecord;
    use downloads::frames::open;
    use downloads::giving::give;
    use downloads::pages::program;
    use downloads::received::{Received, ReceivedRef};
    use downloads::state::{Closed, Download, Receiving, Refused, Verdict};
    use gost::cipher::Gost;
    use gost::table::SubstitutionTable;
    use kuznyechik::cipher::Kuznyechik;
    use kuznyechik::key::spread_key;
    use refusals::Refusal;
    use sections::file::list;
    use sections::listing::Listing;
    use sections::sealing::seal;
    use sections::section::Section;
    use std::process::Abort;
    use std::test::Fail;
    use targets::Target;
    use targets::kinds::{Flash, Ram};
    use traces::call::{Answer, Bench, Call, Until};
    use traces::run::run;

    const OPEN: [bool; 1024] = [false; 1024];

    // Ciphers and modes, as an entry has them.
    const GOST: u8 = 1;

    const KUZNYECHIK: u8 = 2;

    const CODEBOOK: u8 = 1;

    const COUNTER: u8 = 2;

    const FEEDBACK: u8 = 3;

    const KEY: [u32; 8] = [1, 2, 3, 4, 5, 6, 7, 8];

    const IMAGE: [u8; 64] = *b"An image of sixty-four bytes, sealed and sent to four pages ...\n";

    // What a call is to answer.
    #[derive(Clone, Copy, PartialEq, Eq, Debug)]
    enum Told {
        Done,
        Plain([u8; 16], usize),
        Good,
        Differs,
        // Number, place and layer.
        Refused(u8, u32, u8),
        NotBuilt,
    }

    // Refused by the download, at a block, a page or 0.
    fn no(number: u8, place: u32) -> Told {
        Told::Refused(number, place, 3)
    }

    impl From<Refusal> for Told {
        fn from(refusal: Refusal) -> Told {
            Told::Refused(
                refusal.reason.number(),
                refusal.place,
                refusal.layer.number(),
            )
        }
    }

    impl From<Verdict> for Told {
        fn from(verdict: Verdict) -> Told {
            match verdict {
                Verdict::Good => Told::Good,
                Verdict::Differs => Told::Differs,
            }
        }
    }

    impl From<Answer> for Told {
        fn from(answer: Answer) -> Told {
            match answer {
                Answer::Done => Told::Done,
                Answer::Plain { block, count } => Told::Plain(block, count),
                Answer::Verdict { verdict } => Told::from(verdict),
                Answer::Refused { refusal } => Told::from(refusal),
                Answer::NotBuilt => Told::NotBuilt,
            }
        }
    }

    // The bytes of a plain block, zeros after them.
    fn plain(bytes: &[u8]) -> Told
        requires { length bytes.now ≤ 16 }
    {
        let mut block = [0; 16];
        block[..bytes.len()].copy_from_slice(bytes);
        Told::Plain(block, bytes.len())
    }

    fn frame(first: u32, bytes: &[u8]) -> Call<'_> {
        Call::Frame { first, bytes }
    }

    fn give_block<'a>(block: u32) -> Call<'a> {
        Call::Give { block }
    }

    fn erase_page<'a>(page: u32) -> Call<'a> {
        Call::Erase { page }
    }

    fn program_page<'a>(page: u16) -> Call<'a> {
        Call::Program { page }
    }

    // Sees that every byte is `byte`.
    fn all(rt: &impl Abort, bytes: &[u8], byte: u8) -> Result<(), Fail> {
        for b in bytes {
            assert_eq!(rt; *b, byte);
        }
        Ok(())
    }

    // The same of an array.
    fn every<const N: usize>(rt: &impl Abort, bytes: [u8; N], byte: u8) -> Result<(), Fail> {
        all(rt, &bytes, byte)
    }

    // A file of one section, and what its download needs.
    #[derive(Clone, Copy)]
    struct Sealed {
        listing: Listing,
        table: SubstitutionTable,
        key: [u32; 8],
        body: [u8; 64],
        length: usize,
        blocks: usize,
    }

    impl Sealed {
        // The cipher with the tag key.
        fn tag(&self) -> Gost<'_> {
            Gost::new(&self.table, &self.key)
        }
    }

    // A table whose rows differ, and are permutations.
    fn mixing() -> Result<SubstitutionTable, Fail> {
        let a = [9, 6, 3, 2, 8, 11, 1, 7, 10, 4, 14, 15, 12, 0, 13, 5];
        let b = [3, 7, 14, 9, 8, 10, 15, 0, 5, 2, 6, 12, 11, 4, 13, 1];
        Ok(SubstitutionTable::new([a, b, a, b, b, a, b, a])?)
    }

    // The first bytes of the image enciphered, zeros after them; the tag goes into the entry.
    fn enciphered<C: BlockCipher>(
        cipher: &C,
        table: &SubstitutionTable,
        entry: &mut [u8; 32],
        length: usize,
    ) -> Result<[u8; 64], Fail>
        requires { length ≤ 64 }
    {
        let mut body = [0; 64];
        let tag = Gost::new(table, &KEY);
        seal(entry, &IMAGE[..length], &mut body[..length], cipher, tag)?;
        Ok(body)
    }

    // The table of a file of one section, zeros after it.
    fn contents(entry: [u8; 32]) -> [u8; 100] {
        let mut file = [0; 100];
        file[0] = 1;
        file[1] = 1;
        file[4..36].copy_from_slice(&entry);
        file
    }

    // A file of one section, zeros after its body.
    fn file_of(entry: [u8; 32], body: [u8; 64]) -> [u8; 100] {
        let mut file = contents(entry);
        file[36..].copy_from_slice(&body);
        file
    }

    // The first bytes of the image, sealed from a page on.
    fn sealing<C: BlockCipher>(
        cipher: &C,
        kind: u8,
        mode: u8,
        first_page: u8,
        long: u8,
    ) -> Result<Sealed, Fail>
        requires { long ≤ 64 }
    {
        let table = mixing()?;
        let length = long as usize;
        let mut entry = [0; 32];
        entry[0] = kind;
        entry[1] = mode;
        entry[2] = 32;
        entry[4] = first_page;
        entry[8] = long;
        if mode != CODEBOOK {
            entry[12] = 77;
        }
        let body = enciphered(cipher, &table, &mut entry, length)?;
        let file = file_of(entry, body);
        let blocks = if kind == GOST {
            length.div_ceil(8)
        } else {
            length.div_ceil(16)
        };
        Ok(Sealed {
            listing: list(&file[..36 + length], 16, 1024)?,
            table,
            key: KEY,
            body,
            length,
            blocks,
        })
    }

    // The calls of a trace, and others after them.
    fn calls_in<'a>(steps: &[(Call<'a>, Told)]) -> [Call<'a>; 32]
        requires { length steps.now ≤ 32 }
    {
        let mut calls = [Call::Close; 32];
        // By index: a `&mut` to a call that borrows its bytes is not covered by the borrow checker.
        for (i, step) in steps.iter().enumerate() {
            calls[i] = step.0;
        }
        calls
    }

    // Sees that every call answered as it is to.
    fn answered(rt: &impl Abort, answers: &[Answer], steps: &[(Call<'_>, Told)]) {
        for (i, (answer, step)) in answers.iter().zip(steps).enumerate() {
            assert_eq!(rt; Told::from(*answer), step.1, "{}", i);
        }
    }

    // What a trace leaves behind.
    #[derive(Clone, Copy)]
    struct After {
        body: [u8; 64],
        arrivals: ArrivalRecord,
    }

    // Runs a trace with a body that is 238 everywhere at first, and sees what every call answers.
    fn trace<'a, C: BlockCipher, T: Target>(
        rt: &impl Abort,
        sealed: &'a Sealed,
        cipher: &'a C,
        target: &mut T,
        page: &mut [u8],
        steps: &[(Call<'_>, Told)],
    ) -> Result<After, Fail>
        requires { length steps.now ≤ 32 }
    {
        let calls = calls_in(steps);
        let mut answers = [Answer::NotBuilt; 32];
        let mut body = [238; 64];
        let mut arrivals = ArrivalRecord::new(sealed.blocks)?;
        assert!(rt; sealed.length <= 64);
        let mut bench = Bench {
            cipher,
            tag: sealed.tag(),
            target,
            received: Received {
                body: &mut body[..sealed.length],
                arrivals: &mut arrivals,
            },
            page,
        };
        let progress = run(
            &sealed.listing,
            1,
            &mut bench,
            &calls[..steps.len()],
            &mut answers[..steps.len()],
            Until::End,
        )?;
        assert_eq!(rt; progress.made, steps.len());
        answered(rt, &answers, steps);
        Ok(After { body, arrivals })
    }

    // A file of one section in feedback, nine bytes on page 1: zeros for table, keys and sync.
    const WORKED: [u8; 45] = *b"\x01\x01\0\0\x01\x03\x20\0\x01\0\0\0\x09\0\0\0\
        \0\0\0\0\0\0\0\0\0\0\0\0\0\0\0\0\x10\x02\x03\x04\x01\x02\x03\x04\x05\x06\x07\x08\x14";

    const NINE: [u8; 9] = *b"\x01\x02\x03\x04\x05\x06\x07\x08\x11";

    #[test]
    fn worked(rt: HostRuntime) -> Result<(), Fail> {
        let table = SubstitutionTable::new([[0; 16]; 8])?;
        let key = [0; 8];
        let cipher = Gost::new(&table, &key);
        let mut body = [0; 64];
        body[..9].copy_from_slice(&WORKED[36..]);
        let sealed = Sealed {
            listing: list(&WORKED, 16, 4)?,
            table,
            key,
            body,
            length: 9,
            blocks: 2,
        };
        let mut memory = [255; 64];
        let mut locked = OPEN;
        locked[0] = true;
        let mut flash = Flash::new(&mut memory, 16, 4, 255, &locked)?;
        let mut page = [0; 16];
        let sent = &body;
        let steps = [
            (frame(1, &sent[8..9]), Told::Done),
            (give_block(1), no(12, 0)),
            (program_page(0), no(12, 0)),
            (frame(0, &sent[..8]), Told::Done),
            (give_block(0), plain(&NINE[..8])),
            (give_block(1), plain(&NINE[8..])),
            (give_block(2), no(10, 2)),
            (program_page(0), Told::Refused(15, 1, 4)),
            (erase_page(0), Told::Refused(14, 0, 4)),
            (erase_page(1), Told::Done),
            (program_page(0), Told::Done),
            (Call::Close, Told::Done),
            (Call::Verify, Told::Good),
        ];
        let after = trace(&rt, &sealed, &cipher, &mut flash, &mut page, &steps)?;
        assert_eq!(rt; &after.body[..9], &WORKED[36..]);
        let mut last = [255; 16];
        last[..9].copy_from_slice(&NINE);
        assert_eq!(rt; page, last);
        let mut wanted = [255; 64];
        wanted[16..25].copy_from_slice(&NINE);
        assert_eq!(rt; memory, wanted);
        Ok(())
    }

    // Sees that memory holds the image from a place on, fill after it to `stop`, and else nines.
    fn placed(
        rt: &impl Abort,
        memory: [u8; 192],
        at: usize,
        end: usize,
        stop: usize,
    ) -> Result<(), Fail>
        requires { (at ≤ 48) × ((end ≤ 64) × ((at + end ≤ stop) × (stop ≤ 192))) }
    {
        all(rt, &memory[..at], 9)?;
        assert_eq!(rt; &memory[at..at + end], &IMAGE[..end]);
        all(rt, &memory[at + end..stop], 255)?;
        all(rt, &memory[stop..], 9)
    }

    // Sees a section delivered to flash with pages of 16 bytes and to ram with pages of 48, from page 1
    // on: fill after the image, and no other page touched. Sixteen bytes are `per` blocks, and the last
    // block begins at `last`.
    fn delivered<C: BlockCipher>(
        rt: &impl Abort,
        cipher: &C,
        kind: u8,
        mode: u8,
        long: u8,
        per: u32,
        last: usize,
    ) -> Result<(), Fail>
        requires long { (57 ≤ long) × (long ≤ 64) }
        requires blocks { (1 ≤ per) × ((per ≤ 2) × ((48 ≤ last) × (last ≤ 56))) }
    {
        let sealed = sealing(cipher, kind, mode, 1, long)?;
        let end = long as usize;
        let sent = &sealed.body;
        let mut memory = [9; 192];
        let mut flash = Flash::new(&mut memory, 16, 12, 255, &OPEN)?;
        let mut page = [0; 16];
        let steps = [
            (frame(3 * per, &sent[48..end]), Told::Done),
            (frame(per, &sent[16..48]), Told::Done),
            (frame(0, &sent[..16]), Told::Done),
            (frame(0, &sent[..end]), Told::Done),
            (give_block(0), plain(&IMAGE[..64 - last])),
            (give_block(4 * per - 1), plain(&IMAGE[last..end])),
            (erase_page(1), Told::Done),
            (program_page(0), Told::Done),
            (program_page(0), Told::Refused(15, 1, 4)),
            (erase_page(4), Told::Done),
            (program_page(3), Told::Done),
            (erase_page(2), Told::Done),
            (program_page(1), Told::Done),
            (Call::Close, Told::Done),
            (Call::Verify, Told::Differs),
            (erase_page(3), Told::Done),
            (program_page(2), Told::Done),
            (Call::Verify, Told::Good),
        ];
        let after = trace(rt, &sealed, cipher, &mut flash, &mut page, &steps)?;
        assert_eq!(rt; &after.body[..end], &sent[..end]);
        placed(rt, memory, 16, end, 80)?;
        in_long_pages(rt, &sealed, cipher, end)
    }

    fn in_long_pages<C: BlockCipher>(
        rt: &impl Abort,
        sealed: &Sealed,
        cipher: &C,
        end: usize,
    ) -> Result<(), Fail>
        requires { (57 ≤ end) × (end ≤ 64) }
    {
        let mut memory = [9; 192];
        let mut ram = Ram::new(&mut memory, 48, 4, 255, &OPEN)?;
        let mut page = [0; 48];
        let steps = [
            (frame(0, &sealed.body[..end]), Told::Done),
            (program_page(1), Told::Done),
            (program_page(2), no(13, 3)),
            (program_page(0), Told::Done),
            (program_page(0), Told::Done),
            (Call::Close, Told::Done),
            (Call::Verify, Told::Good),
        ];
        let _ = trace(rt, sealed, cipher, &mut ram, &mut page, &steps)?;
        assert_eq!(rt; &page[..], &memory[96..144], "the last page read");
        placed(rt, memory, 48, end, 144)
    }

    #[test]
    fn ciphers_and_modes(rt: HostRuntime) -> Result<(), Fail> {
        let table = mixing()?;
        let gost = Gost::new(&table, &KEY);
        let mut keys = [[0; 16]; 10];
        spread_key(&[5; 32], &mut keys)?;
        let kuznyechik = Kuznyechik::new(&keys);
        delivered(&rt, &gost, GOST, CODEBOOK, 64, 2, 56)?;
        delivered(&rt, &gost, GOST, COUNTER, 57, 2, 56)?;
        delivered(&rt, &gost, GOST, FEEDBACK, 57, 2, 56)?;
        delivered(&rt, &kuznyechik, KUZNYECHIK, CODEBOOK, 64, 1, 48)?;
        delivered(&rt, &kuznyechik, KUZNYECHIK, FEEDBACK, 57, 1, 48)
    }

    // Sees what one altered bit of byte 16 of a body does to the image: that bit is altered, or not
    // that alone, and the bytes from `from` on and before `end` are others, if there are any.
    fn altered<C: BlockCipher>(
        rt: &impl Abort,
        cipher: &C,
        kind: u8,
        mode: u8,
        bit: u8,
        from: usize,
        end: usize,
    ) -> Result<(), Fail>
        requires { (from ≤ end) × (end ≤ 64) }
    {
        let sealed = sealing(cipher, kind, mode, 1, 64)?;
        let mut sent = sealed.body;
        sent[16] ^= 1;
        let mut memory = [9; 80];
        let mut ram = Ram::new(&mut memory, 16, 5, 255, &OPEN)?;
        let mut page = [0; 16];
        let steps = [
            (frame(0, &sent), Told::Done),
            (program_page(0), Told::Done),
            (program_page(1), Told::Done),
            (program_page(2), Told::Done),
            (program_page(3), Told::Done),
            (Call::Close, Told::Done),
            (Call::Verify, Told::Differs),
        ];
        let _ = trace(rt, &sealed, cipher, &mut ram, &mut page, &steps)?;
        assert_eq!(rt;
            &page[..],
            &memory[64..],
            "the last page, also where it differs"
        );
        let mut wanted = IMAGE;
        wanted[16] ^= bit;
        let got = &memory[16..];
        assert_eq!(rt; &got[..from], &wanted[..from]);
        assert_eq!(rt; &got[end..], &wanted[end..]);
        assert_eq!(rt; got[from..end] == wanted[from..end], from == end);
        Ok(())
    }

    #[test]
    fn one_altered_bit(rt: HostRuntime) -> Result<(), Fail> {
        let table = mixing()?;
        let gost = Gost::new(&table, &KEY);
        let mut keys = [[0; 16]; 10];
        spread_key(&[5; 32], &mut keys)?;
        let kuznyechik = Kuznyechik::new(&keys);
        altered(&rt, &gost, GOST, CODEBOOK, 0, 16, 24)?;
        altered(&rt, &gost, GOST, COUNTER, 1, 64, 64)?;
        altered(&rt, &gost, GOST, FEEDBACK, 1, 24, 32)?;
        altered(&rt, &kuznyechik, KUZNYECHIK, CODEBOOK, 0, 16, 32)?;
        altered(&rt, &kuznyechik, KUZNYECHIK, FEEDBACK, 1, 32, 48)
    }

    #[test]
    fn frames(rt: HostRuntime) -> Result<(), Fail> {
        let table = mixing()?;
        let cipher = Gost::new(&table, &KEY);
        let sealed = sealing(&cipher, GOST, FEEDBACK, 1, 43)?;
        // The sent body, and one with other bytes in blocks 3, 4 and 5.
        let mut bodies = [sealed.body, sealed.body];
        bodies[1][31] ^= 1;
        bodies[1][32] ^= 128;
        bodies[1][42] ^= 1;
        let lent = &bodies;
        let sent = &lent[0];
        let other = &lent[1];
        let mut memory = [9; 64];
        let mut ram = Ram::new(&mut memory, 16, 4, 255, &OPEN)?;
        let mut page = [7; 16];
        let steps = [
            (frame(0, &[]), no(10, 0)),
            (frame(6, &[]), no(10, 6)),
            (frame(6, &sent[..8]), no(10, 6)),
            (frame(4294967295, &sent[..8]), no(10, 4294967295)),
            (frame(5, &sent[40..44]), no(10, 5)),
            (frame(0, &sent[..44]), no(10, 0)),
            (frame(5, &sent[40..42]), no(10, 5)),
            (frame(4, &sent[32..42]), no(10, 4)),
            (frame(0, &sent[..7]), no(10, 0)),
            (frame(0, &sent[..9]), no(10, 0)),
            (frame(2, &sent[16..32]), Told::Done),
            (frame(2, &sent[16..32]), Told::Done),
            (frame(5, &sent[40..43]), Told::Done),
            (frame(5, &sent[40..43]), Told::Done),
            (frame(5, &other[40..43]), no(11, 5)),
            (frame(5, &other[40..42]), no(10, 5)),
            (frame(1, &other[8..43]), no(11, 3)),
            (frame(3, &other[24..33]), no(10, 3)),
            (frame(4, &other[32..43]), no(11, 5)),
            (frame(3, &sent[24..40]), Told::Done),
            (frame(4, &other[32..43]), no(11, 4)),
            (frame(1, &sent[8..16]), Told::Done),
            (Call::Close, no(12, 0)),
        ];
        let after = trace(&rt, &sealed, &cipher, &mut ram, &mut page, &steps)?;
        all(&rt, &after.body[..8], 238)?;
        assert_eq!(rt; &after.body[8..43], &sent[8..43]);
        all(&rt, &after.body[43..], 238)?;
        assert_eq!(rt; after.arrivals.has(0), false);
        assert_eq!(rt; after.arrivals.first_missing(1, 6), None);
        assert_eq!(rt; after.arrivals.has(6), false);
        every(&rt, page, 7)?;
        every(&rt, memory, 9)
    }

    // A conflict leaves the body and the record as they were, also where other blocks of the frame are
    // new.
    #[test]
    fn conflicts(rt: HostRuntime) -> Result<(), Fail> {
        let table = mixing()?;
        let cipher = Gost::new(&table, &KEY);
        let sealed = sealing(&cipher, GOST, COUNTER, 1, 43)?;
        let sent = &sealed.body;
        let mut memory = [9; 64];
        let mut ram = Ram::new(&mut memory, 16, 4, 255, &OPEN)?;
        let steps = [
            (frame(2, &[1; 16]), Told::Done),
            (frame(0, &[1; 43]), Told::Done),
            (frame(0, &sent[..43]), no(11, 0)),
            (frame(5, &[1; 3]), Told::Done),
        ];
        let after = trace(&rt, &sealed, &cipher, &mut ram, &mut [0; 16], &steps)?;
        all(&rt, &after.body[..43], 1)?;
        let steps = [
            (frame(2, &[1; 16]), Told::Done),
            (frame(0, &sent[..43]), no(11, 2)),
            (frame(3, &sent[24..43]), no(11, 3)),
            (frame(0, &sent[..24]), no(11, 2)),
        ];
        let after = trace(&rt, &sealed, &cipher, &mut ram, &mut [0; 16], &steps)?;
        all(&rt, &after.body[..16], 238)?;
        all(&rt, &after.body[16..32], 1)?;
        all(&rt, &after.body[32..], 238)?;
        assert_eq!(rt; after.arrivals.first_missing(0, 6), Some(0));
        assert_eq!(rt; after.arrivals.first_missing(1, 6), Some(1));
        assert_eq!(rt; after.arrivals.first_missing(2, 6), Some(4));
        assert_eq!(rt; after.arrivals.first_missing(5, 6), Some(5));
        Ok(())
    }

    #[test]
    fn blocks(rt: HostRuntime) -> Result<(), Fail> {
        let table = mixing()?;
        let cipher = Gost::new(&table, &KEY);
        let sealed = sealing(&cipher, GOST, FEEDBACK, 1, 43)?;
        let sent = &sealed.body;
        let mut memory = [9; 64];
        let mut ram = Ram::new(&mut memory, 16, 4, 255, &OPEN)?;
        let steps = [
            (give_block(0), no(12, 0)),
            (give_block(6), no(10, 6)),
            (give_block(4294967295), no(10, 4294967295)),
            (frame(0, &sent[..8]), Told::Done),
            (give_block(0), plain(&IMAGE[..8])),
            (give_block(1), no(12, 1)),
            (frame(3, &sent[24..32]), Told::Done),
            (give_block(3), no(12, 2)),
            (give_block(4), no(12, 4)),
            (give_block(5), no(12, 4)),
            (frame(5, &sent[40..43]), Told::Done),
            (give_block(5), no(12, 4)),
            (frame(4, &sent[32..40]), Told::Done),
            (give_block(4), plain(&IMAGE[32..40])),
            (give_block(5), plain(&IMAGE[40..43])),
            (frame(2, &sent[16..24]), Told::Done),
            (give_block(3), plain(&IMAGE[24..32])),
            (give_block(2), no(12, 1)),
        ];
        let _ = trace(&rt, &sealed, &cipher, &mut ram, &mut [0; 16], &steps)?;
        every(&rt, memory, 9)
    }

    #[test]
    fn blocks_in_counter(rt: HostRuntime) -> Result<(), Fail> {
        let table = mixing()?;
        let cipher = Gost::new(&table, &KEY);
        let sealed = sealing(&cipher, GOST, COUNTER, 1, 43)?;
        let sent = &sealed.body;
        let mut memory = [9; 64];
        let mut ram = Ram::new(&mut memory, 16, 4, 255, &OPEN)?;
        let steps = [
            (frame(3, &sent[24..32]), Told::Done),
            (give_block(3), plain(&IMAGE[24..32])),
            (give_block(2), no(12, 2)),
            (give_block(4), no(12, 4)),
            (frame(5, &sent[40..43]), Told::Done),
            (give_block(5), plain(&IMAGE[40..43])),
            (program_page(2), no(12, 4)),
            (frame(2, &sent[16..24]), Told::Done),
            (program_page(1), Told::Done),
        ];
        let _ = trace(&rt, &sealed, &cipher, &mut ram, &mut [0; 16], &steps)?;
        assert_eq!(rt; &memory[32..48], &IMAGE[16..32]);
        Ok(())
    }

    // Sees that memory holds pages 0 and 2 of an image of 40 bytes, and else fill.
    fn without_second(rt: &impl Abort, memory: [u8; 64]) -> Result<(), Fail> {
        all(rt, &memory[..16], 255)?;
        assert_eq!(rt; &memory[16..32], &IMAGE[..16]);
        all(rt, &memory[32..48], 255)?;
        assert_eq!(rt; &memory[48..56], &IMAGE[32..40]);
        all(rt, &memory[56..], 255)
    }

    #[test]
    fn states(rt: HostRuntime) -> Result<(), Fail> {
        let table = mixing()?;
        let cipher = Gost::new(&table, &KEY);
        let sealed = sealing(&cipher, GOST, CODEBOOK, 1, 40)?;
        let sent = &sealed.body;
        let mut memory = [9; 64];
        let mut flash = Flash::new(&mut memory, 16, 4, 255, &OPEN)?;
        let mut page = [0; 16];
        let steps = [
            (Call::Reopen, Told::NotBuilt),
            (Call::Verify, Told::NotBuilt),
            (frame(0, &sent[..32]), Told::Done),
            (Call::Close, no(12, 4)),
            (frame(4, &sent[32..40]), Told::Done),
            (Call::Close, Told::Done),
            (Call::Close, Told::NotBuilt),
            (frame(0, &sent[..8]), Told::NotBuilt),
            (frame(9, &[]), Told::NotBuilt),
            (give_block(4), plain(&IMAGE[32..40])),
            (give_block(5), no(10, 5)),
            (erase_page(1), Told::Done),
            (erase_page(2), Told::Done),
            (program_page(0), Told::Done),
            (Call::Reopen, Told::Done),
            (Call::Reopen, Told::NotBuilt),
            (Call::Verify, Told::NotBuilt),
            (program_page(1), Told::Done),
            (frame(0, &[0; 8]), no(11, 0)),
            (frame(0, &sent[..40]), Told::Done),
            (Call::Close, Told::Done),
            (Call::Verify, Told::Differs),
            (erase_page(3), Told::Done),
            (program_page(2), Told::Done),
            (program_page(2), Told::Refused(15, 3, 4)),
            (Call::Verify, Told::Good),
            (erase_page(0), Told::Done),
            (Call::Verify, Told::Good),
            (erase_page(2), Told::Done),
            (Call::Verify, Told::Differs),
            (erase_page(4), Told::Refused(13, 4, 4)),
        ];
        let _ = trace(&rt, &sealed, &cipher, &mut flash, &mut page, &steps)?;
        let mut last = [255; 16];
        last[..8].copy_from_slice(&IMAGE[32..40]);
        assert_eq!(rt; page, last, "the last page read");
        without_second(&rt, memory)
    }

    // Programs an image page from the first blocks of a section's body, and sees the answer, and that
    // the page buffer then holds `prepared`, or stays where there is none.
    fn programs<C: BlockCipher, T: Target>(
        rt: &impl Abort,
        section: &Section,
        cipher: &C,
        target: &mut T,
        received: ReceivedRef<'_, '_>,
        j: u16,
        wanted: Told,
        prepared: &[u8],
    ) -> Result<(), Fail>
        requires { length prepared.now ≤ 16 }
    {
        let mut page = [7; 16];
        let answer = match program(section, cipher, target, received, j, &mut page) {
            Ok(()) => Told::Done,
            Err(refusal) => Told::from(refusal),
        };
        assert_eq!(rt; answer, wanted, "{}", j);
        let end = prepared.len();
        assert_eq!(rt; &page[..end], prepared);
        if end == 0 {
            all(rt, &page, 7)
        } else {
            all(rt, &page[end..], 255)
        }
    }

    // What programming needs, in feedback; page 2 is locked, and the last page may be off the target.
    fn needs<T: Target>(
        rt: &impl Abort,
        target: &mut T,
        third: Told,
        shown: &[u8],
    ) -> Result<(), Fail>
        requires { length shown.now ≤ 16 }
    {
        let table = mixing()?;
        let cipher = Gost::new(&table, &KEY);
        let sealed = sealing(&cipher, GOST, FEEDBACK, 1, 43)?;
        let sent = &sealed.body;
        let mut body = [0; 43];
        let mut arrivals = ArrivalRecord::new(6)?;
        let state = open(&sealed.listing, 1, &cipher, &body, &mut arrivals)?;
        let mut received = Received {
            body: &mut body,
            arrivals: &mut arrivals,
        };
        let section = state.section();
        for (j, wanted) in [(3u16, no(13, 4)), (65535, no(13, 65536)), (0, no(12, 0))] {
            programs(
                rt,
                &section,
                &cipher,
                target,
                received.shared(),
                j,
                wanted,
                &[],
            )?;
        }
        let state = takes(state, &mut received, 2, &sent[16..32])?;
        programs(
            rt,
            &section,
            &cipher,
            target,
            received.shared(),
            1,
            no(12, 1),
            &[],
        )?;
        let state = takes(state, &mut received, 1, &sent[8..16])?;
        programs(
            rt,
            &section,
            &cipher,
            target,
            received.shared(),
            0,
            no(12, 0),
            &[],
        )?;
        let unready = Told::Refused(14, 2, 4);
        let second = &IMAGE[16..32];
        programs(
            rt,
            &section,
            &cipher,
            target,
            received.shared(),
            1,
            unready,
            second,
        )?;
        let state = takes(state, &mut received, 5, &sent[40..43])?;
        let _ = takes(state, &mut received, 4, &sent[32..40])?;
        programs(
            rt,
            &section,
            &cipher,
            target,
            received.shared(),
            2,
            third,
            shown,
        )
    }

    // Takes a frame that is not refused.
    fn takes(
        state: Receiving,
        received: &mut Received<'_, '_>,
        first: u32,
        bytes: &[u8],
    ) -> Result<Receiving, Fail> {
        state
            .take_frame(received, first, bytes)
            .map_err(|_| Fail::new("refused"))
    }

    // Sees that memory holds page 2 of an image of 43 bytes, and else nines.
    fn third_page(rt: &impl Abort, memory: [u8; 64]) {
        let mut last = [255; 16];
        last[..11].copy_from_slice(&IMAGE[32..43]);
        let mut wanted = [9; 64];
        wanted[48..].copy_from_slice(&last);
        assert_eq!(rt; memory, wanted);
    }

    #[test]
    fn pages(rt: HostRuntime) -> Result<(), Fail> {
        let mut locked = OPEN;
        locked[2] = true;
        let mut memory = [9; 64];
        let mut flash = Flash::new(&mut memory, 16, 4, 255, &locked)?;
        needs(&rt, &mut flash, Told::Refused(15, 3, 4), &IMAGE[32..43])?;
        flash.erase(3)?;
        needs(&rt, &mut flash, Told::Done, &IMAGE[32..43])?;
        needs(&rt, &mut flash, Told::Refused(15, 3, 4), &IMAGE[32..43])?;
        needs(
            &rt,
            &mut Ram::new(&mut memory, 16, 4, 255, &locked)?,
            Told::Done,
            &IMAGE[32..43],
        )?;
        let mut short = [9; 48];
        needs(
            &rt,
            &mut Ram::new(&mut short, 16, 3, 255, &locked)?,
            no(13, 3),
            &[],
        )?;
        every(&rt, short, 9)?;
        third_page(&rt, memory);
        Ok(())
    }

    // Sees that opening is refused, and that the record stays.
    fn unopened<C: BlockCipher>(
        rt: &impl Abort,
        sealed: &Sealed,
        number: u32,
        cipher: &C,
        long: usize,
        arrivals: &mut ArrivalRecord,
        wanted: Told,
    ) -> Result<(), Fail> {
        assert!(rt; long <= 64);
        let was = arrivals.has(0);
        let body = &sealed.body[..long];
        let answer = open(&sealed.listing, number, cipher, body, arrivals);
        assert_eq!(rt; answer.err().map(Told::from), Some(wanted));
        assert_eq!(rt; arrivals.has(0), was);
        Ok(())
    }

    #[test]
    fn opening(rt: HostRuntime) -> Result<(), Fail> {
        let table = mixing()?;
        let gost = Gost::new(&table, &KEY);
        let keys = [[0; 16]; 10];
        let kuznyechik = Kuznyechik::new(&keys);
        let sealed = sealing(&gost, GOST, FEEDBACK, 1, 43)?;
        let mut body = [0; 43];
        let mut arrivals = ArrivalRecord::new(6)?;
        let state = open(&sealed.listing, 1, &gost, &body, &mut arrivals)?;
        let mut received = Received {
            body: &mut body,
            arrivals: &mut arrivals,
        };
        let _ = takes(state, &mut received, 0, &sealed.body[..43])?;
        let [none, past] = [Told::Refused(5, 0, 2), Told::Refused(5, 2, 2)];
        unopened(&rt, &sealed, 0, &gost, 43, &mut arrivals, none)?;
        unopened(&rt, &sealed, 2, &kuznyechik, 42, &mut arrivals, past)?;
        for long in [42usize, 44] {
            unopened(&rt, &sealed, 1, &gost, long, &mut arrivals, no(9, 0))?;
        }
        unopened(&rt, &sealed, 1, &kuznyechik, 43, &mut arrivals, no(9, 0))?;
        for blocks in [5usize, 7] {
            let mut other = ArrivalRecord::new(blocks)?;
            unopened(&rt, &sealed, 1, &gost, 43, &mut other, no(9, 0))?;
        }
        assert_eq!(rt; ArrivalRecord::new(2048)?.blocks(), 2048);
        assert_eq!(rt; ArrivalRecord::new(2049).is_err(), true);
        assert_eq!(rt; arrivals.first_missing(0, 6), None);
        let _ = open(&sealed.listing, 1, &gost, &body, &mut arrivals)?;
        for k in 0..6u32 {
            assert_eq!(rt; arrivals.first_missing(k, 6), Some(k));
        }
        Ok(())
    }

    // Sees that giving refuses a cipher, a body, a record or a buffer that is not the section's with 9,
    // whatever else is wrong, and that the buffer stays.
    fn ungiven<C: BlockCipher>(
        rt: &impl Abort,
        section: &Section,
        cipher: &C,
        long: usize,
        blocks: usize,
        room: usize,
    ) -> Result<(), Fail> {
        assert!(rt; long <= 64 && room <= 64);
        let arrivals = ArrivalRecord::new(blocks)?;
        let received = ReceivedRef {
            body: &IMAGE[..long],
            arrivals: &arrivals,
        };
        let mut out = [7; 64];
        let answer = give(section, cipher, received, 9, &mut out[..room]);
        assert_eq!(rt; answer.err().map(Told::from), Some(no(9, 0)));
        every(rt, out, 7)
    }

    // The same for programming.
    fn unprogrammed<C: BlockCipher>(
        rt: &impl Abort,
        section: &Section,
        cipher: &C,
        long: usize,
        blocks: usize,
        room: usize,
    ) -> Result<(), Fail> {
        assert!(rt; long <= 64 && room <= 64);
        let arrivals = ArrivalRecord::new(blocks)?;
        let received = ReceivedRef {
            body: &IMAGE[..long],
            arrivals: &arrivals,
        };
        let mut page = [7; 64];
        let mut memory = [9; 16];
        let mut ram = Ram::new(&mut memory, 16, 1, 255, &OPEN)?;
        let answer = program(section, cipher, &mut ram, received, 9, &mut page[..room]);
        assert_eq!(rt; answer.err().map(Told::from), Some(no(9, 0)));
        every(rt, memory, 9)?;
        every(rt, page, 7)
    }

    // The state that a call gives back that is refused with 9.
    fn given_back<const CLOSED: bool>(
        rt: &impl Abort,
        answer: Result<Download<CLOSED>, Refused<Receiving>>,
    ) -> Result<Receiving, Fail> {
        match answer {
            Ok(_) => Err(Fail::new("not refused")),
            Err(refused) => {
                assert_eq!(rt; Told::from(refused.refusal), no(9, 0));
                Ok(refused.state)
            }
        }
    }

    // The same for a frame.
    fn untaken(
        rt: &impl Abort,
        state: Receiving,
        long: usize,
        blocks: usize,
        first: u32,
        bytes: &[u8],
    ) -> Result<Receiving, Fail> {
        assert!(rt; long <= 64);
        let mut body = [7; 64];
        let mut arrivals = ArrivalRecord::new(blocks)?;
        let mut received = Received {
            body: &mut body[..long],
            arrivals: &mut arrivals,
        };
        let state = given_back(rt, state.take_frame(&mut received, first, bytes))?;
        assert_eq!(rt; arrivals.has(0), false);
        every(rt, body, 7)?;
        Ok(state)
    }

    // The same for closing.
    fn unclosed(
        rt: &impl Abort,
        state: Receiving,
        long: usize,
        blocks: usize,
    ) -> Result<Receiving, Fail> {
        assert!(rt; long <= 64);
        let arrivals = ArrivalRecord::new(blocks)?;
        let received = ReceivedRef {
            body: &IMAGE[..long],
            arrivals: &arrivals,
        };
        given_back(rt, state.close(received))
    }

    #[test]
    fn buffers(rt: HostRuntime) -> Result<(), Fail> {
        let table = mixing()?;
        let gost = Gost::new(&table, &KEY);
        let keys = [[0; 16]; 10];
        let kuznyechik = Kuznyechik::new(&keys);
        let sealed = sealing(&gost, GOST, FEEDBACK, 1, 43)?;
        let mut arrivals = ArrivalRecord::new(6)?;
        let mut state = open(&sealed.listing, 1, &gost, &sealed.body[..43], &mut arrivals)?;
        let section = state.section();
        for room in [0usize, 7, 9, 16] {
            ungiven(&rt, &section, &gost, 43, 6, room)?;
        }
        for room in [0usize, 8, 15, 17] {
            unprogrammed(&rt, &section, &gost, 43, 6, room)?;
        }
        for (long, blocks) in [(0usize, 0usize), (42, 6), (44, 6), (43, 5), (43, 7)] {
            ungiven(&rt, &section, &gost, long, blocks, 8)?;
            unprogrammed(&rt, &section, &gost, long, blocks, 16)?;
            state = untaken(&rt, state, long, blocks, 0, &[1; 8])?;
            state = untaken(&rt, state, long, blocks, 99, &[])?;
            state = unclosed(&rt, state, long, blocks)?;
        }
        ungiven(&rt, &section, &kuznyechik, 43, 6, 8)?;
        ungiven(&rt, &section, &kuznyechik, 43, 6, 16)?;
        unprogrammed(&rt, &section, &kuznyechik, 43, 6, 16)
    }

    // Sees that a page buffer begins so, and is 7 after that.
    fn begins(rt: &impl Abort, page: [u8; 48], front: &[u8]) -> Result<(), Fail>
        requires { length front.now ≤ 48 }
    {
        assert_eq!(rt; &page[..front.len()], front);
        all(rt, &page[front.len()..], 7)
    }

    // Verifies on ram with so many pages of that memory, with a page buffer of so many bytes; sees the
    // answer, and what the page buffer then holds.
    fn verifies(
        rt: &impl Abort,
        state: Closed,
        sealed: &Sealed,
        memory: [u8; 96],
        pages: u32,
        room: usize,
        wanted: Told,
        kept: &[u8],
    ) -> Result<Closed, Fail>
        requires { length kept.now ≤ 48 }
    {
        assert!(rt; pages <= 6 && room <= 48);
        let mut lent = memory;
        let ram = Ram::new(&mut lent[..16 * pages as usize], 16, pages, 255, &OPEN)?;
        let mut page = [7; 48];
        let answer = state.verify(&ram, sealed.tag(), &mut page[..room]);
        let (answer, state) = match answer {
            Ok(verified) => (Told::from(verified.verdict), verified.state),
            Err(refused) => (Told::from(refused.refusal), refused.state),
        };
        assert_eq!(rt; answer, wanted);
        begins(rt, page, kept)?;
        Ok(state)
    }

    // The image from byte 16 on, and other bytes around it.
    fn around(before: u8, after: u8) -> [u8; 96] {
        let mut memory = [before; 96];
        memory[16..59].copy_from_slice(&IMAGE[..43]);
        memory[59..].fill(after);
        memory
    }

    // The download of a section, closed.
    fn closed<C: BlockCipher>(sealed: &Sealed, cipher: &C) -> Result<Closed, Fail> {
        let mut body = [0; 43];
        let mut arrivals = ArrivalRecord::new(6)?;
        let state = open(&sealed.listing, 1, cipher, &body, &mut arrivals)?;
        let mut received = Received {
            body: &mut body,
            arrivals: &mut arrivals,
        };
        let state = takes(state, &mut received, 0, &sealed.body[..43])?;
        let closed = state.close(received.shared());
        closed.map_err(|_| Fail::new("not closed"))
    }

    #[test]
    fn verdicts(rt: HostRuntime) -> Result<(), Fail> {
        let table = mixing()?;
        let cipher = Gost::new(&table, &KEY);
        let near = sealing(&cipher, GOST, FEEDBACK, 1, 43)?;
        let mut state = closed(&near, &cipher)?;
        // Neither the fill nor other pages count, and the buffer keeps the last page.
        for (memory, pages) in [
            (around(255, 255), 6u32),
            (around(1, 2), 6),
            (around(1, 2), 4),
        ] {
            state = verifies(
                &rt,
                state,
                &near,
                memory,
                pages,
                16,
                Told::Good,
                &memory[48..64],
            )?;
        }
        let mut memory = around(1, 2);
        memory[16] ^= 1;
        state = verifies(
            &rt,
            state,
            &near,
            memory,
            6,
            16,
            Told::Differs,
            &memory[48..64],
        )?;
        memory[16] ^= 1;
        memory[58] ^= 128;
        state = verifies(
            &rt,
            state,
            &near,
            memory,
            6,
            16,
            Told::Differs,
            &memory[48..64],
        )?;
        // Refused, with the buffer as it was.
        for (pages, room, wanted) in [
            (6u32, 15usize, no(9, 0)),
            (6, 48, no(9, 0)),
            (3, 17, no(9, 0)),
            (3, 16, no(13, 3)),
            (1, 16, no(13, 1)),
        ] {
            state = verifies(&rt, state, &near, memory, pages, room, wanted, &[])?;
        }
        let far = sealing(&cipher, GOST, FEEDBACK, 5, 43)?;
        let state = closed(&far, &cipher)?;
        let state = verifies(&rt, state, &far, memory, 4, 16, no(13, 5), &[])?;
        let _ = verifies(&rt, state, &far, memory, 6, 16, no(13, 6), &[])?;
        Ok(())
    }

    fn unanswered(rt: &impl Abort, answers: [Answer; 5]) {
        for answer in answers {
            assert_eq!(rt; Told::from(answer), Told::NotBuilt);
        }
    }

    // Sees that a trace is refused as a whole, and that nothing changes.
    fn unrun<'a, C: BlockCipher>(
        rt: &impl Abort,
        sealed: &'a Sealed,
        number: u32,
        cipher: &'a C,
        long: usize,
        arrivals: &mut ArrivalRecord,
        room: usize,
        wanted: Told,
    ) -> Result<(), Fail>
        requires { (long ≤ 64) × (room ≤ 5) }
    {
        let was = arrivals.has(0);
        let mut memory = [9; 64];
        let mut ram = Ram::new(&mut memory, 16, 4, 255, &OPEN)?;
        let mut body = [7; 64];
        let mut page = [7; 16];
        let calls = [
            frame(0, &sealed.body[..16]),
            erase_page(0),
            program_page(0),
            Call::Close,
        ];
        let mut answers = [Answer::NotBuilt; 5];
        let mut bench = Bench {
            cipher,
            tag: sealed.tag(),
            target: &mut ram,
            received: Received {
                body: &mut body[..long],
                arrivals,
            },
            page: &mut page,
        };
        let answer = run(
            &sealed.listing,
            number,
            &mut bench,
            &calls,
            &mut answers[..room],
            Until::End,
        );
        assert_eq!(rt; answer.err().map(Told::from), Some(wanted));
        assert_eq!(rt; arrivals.has(0), was);
        unanswered(rt, answers);
        every(rt, body, 7)?;
        every(rt, page, 7)?;
        every(rt, memory, 9)
    }

    #[test]
    fn traces_refused(rt: HostRuntime) -> Result<(), Fail> {
        let table = mixing()?;
        let gost = Gost::new(&table, &KEY);
        let keys = [[0; 16]; 10];
        let kuznyechik = Kuznyechik::new(&keys);
        let sealed = sealing(&gost, GOST, FEEDBACK, 1, 43)?;
        let mut body = [0; 43];
        let mut arrivals = ArrivalRecord::new(6)?;
        let state = open(&sealed.listing, 1, &gost, &body, &mut arrivals)?;
        let mut received = Received {
            body: &mut body,
            arrivals: &mut arrivals,
        };
        let _ = takes(state, &mut received, 0, &sealed.body[..8])?;
        unrun(&rt, &sealed, 1, &gost, 43, &mut arrivals, 3, no(9, 0))?;
        unrun(&rt, &sealed, 1, &gost, 43, &mut arrivals, 5, no(9, 0))?;
        unrun(&rt, &sealed, 2, &gost, 43, &mut arrivals, 0, no(9, 0))?;
        let past = Told::Refused(5, 2, 2);
        unrun(&rt, &sealed, 2, &gost, 42, &mut arrivals, 4, past)?;
        unrun(&rt, &sealed, 1, &gost, 42, &mut arrivals, 4, no(9, 0))?;
        unrun(&rt, &sealed, 1, &kuznyechik, 43, &mut arrivals, 4, no(9, 0))?;
        let mut other = ArrivalRecord::new(5)?;
        unrun(&rt, &sealed, 1, &gost, 43, &mut other, 4, no(9, 0))
    }

    // A page buffer of another length than the target's pages, and an image off the target.
    #[test]
    fn traces_off_the_target(rt: HostRuntime) -> Result<(), Fail> {
        let table = mixing()?;
        let cipher = Gost::new(&table, &KEY);
        let sealed = sealing(&cipher, GOST, FEEDBACK, 2, 43)?;
        let sent = &sealed.body;
        let mut memory = [9; 64];
        let mut ram = Ram::new(&mut memory, 16, 4, 255, &OPEN)?;
        let steps = [
            (program_page(9), no(9, 0)),
            (frame(0, &sent[..43]), Told::Done),
            (Call::Close, Told::Done),
            (program_page(0), no(9, 0)),
            (Call::Verify, no(9, 0)),
        ];
        let mut page = [7; 15];
        let _ = trace(&rt, &sealed, &cipher, &mut ram, &mut page, &steps)?;
        every(&rt, page, 7)?;
        let mut page = [7; 16];
        let steps = [
            (program_page(2), no(13, 4)),
            (program_page(3), no(13, 5)),
            (program_page(1), no(12, 1)),
            (frame(0, &sent[..43]), Told::Done),
            (Call::Close, Told::Done),
            (Call::Verify, no(13, 4)),
            (program_page(2), no(13, 4)),
        ];
        let _ = trace(&rt, &sealed, &cipher, &mut ram, &mut page, &steps)?;
        every(&rt, page, 7)?;
        every(&rt, memory, 9)
    }
}
