//! The masks that counter and feedback xor to a block.

ghost use Rattle.std.specs.Prelude.{◌≡◌, ℕ, suc, true, length, take, drop};
ghost use Rattle.blocks.specs.Bytes.{word, xored};
ghost use Rattle.modes.specs.Counters.{third, fourth, third_step, fourth_step, steps, counters_from};
ghost use Rattle.modes.specs.Steps.{mask_by, cipher_step, plain_step, Pad, Fits, Kept, FromSync};
ghost use Rattle.modes.specs.Calls.{agrees, sync_bytes};

use crate::mode::{Mode, Sync};
use blocks::{BlockCipher, xor_into};

/// Y and Z, from which the counters of each block come.
#[derive(Clone, Copy)]
pub struct Counters {
    pub third: u32,
    pub fourth: u32,
}

impl Counters {
    /// N3 and N4 of block `i`, straight from Y, Z and `i`: what `i` + 1 steps give. N4 is one remainder.
    pub fn of_block(self, i: u64) -> Counters
        ensures third { result.third ≡ third self.third i }
        ensures fourth { result.fourth ≡ fourth self.fourth i }
        ensures stepped { (result.third ≡ steps third_step (suc i) self.third) × (result.fourth ≡ steps fourth_step (suc i) self.fourth) }
    {
        let third = u128::from(self.third) + (u128::from(i) + 1) * 0x0101_0101;
        let fourth = u128::from(self.fourth) + (u128::from(i) + 1) * 0x0101_0104;
        Counters {
            third: (third % 0x1_0000_0000) as u32,
            fourth: ((fourth - 1) % 0xffff_ffff) as u32 + 1,
        }
    }

    /// The counters of block `i`, written as a block of eight bytes.
    fn write(self, i: u64, pad: &mut [u8])
        requires { length pad.old ≡ 8 }
        ensures { pad.new ≡ counters_from self.third self.fourth i }
    {
        let at = self.of_block(i);
        pad[..4].copy_from_slice(&at.third.to_le_bytes());
        pad[4..].copy_from_slice(&at.fourth.to_le_bytes());
    }

    /// Y and Z of a block of eight bytes.
    fn read(block: [u8; 8]) -> Counters
        ensures third { result.third ≡ word (take 4 block) }
        ensures fourth { result.fourth ≡ word (drop 4 block) }
    {
        let [a, b, c, d, e, f, g, h] = block;
        Counters {
            third: u32::from_le_bytes([a, b, c, d]),
            fourth: u32::from_le_bytes([e, f, g, h]),
        }
    }

    /// Y and Z of counter mode from the sync; the other modes have none.
    fn from_sync<C: BlockCipher>(cipher: &C, mode: Mode, sync: Option<Sync>) -> Counters
        requires { agrees (C.BlockCipher.map cipher.now).size mode sync ≡ true }
        ensures { FromSync mode ((C.BlockCipher.map cipher.now).enciphered (sync_bytes (C.BlockCipher.map cipher.now).size sync)) result.third result.fourth }
    {
        match (mode, sync) {
            (Mode::Counter, Some(Sync { first, .. })) => {
                let mut block = first.to_le_bytes();
                let _ = cipher.encipher(&mut block);
                Counters::read(block)
            }
            _ => Counters {
                third: 0,
                fourth: 0,
            },
        }
    }
}

/// A cipher in a mode with a sync that agrees, and Y and Z of counter mode.
// The pad is lent beside it: of a struct that holds a `&mut` no ghost field is proved.
#[derive(Drop)]
pub(crate) struct Chain<'a, C: BlockCipher> {
    pub(crate) cipher: &'a C,
    pub(crate) mode: Mode,
    pub(crate) sync: Option<Sync>,
    pub(crate) from: Counters,
    ghost agreed: { agrees (C.BlockCipher.map cipher.now).size mode sync ≡ true },
    ghost counted: { FromSync mode ((C.BlockCipher.map cipher.now).enciphered (sync_bytes (C.BlockCipher.map cipher.now).size sync)) from.third from.fourth },
}

impl<'a, C: BlockCipher> Chain<'a, C> {
    /// Works out Y and Z from the sync.
    pub(crate) fn new(cipher: &'a C, mode: Mode, sync: Option<Sync>) -> Chain<'a, C>
        requires { agrees (C.BlockCipher.map cipher.now).size mode sync ≡ true }
        ensures cipher { result.cipher.now ≡ cipher.now }
        ensures mode { result.mode ≡ mode }
        ensures sync { result.sync ≡ sync }
    {
        let from = Counters::from_sync(cipher, mode, sync);
        Chain {
            cipher,
            mode,
            sync,
            from,
        }
    }

    /// Writes the sync into the pad: its first word, and its second where there is room.
    pub(crate) fn start(&self, pad: &mut [u8])
        requires { Pad (C.BlockCipher.map self.now.cipher.now) pad.old }
        ensures { pad.new ≡ sync_bytes (C.BlockCipher.map self.now.cipher.now).size self.now.sync }
    {
        let n = self.cipher.block_length();
        let Some(Sync { first, second }) = self.sync else {
            pad.fill(0);
            return;
        };
        pad[..8].copy_from_slice(&first.to_le_bytes());
        if n == 16 {
            pad[8..].copy_from_slice(&second.to_le_bytes());
        }
    }

    /// Turns the pad into the mask of block `i`.
    fn mask(&self, i: u64, pad: &mut [u8])
        requires { Pad (C.BlockCipher.map self.now.cipher.now) pad.old }
        ensures { pad.new ≡ mask_by self.now.mode (C.BlockCipher.map self.now.cipher.now) self.now.from.third self.now.from.fourth i pad.old }
    {
        match self.mode {
            Mode::Codebook => {}
            Mode::Counter => {
                self.from.write(i, pad);
                let _ = self.cipher.encipher(pad);
            }
            Mode::Feedback => {
                let _ = self.cipher.encipher(pad);
            }
        }
    }

    /// Turns the pad into the mask of block `i`, and xors it to the block.
    fn xor_mask(&self, i: u64, pad: &mut [u8], block: &mut [u8])
        requires { Pad (C.BlockCipher.map self.now.cipher.now) pad.old }
        ensures { block.new ≡ xored block.old (mask_by self.now.mode (C.BlockCipher.map self.now.cipher.now) self.now.from.third self.now.from.fourth i pad.old) }
    {
        self.mask(i, pad);
        xor_into(block, pad);
    }

    /// Enciphers block `i` in place. The pad holds what feedback enciphers for it, and then for the next.
    pub(crate) fn encipher(&self, i: u64, pad: &mut [u8], block: &mut [u8])
        requires pad { Pad (C.BlockCipher.map self.now.cipher.now) pad.old }
        requires fits { Fits self.now.mode (length pad.old) (length block.old) }
        ensures block { block.new ≡ cipher_step self.now.mode (C.BlockCipher.map self.now.cipher.now) self.now.from.third self.now.from.fourth i pad.old block.old }
        ensures pad { Kept self.now.mode (length pad.old) block.new pad.new }
    {
        match self.mode {
            Mode::Codebook => {
                let _ = self.cipher.encipher(block);
            }
            Mode::Counter | Mode::Feedback => {
                self.xor_mask(i, pad, block);
                if block.len() == pad.len() {
                    pad.copy_from_slice(block);
                }
            }
        }
    }

    /// Deciphers block `i` in place. The pad holds what feedback enciphers for it.
    pub(crate) fn decipher(&self, i: u64, pad: &mut [u8], block: &mut [u8])
        requires pad { Pad (C.BlockCipher.map self.now.cipher.now) pad.old }
        requires fits { Fits self.now.mode (length pad.old) (length block.old) }
        ensures { block.new ≡ plain_step self.now.mode (C.BlockCipher.map self.now.cipher.now) self.now.from.third self.now.from.fourth i pad.old block.old }
    {
        match self.mode {
            Mode::Codebook => {
                let _ = self.cipher.decipher(block);
            }
            Mode::Counter | Mode::Feedback => self.xor_mask(i, pad, block),
        }
    }
}
