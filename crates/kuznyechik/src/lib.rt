//! Kuznyechik, the cipher of GOST R 34.12-2015 with blocks of 128 bits, for every key.
//!
//! The definitions are in specs/: Pi.antt, Field.antt, Steps.antt, Keys.antt and Cipher.antt, in that
//! order, under the standard's letters. Spreading a key checks its length. The cipher borrows its
//! round keys and keeps no copy; it is an implementation of `BlockCipher`, so deciphering and
//! enciphering undo each other.
//!
//! Open results: none.

#![tactic(auto)]

pub mod cipher;
mod field;
pub mod key;
mod steps;
mod table;
