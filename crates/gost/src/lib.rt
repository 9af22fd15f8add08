//! GOST 28147-89, for every substitution table and every key.
//!
//! The definitions are in specs/: Tables.antt, Rounds.antt, Keys.antt and Cipher.antt, in that
//! order. Making a table and spreading a key check what they are handed. The cipher borrows its
//! table and its key words and keeps no copy of either; it is an implementation of `BlockCipher`,
//! so deciphering and enciphering undo each other.
//!
//! Open results: none.

#![tactic(auto)]

pub mod cipher;
mod enciphering;
pub mod key;
mod rounds;
mod substitution;
pub mod table;
