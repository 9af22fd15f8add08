//! The words of a description, which borrow its text.

ghost use Rattle.std.specs.Prelude.{◌≡◌, ◌≤◌, length, not, ◌&&◌, ◌==◌};
ghost use Rattle.std.specs.List.{prefix_len};
ghost use Rattle.description.specs.Words.{number_of, keyword_of, token_of};
ghost use Rattle.description.specs.Scan.{token_in};

use crate::keywords::Keyword;

/// A word of a description.
#[derive(Clone, Copy)]
pub enum Word<'a> {
    Keyword(Keyword),
    Number(u32),
    Other(&'a [u8]),
}

/// The number that one to five decimal digits write.
fn number(word: &[u8]) -> Option<u32>
    ensures { result ≡ number_of word.now }
{
    if !(1..=5).contains(&word.len()) {
        return None;
    }
    let mut n: u32 = 0;
    for b in word {
        if !b.is_ascii_digit() {
            return None;
        }
        n = n * 10 + u32::from(*b - b'0');
    }
    Some(n)
}

/// The keyword that the bytes spell.
// No TryFrom: a word that is no keyword is no error.
fn named(word: &[u8]) -> Option<Keyword>
    ensures { result ≡ keyword_of word.now }
{
    match word {
        b"kind" => Some(Keyword::Kind),
        b"page" => Some(Keyword::Page),
        b"pages" => Some(Keyword::Pages),
        b"fill" => Some(Keyword::Fill),
        b"lock" => Some(Keyword::Lock),
        b"box" => Some(Keyword::Box),
        b"flash" => Some(Keyword::Flash),
        b"ram" => Some(Keyword::Ram),
        _ => None,
    }
}

/// What kind of word the bytes are.
pub(crate) fn class<'a>(word: &'a [u8]) -> Word<'a>
    ensures { token_in result ≡ token_of word.now }
{
    if let Some(keyword) = named(word) {
        return Word::Keyword(keyword);
    }
    match number(word) {
        Some(n) => Word::Number(n),
        None => Word::Other(word),
    }
}

/// How many of the first bytes are spaces.
pub(crate) fn blanks(text: &[u8]) -> usize
    ensures value { result ≡ prefix_len (λ x. x == 32) text.now }
    ensures within { result ≤ length text.now }
{
    text.iter().take_while(|b| **b == b' ').count()
}

/// How many of the first bytes belong to one word.
pub(crate) fn word_len(text: &[u8]) -> usize
    ensures value { result ≡ prefix_len (λ x. not (x == 32) && not (x == 10)) text.now }
    ensures within { result ≤ length text.now }
{
    text.iter()
        .take_while(|b| **b != b' ' && **b != b'\n')
        .count()
}
