//! Reading a text word by word.

ghost use Rattle.std.specs.Prelude.{◌≡◌, ◌≤◌, length};
ghost use Rattle.description.specs.Scan.{seen, rest_of, line_at, Next};

use crate::scanner::Scanner;
use crate::words::{Word, blanks, class, word_len};

impl<'a> Scanner<'a> {
    pub(crate) fn new(text: &'a [u8]) -> Scanner<'a>
        requires { length text.now ≤ 4096 }
        ensures rest { rest_of result ≡ text.now }
        ensures line { line_at result ≡ 1 }
    {
        Scanner {
            rest: text,
            line: 1,
        }
    }

    /// The next word, or the end of the line, which is taken too.
    pub(crate) fn next_word(&mut self) -> Option<Word<'a>>
        ensures { Next (seen result) (rest_of self.old) (line_at self.old) (rest_of self.new) (line_at self.new) }
    {
        let text = self.rest;
        let skip = blanks(text);
        let from = &text[skip..];
        let len = word_len(from);
        if len == 0 {
            if let [_, rest @ ..] = from {
                self.rest = rest;
                self.line += 1;
            } else {
                self.rest = from;
            }
            return None;
        }
        let (word, rest) = from.split_at(len);
        self.rest = rest;
        Some(class(word))
    }
}
