//! An order as its line in a script says it.

use crate::order::{FrameLine, Order};
use std::fmt;

impl fmt::Display for FrameLine {
    fn fmt<W: fmt::Write>(&self, f: &mut fmt::Formatter<W>) -> fmt::Result {
        let FrameLine { first, count, flip } = self;
        match flip {
            None => write!(f, "{first} {count}"),
            Some(flip) => write!(f, "{first} {count} flip {} {}", flip.byte, flip.bit),
        }
    }
}

impl fmt::Display for Order {
    fn fmt<W: fmt::Write>(&self, f: &mut fmt::Formatter<W>) -> fmt::Result {
        match self {
            Order::Frame(frame) => write!(f, "frame {frame}"),
            Order::Lost(frame) => write!(f, "drop {frame}"),
            Order::Repeat(frame) => write!(f, "repeat, frame {frame}"),
            Order::Give { block } => write!(f, "give {block}"),
            Order::Erase { page } => write!(f, "erase {page}"),
            Order::Program { page } => write!(f, "program {page}"),
            Order::Close => write!(f, "close"),
            Order::Reopen => write!(f, "reopen"),
            Order::Verify => write!(f, "verify"),
        }
    }
}
