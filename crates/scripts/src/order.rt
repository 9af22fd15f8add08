//! What a script asks for.

ghost use Rattle.std.specs.Prelude.{◌<◌};

/// A bit of a byte of a frame, to be flipped.
#[derive(Clone, Copy)]
pub struct Flip {
    pub byte: u32,
    pub bit: u8,
    ghost within: { bit < 8 },
}

/// A frame of the file's own body: so many blocks from a block on.
#[derive(Clone, Copy)]
pub struct FrameLine {
    pub first: u32,
    pub count: u32,
    pub flip: Option<Flip>,
}

/// What a line asks for.
#[derive(Clone, Copy)]
pub enum Order {
    Frame(FrameLine),
    /// A frame that is lost: no call is made.
    Lost(FrameLine),
    /// The last frame, sent again.
    Repeat(FrameLine),
    Give { block: u32 },
    Erase { page: u32 },
    Program { page: u16 },
    Close,
    Reopen,
    Verify,
}

/// An order, and the line that it stands in.
#[derive(Clone, Copy)]
pub struct Step {
    pub line: u32,
    pub order: Order,
}

/// The section that is downloaded, and the orders.
#[derive(Drop)]
pub struct Script {
    pub section: u32,
    pub steps: Vec<Step>,
}

impl Order {
    /// The frame that it sends or loses.
    pub fn frame(self) -> Option<FrameLine> {
        match self {
            Order::Frame(frame) | Order::Lost(frame) | Order::Repeat(frame) => Some(frame),
            _ => None,
        }
    }
}
