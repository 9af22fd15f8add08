//! What the lines so far have given.

ghost use Rattle.description.specs.Limits.{Sound};

use crate::parts::TargetKind;

/// The parts of a description, each as soon as its line is read.
#[derive(Drop)]
pub struct Draft {
    pub(crate) kind: Option<TargetKind>,
    pub(crate) page_length: Option<u32>,
    pub(crate) page_count: Option<u32>,
    pub(crate) fill: Option<u8>,
    pub(crate) locked: [bool; 1024],
    // Kept beside the marks: counting them anew at each line would be no plainer.
    pub(crate) locks: u32,
    pub(crate) rows: [Option<[u8; 16]>; 8],
    ghost sound: { Sound page_length page_count locked rows },
}
