//! The entry of a planned section.

ghost use Rattle.std.specs.Prelude.{◌≡◌};
ghost use Rattle.sections.specs.Written.{mode_byte, entry_bytes};
ghost use Rattle.packing.specs.Plans.{mode_in, sync_words, section_of};
ghost use Rattle.packing.specs.Steps.{PlanFits};

use crate::plan::{Plan, PlannedMode};
use modes::mode::Sync;

impl PlannedMode {
    /// The number of the mode in an entry.
    fn number(self) -> u8
        ensures { result ≡ mode_byte (mode_in self) }
    {
        match self {
            PlannedMode::Codebook => 1,
            PlannedMode::Counter(_) => 2,
            PlannedMode::Feedback(_) => 3,
        }
    }

    /// The sync field as two words: codebook leaves it zero.
    fn sync(self) -> Sync
        ensures { result ≡ sync_words self }
    {
        match self {
            PlannedMode::Codebook => Sync {
                first: 0,
                second: 0,
            },
            PlannedMode::Counter(sync) | PlannedMode::Feedback(sync) => sync,
        }
    }
}

impl Plan {
    /// The entry for an image of so many bytes, with no tag yet. With it comes that the plan's
    /// numbers fit their fields.
    pub(crate) fn entry(self, length: u32) -> [u8; 32]
        ensures value { result ≡ entry_bytes (section_of self length 0 0) }
        ensures fits { PlanFits self }
    {
        let sync = self.mode.sync();
        let mut entry = [0; 32];
        entry[0] = u8::from(self.cipher);
        entry[1] = self.mode.number();
        entry[2] = self.bits;
        entry[4..6].copy_from_slice(&self.first_page.to_le_bytes());
        entry[8..12].copy_from_slice(&length.to_le_bytes());
        entry[12..20].copy_from_slice(&sync.first.to_le_bytes());
        entry[20..28].copy_from_slice(&sync.second.to_le_bytes());
        entry
    }
}
