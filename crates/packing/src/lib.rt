//! Download files put together: planned sections with their images are sealed and written.
//!
//! specs/Packed.antt is the definition of `pack`: which file comes out for every target, keys, plans
//! and images, or the first refusal. The law on the same call (specs/Laws.antt) says what such a file
//! holds: listing gives back the planned sections, each with the imitovstavka of its image as its tag,
//! and the body of each deciphers to its image.
//!
//! Open results: whether there is memory. A call that finds none says so in place of its file or of a
//! refusal of a section, of the file's size or of its pages; keys and the number of sections are judged
//! before.

#![tactic(auto)]

mod entry;
pub mod fault;
mod filling;
pub mod plan;
mod sealer;
mod section;

ghost use Rattle.std.specs.Prelude.{◌≡◌, ◌≤◌, map, length, IfOk, vec_items};
ghost use Rattle.description.specs.Meaning.{meaning_of};
ghost use Rattle.packing.specs.Plans.{work_of};
ghost use Rattle.packing.specs.Packed.{packed, Answers, Wanting};
ghost use Rattle.packing.specs.Laws.{Holds};

use description::parts::Description;
use fault::Fault;
use keys::SpreadKeys;
use plan::Planned;
use refusals::{Layer, Reason, Refusal};
use sealer::Sealer;
use sections::file::list;
use std::alloc::Global;

/// Packs a download file for a target, with keys of 64 bytes: the body key, then the tag key. The
/// first refusal is the answer: the keys; the number of sections; section by section its plan, then
/// the length of its image; the size of the file; section by section its pages. The file is listed
/// before it is handed out.
pub fn pack(
    heap: Global,
    target: &Description,
    keys: &[u8],
    planned: &[Planned],
) -> Result<Vec<u8>, Fault>
    ensures answer { Answers vec_items result (packed (meaning_of target.now) keys.now (map work_of planned.now)) }
    ensures memory { Wanting result ((length keys.now ≡ 64) × (1 ≤ length planned.now) × (length planned.now ≤ 8)) }
    ensures holds { IfOk result (λ v. Holds (meaning_of target.now) keys.now (map work_of planned.now) v.items) }
{
    let keys = SpreadKeys::spread(keys)?;
    if !(1..=8).contains(&planned.len()) {
        return Err(Fault::Refused(Refusal::new(Reason::BadField, 0, Layer::File)));
    }
    let sealer = Sealer {
        keys: &keys,
        table: &target.table,
    };
    let file = sealer.fill(heap, planned)?;
    list(file.as_slice(), target.page_length, target.page_count)?;
    Ok(file)
}
