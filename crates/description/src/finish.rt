//! What is left to judge at the end of a description.

ghost use Rattle.std.specs.Prelude.{◌≡◌, Ok};
ghost use Rattle.refusals.specs.declared.Reason.TheVariants.{MissingPart};
ghost use Rattle.refusals.specs.Codes.{answer, code_of};
ghost use Rattle.description.specs.Judge.{all_rows, completed, needed, refused};
ghost use Rattle.description.specs.Meaning.{meaning_of, parts_of, part_number};

use crate::draft::Draft;
use crate::parts::Description;
use gost::table::SubstitutionTable;
use refusals::{Layer, Reason, Refusal};

/// A refusal by this layer.
pub(crate) fn refusal(reason: Reason, place: u32) -> Refusal
    ensures { code_of result ≡ refused reason place }
{
    Refusal {
        reason,
        place,
        layer: Layer::Description,
    }
}

/// The parts of a description, each with the number by which it is known to be missing.
#[derive(Clone, Copy)]
pub enum Part {
    Kind = 1,
    PageLength = 2,
    PageCount = 3,
    Fill = 4,
    BoxRow = 5,
}

/// That a part is missing.
fn missing(part: Part) -> Refusal
    ensures { code_of result ≡ refused MissingPart (part_number part) }
{
    refusal(Reason::MissingPart, part as u32)
}

/// The rows, or that one is missing.
fn all_rows(given: &[Option<[u8; 16]>; 8]) -> Result<[[u8; 16]; 8], Refusal>
    ensures { answer (λ rows. rows) result ≡ needed 5 (all_rows given.now) (λ rows. Ok rows) }
{
    let mut rows = [[0; 16]; 8];
    // By index: after a loop over iter_mut a proof knows no element.
    for place in 0..8usize {
        rows[place] = given[place].ok_or(missing(Part::BoxRow))?;
    }
    Ok(rows)
}

/// The description that the lines have given, or the lowest part that is missing.
#[tactic(auto, unfolding(crate::specs::Judge::completed))]
pub(crate) fn finish(draft: &Draft) -> Result<Description, Refusal>
    ensures { answer meaning_of result ≡ completed (parts_of draft.now) }
{
    let kind = draft.kind.ok_or(missing(Part::Kind))?;
    let page_length = draft.page_length.ok_or(missing(Part::PageLength))?;
    let page_count = draft.page_count.ok_or(missing(Part::PageCount))?;
    let fill = draft.fill.ok_or(missing(Part::Fill))?;
    let rows = all_rows(&draft.rows)?;
    let table = SubstitutionTable::new(rows)?;
    Ok(Description {
        kind,
        page_length,
        page_count,
        fill,
        locked: draft.locked,
        table,
    })
}
