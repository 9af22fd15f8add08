//! Taking in the lines of a description. A line is malformed before it is repeated.

ghost use Rattle.std.specs.Prelude.{◌≡◌, ◌*◌, ◌^◌, ◌<◌, cond, is_some, is_ok, ◌∷◌, Some, Ok, Err};
ghost use Rattle.std.specs.Option.{option_or, unwrap_or};
ghost use Rattle.refusals.specs.declared.Reason.TheVariants.{MalformedLine, RepeatedLine};
ghost use Rattle.description.specs.Limits.{allowed_length, allowed_count, fits_count};
ghost use Rattle.description.specs.Judge.{blank, kind_line, page_line, pages_line, fill_line, lock_line, box_line};
ghost use Rattle.description.specs.Meaning.{parts_of, taken};

use crate::draft::Draft;
use crate::parts::TargetKind;
use crate::row::TableRow;
use refusals::Reason;

/// Whether a page may have this length: a multiple of 16 from 16 to 4,096.
fn allowed_length(n: u32) -> bool
    ensures { result ≡ allowed_length n }
{
    (16..=4096).contains(&n) && n % 16 == 0
}

/// Whether a target may have so many pages: 1 to 1,024.
fn allowed_count(n: u32) -> bool
    ensures { result ≡ allowed_count n }
{
    (1..=1024).contains(&n)
}

/// Gives a part that no line has given before.
fn give<T: Copy>(slot: &mut Option<T>, value: T) -> Result<(), Reason>
    ensures answer { result ≡ cond (is_some slot.old) (Err RepeatedLine) (Ok tt) }
    ensures slot { slot.new ≡ option_or slot.old (Some value) }
{
    if slot.is_some() {
        return Err(Reason::RepeatedLine);
    }
    *slot = Some(value);
    Ok(())
}

/// Gives one of the two factors of the size of a target. The product is judged at the first line to
/// give both of them.
fn give_factor(slot: &mut Option<u32>, other: Option<u32>, n: u32) -> Result<(), Reason>
    requires { n * unwrap_or other 0 < 2 ^ 32 }
    ensures answer { result ≡ cond (is_some slot.old) (Err RepeatedLine) (cond (fits_count n other) (Ok tt) (Err MalformedLine)) }
    ensures slot { slot.new ≡ cond (is_ok result) (Some n) slot.old }
{
    if let Some(other) = other {
        if slot.is_none() && n * other > 65536 {
            return Err(Reason::MalformedLine);
        }
    }
    give(slot, n)
}

impl Draft {
    /// The draft before the first line.
    pub(crate) fn new() -> Draft
        ensures { parts_of result ≡ blank }
    {
        Draft {
            kind: None,
            page_length: None,
            page_count: None,
            fill: None,
            locked: [false; 1024],
            locks: 0,
            rows: [None; 8],
        }
    }

    /// A line that gives the kind.
    pub(crate) fn kind_line(&mut self, kind: TargetKind) -> Result<(), Reason>
        ensures { taken result (parts_of self.new) ≡ kind_line (parts_of self.old) (Some kind) }
    {
        give(&mut self.kind, kind)
    }

    /// A line that gives the page length.
    pub(crate) fn page_line(&mut self, n: u32) -> Result<(), Reason>
        ensures { taken result (parts_of self.new) ≡ page_line (parts_of self.old) (Some n) }
    {
        if !allowed_length(n) {
            return Err(Reason::MalformedLine);
        }
        give_factor(&mut self.page_length, self.page_count, n)
    }

    // page_line with its test and its two factors exchanged: one function over the three is no plainer.
    /// A line that gives the page count.
    pub(crate) fn pages_line(&mut self, n: u32) -> Result<(), Reason>
        ensures { taken result (parts_of self.new) ≡ pages_line (parts_of self.old) (Some n) }
    {
        if !allowed_count(n) {
            return Err(Reason::MalformedLine);
        }
        give_factor(&mut self.page_count, self.page_length, n)
    }

    /// A line that gives the fill byte.
    pub(crate) fn fill_line(&mut self, n: u32) -> Result<(), Reason>
        ensures { taken result (parts_of self.new) ≡ fill_line (parts_of self.old) (Some n) }
    {
        let fill = u8::try_from(n).map_err(|_| Reason::MalformedLine)?;
        give(&mut self.fill, fill)
    }

    /// A line that locks a page.
    pub(crate) fn lock_line(&mut self, page: u32) -> Result<(), Reason>
        ensures { taken result (parts_of self.new) ≡ lock_line (parts_of self.old) (Some page) }
    {
        let count = self.page_count.ok_or(Reason::MalformedLine)?;
        if self.locks >= 16 || page >= count {
            return Err(Reason::MalformedLine);
        }
        if self.locked[page as usize] {
            return Err(Reason::RepeatedLine);
        }
        self.locked[page as usize] = true;
        self.locks += 1;
        Ok(())
    }

    /// A line that gives a row of the substitution table.
    pub(crate) fn box_line(&mut self, row: TableRow) -> Result<(), Reason>
        ensures { taken result (parts_of self.new) ≡ box_line (parts_of self.old) (Some (row.place ∷ row.numbers)) }
    {
        if !(1..=8).contains(&row.place) {
            return Err(Reason::MalformedLine);
        }
        give(&mut self.rows[row.place as usize - 1], row.numbers)
    }
}
