//! Reading the lines of a description.

ghost use Rattle.std.specs.Prelude.{◌≡◌, IfOk, OnOk, Some};
ghost use Rattle.std.specs.Option.{ok_or};
ghost use Rattle.refusals.specs.declared.Reason.TheVariants.{MalformedLine};
ghost use Rattle.description.specs.Words.{number};
ghost use Rattle.description.specs.Judge.{sole_kind, sole_number, all_numbers, keyword_line, judged_line};
ghost use Rattle.description.specs.Scan.{rest_of, line_at, Next, Ended};
ghost use Rattle.description.specs.Meaning.{parts_of, taken, words_of, first_number, end_answer, ReadRow};

use crate::draft::Draft;
use crate::keywords::Keyword;
use crate::parts::TargetKind;
use crate::row::TableRow;
use crate::scanner::Scanner;
use crate::words::Word;
use refusals::Reason;

/// The largest number of a substitution table.
const LARGEST: u32 = 15;

/// The number that comes next on the line.
fn next_number(scanner: &mut Scanner) -> Result<u32, Reason>
    ensures value { result ≡ ok_or (first_number (words_of scanner.old)) MalformedLine }
    ensures next { IfOk result (λ n. Next (Some (number n)) (rest_of scanner.old) (line_at scanner.old) (rest_of scanner.new) (line_at scanner.new)) }
{
    match scanner.next_word() {
        Some(Word::Number(n)) => Ok(n),
        _ => Err(Reason::MalformedLine),
    }
}

/// The end of the line, where no word may be left.
fn end_of_line(scanner: &mut Scanner) -> Result<(), Reason>
    ensures value { result ≡ end_answer (words_of scanner.old) }
    ensures ended { OnOk result (Ended scanner.old scanner.new) }
{
    match scanner.next_word() {
        None => Ok(()),
        Some(_) => Err(Reason::MalformedLine),
    }
}

/// The one number that is left on the line.
fn sole_number(scanner: &mut Scanner) -> Result<u32, Reason>
    ensures value { result ≡ ok_or (sole_number (words_of scanner.old)) MalformedLine }
    ensures ended { OnOk result (Ended scanner.old scanner.new) }
{
    let n = next_number(scanner)?;
    end_of_line(scanner)?;
    Ok(n)
}

/// The one kind of target that is left on the line.
fn sole_kind(scanner: &mut Scanner) -> Result<TargetKind, Reason>
    ensures value { result ≡ ok_or (sole_kind (words_of scanner.old)) MalformedLine }
    ensures ended { OnOk result (Ended scanner.old scanner.new) }
{
    let kind = match scanner.next_word() {
        Some(Word::Keyword(Keyword::Flash)) => TargetKind::Flash,
        Some(Word::Keyword(Keyword::Ram)) => TargetKind::Ram,
        _ => return Err(Reason::MalformedLine),
    };
    end_of_line(scanner)?;
    Ok(kind)
}

/// A row of the substitution table, after the word `box`.
fn box_row(scanner: &mut Scanner) -> Result<TableRow, Reason>
    ensures { ReadRow (all_numbers (words_of scanner.old)) result scanner.old scanner.new }
{
    let place = next_number(scanner)?;
    let mut numbers = [0; 16];
    // By index: after a loop over iter_mut a proof knows no element.
    for i in 0..16usize {
        let n = next_number(scanner)?;
        if n > LARGEST {
            return Err(Reason::MalformedLine);
        }
        numbers[i] = n as u8;
    }
    end_of_line(scanner)?;
    Ok(TableRow { place, numbers })
}

/// What follows a keyword on its line.
fn keyword_line(keyword: Keyword, scanner: &mut Scanner, draft: &mut Draft) -> Result<(), Reason>
    ensures value { taken result (parts_of draft.new) ≡ keyword_line (parts_of draft.old) keyword (words_of scanner.old) }
    ensures ended { OnOk result (Ended scanner.old scanner.new) }
{
    match keyword {
        Keyword::Kind => draft.kind_line(sole_kind(scanner)?),
        Keyword::Page => draft.page_line(sole_number(scanner)?),
        Keyword::Pages => draft.pages_line(sole_number(scanner)?),
        Keyword::Fill => draft.fill_line(sole_number(scanner)?),
        Keyword::Lock => draft.lock_line(sole_number(scanner)?),
        Keyword::Box => draft.box_line(box_row(scanner)?),
        Keyword::Flash | Keyword::Ram => Err(Reason::MalformedLine),
    }
}

/// The next line.
pub(crate) fn read_line(scanner: &mut Scanner, draft: &mut Draft) -> Result<(), Reason>
    ensures value { taken result (parts_of draft.new) ≡ judged_line (parts_of draft.old) (words_of scanner.old) }
    ensures ended { OnOk result (Ended scanner.old scanner.new) }
{
    match scanner.next_word() {
        None => Ok(()),
        Some(Word::Keyword(keyword)) => keyword_line(keyword, scanner, draft),
        Some(_) => Err(Reason::MalformedLine),
    }
}
