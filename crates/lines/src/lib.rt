// A listing's text, in a lent buffer: numbers, lines, Table's answer with its rows.
#![tactic(auto)]

ghost use Rattle.std.specs.Prelude.{◌≡◌, cond, [], ◌∷◌, ◌++◌, ◌+◌, ◌*◌, ◌≤◌, eqb, length, take, drop};
ghost use Rattle.io.specs.Counts.{IsPrefixLen};
ghost use Rattle.note.specs.Listing.{decimal_text, line_text, lines_text};
ghost use Rattle.lines.specs.Texts.{numbered, listed_rows, has_room, table_text, Put};

use note::TableAnswer;
use rows::ROW_WIDTH;
use stores::put_part;

const BLANK: u8 = 32;

const LINE_END: u8 = 10;

// The most bytes of a first line, and of a row's line.
const FIRST_LINE: usize = 63;

const ROW_LINE: usize = 87;

// Stores a number in decimal and the byte behind it, from a place on; gives the place behind both. The digits are made by `io`, in an array: std's
// text of a number stands in a `String`, on the heap, or goes through a writer.
#[tactic(auto, using(crate::proofs::TextLaws::digits_are_text))]
fn put_number(out: &mut [u8], at: usize, number: u64, behind: u8) -> usize
    requires { at + (length (decimal_text number) + 1) ≤ length out.old }
    ensures put { Put out.old at (decimal_text number ++ (behind ∷ [])) result out.new }
    ensures end { result ≡ at + length (decimal_text number) + 1 }
{
    let mut digits = [0; 20];
    let size = io::decimal(number, &mut digits);
    put_part(out, at, &digits[..size]);
    out[at + size] = behind;
    at + size + 1
}

// What stands behind a number of a line that so many numbers follow.
fn separator(following: usize) -> u8
    ensures { result ≡ cond (eqb following 0) 10 32 }
{
    if following == 0 { LINE_END } else { BLANK }
}

// Stores a line of numbers, from a place on; this and the functions below by `put_number`, for its reason.
#[tactic(auto, using(crate::proofs::TextLaws::word_digits))]
fn put_line(out: &mut [u8], at: usize, numbers: &[u32]) -> usize
    requires { at + 11 * length numbers.now ≤ length out.old }
    ensures put { Put out.old at (line_text numbers.now) result out.new }
    ensures upper_bound { result ≤ at + 11 * length numbers.now }
{
    let mut next = at;
    for (i, number) in numbers.iter().enumerate() {
        let behind = separator(numbers.len() - i - 1);
        next = put_number(out, next, u64::from(*number), behind);
    }
    next
}

// Stores a row's line, from a place on: its number and its six values.
#[tactic(auto, using(crate::proofs::TextLaws::long_digits))]
fn put_row(out: &mut [u8], at: usize, number: u64, row: &[u32; ROW_WIDTH]) -> usize
    requires { at + 87 ≤ length out.old }
    ensures put { Put out.old at (line_text (number ∷ row.now)) result out.new }
    ensures upper_bound { result ≤ at + 87 }
{
    let next = put_number(out, at, number, BLANK);
    put_line(out, next, row)
}

// Stores the lines of rows, numbered from 1, from a place on.
fn put_rows(out: &mut [u8], at: usize, rows: &[[u32; ROW_WIDTH]]) -> usize
    requires { at + length rows.now * 87 ≤ length out.old }
    ensures put { Put out.old at (lines_text (numbered 1 rows.now)) result out.new }
    ensures upper_bound { result ≤ at + length rows.now * 87 }
{
    let mut next = at;
    for (i, row) in rows.iter().enumerate() {
        next = put_row(out, next, i as u64 + 1, row);
    }
    next
}

// Stores the first line: answer, count and place.
#[tactic(auto, using(crate::proofs::TextLaws::word_digits, crate::proofs::TextLaws::long_digits))]
fn put_answer(out: &mut [u8], answer: &TableAnswer) -> usize
    requires { 63 ≤ length out.old }
    ensures put { Put out.old 0 (line_text (answer.now.number ∷ answer.now.count ∷ answer.now.place ∷ [])) result out.new }
    ensures upper_bound { result ≤ 63 }
{
    let behind_number = put_number(out, 0, u64::from(answer.number), BLANK);
    let behind_count = put_number(out, behind_number, answer.count as u64, BLANK);
    put_number(out, behind_count, answer.place as u64, LINE_END)
}

// How many rows are listed: none of a refused file. Table's answer has its number beside the count (`note`).
#[tactic(auto, unfolding(crate::specs::Texts::listed_rows))]
fn listed_rows(number: u32, count: usize) -> usize
    ensures { result ≡ listed_rows number count }
{
    if number == 0 { count } else { 0 }
}

// Whether there are n rows in a buffer of `held` numbers, and room for n of them in an output.
#[tactic(auto, using(crate::proofs::TextLaws::few_rows_held, crate::proofs::TextLaws::no_first_line, crate::proofs::TextLaws::room_of_rows))]
fn has_room(n: usize, held: usize, room: usize) -> bool
    ensures { result ≡ has_room n held room }
{
    n <= held / ROW_WIDTH && FIRST_LINE <= room && n <= (room - FIRST_LINE) / ROW_LINE
}

/// The text of Table's answer and buffer at the front of a lent output, whose rest stays: the first line, and the rows of an accepted file.
/// Answers how many bytes it has; none where the buffer has fewer rows than the answer says, or the output might be too small.
pub fn put_table(out: &mut [u8], answer: TableAnswer, rows: &[u32]) -> usize
    ensures value { result ≡ length (table_text answer rows.now (length out.old)) }
    ensures out_after { out.new ≡ table_text answer rows.now (length out.old) ++ drop result out.old }
    ensures prefix_len { IsPrefixLen result out.new }
{
    let listed = listed_rows(answer.number, answer.count);
    if !has_room(listed, rows.len(), out.len()) {
        return 0;
    }
    let next = put_answer(out, &answer);
    let (rows, _) = rows.as_chunks();
    put_rows(out, next, &rows[..listed])
}
