// The visitor, for callers who can't hold a walker: it runs a walk over a file and stores its yields, from a number on, as rows.
#![tactic(auto)]

ghost use Rattle.std.specs.Prelude.{◌≡◌, length};
ghost use Rattle.note.specs.Visitor.{visit_answer, visit_buffer};
ghost use Rattle.visitor.specs.Visits.{Stored};

use note::{TableAnswer, WalkerYield};
use rows::{ROW_WIDTH, Row, put_row};
use walk::{Spot, start, step};

// Runs a walk and stores its rows, but for the first ones, up to the last or until the buffer is full; answers how many. The step is
// called in one place, so that the compiler has it in the loop and keeps the walk's numbers in registers.
fn store(file: &[u8], from: Spot, first: usize, rows: &mut [u32]) -> usize
    ensures { Stored file.now from first rows.old rows.new result }
{
    let mut at = from;
    let mut passed = 0;
    let mut count = 0;
    let room = rows.len() / ROW_WIDTH;
    while count < room {
        at = step(file, at);
        let WalkerYield::Row {
            kind,
            start,
            whole,
            parent,
            one,
            two,
        } = at.last
        else {
            return count;
        };
        if passed < first {
            passed += 1;
        } else {
            // A yield's row is a case of `note`, which knows no `Row`.
            let row = Row {
                kind,
                start,
                whole,
                parent,
                one,
                two,
            };
            put_row(rows, count, row);
            count += 1;
        }
    }
    count
}

/// Visit: stores a file's rows from the number `first` on, from 0, in the lent buffer, six numbers each, up to the last row or until the
/// buffer is full; answers number, how many, place. A refusal leaves the buffer as it was, and so stays what lies past the rows.
pub fn visit(file: &[u8], first: usize, rows: &mut [u32]) -> TableAnswer
    ensures answer { result ≡ visit_answer file.now first (length rows.old) }
    ensures buffer { rows.new ≡ visit_buffer file.now first rows.old }
{
    let from = start(file);
    if from.number != 0 {
        return TableAnswer {
            number: from.number,
            count: 0,
            place: from.fault,
        };
    }
    let count = store(file, from, first, rows);
    TableAnswer {
        number: 0,
        count,
        place: file.len(),
    }
}
