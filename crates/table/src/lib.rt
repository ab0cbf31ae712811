// Table: the rows of an accepted file, in a lent buffer. The file is checked first; filling then reads each structure's own words.
#![tactic(auto)]

ghost use Rattle.std.specs.Prelude.{◌≡◌, length};
ghost use Rattle.note.specs.Rows.{table_answer, table_buffer};
ghost use Rattle.table.specs.Filling.{Fillable, FillableEvents, FillableFile, Filled, FilledEvents, FilledFile};

use containers::{ENTRIES, ENTRIES_LENGTH, HEADER, check};
use note::{CONFIGURATION_ROW, EVENT_ROW, Fault, HEADER_ROW, TableAnswer};
use record::FRONT;
use rows::{HEADER_BYTES, ROW_WIDTH, Row, put_row, values_in};
use structures::structures;
use theory::Order;
use words::{order_of, word_at};

// Stores the rows of the records that fill a part, from the row with the index `first` on, and answers the next row's index. The part
// was checked, so a record's kind and length words say what stands there.
fn fill_records(
    part: &[u8],
    from: usize,
    rows: &mut [u32],
    first: usize,
    parent: u32,
    order: Order,
) -> usize
    requires { Fillable order from part.now (length rows.old) first }
    ensures { Filled order from part.now rows.old first parent rows.new result }
{
    let mut n = first;
    // A row is made field by field: its values are three of the six, its place and length the structure's.
    for record in structures(part, from, order) {
        let v = values_in(record.word, record.body, order);
        let row = Row {
            kind: v.kind,
            start: record.place as u32,
            whole: (FRONT + record.body.len()) as u32,
            parent,
            one: v.one,
            two: v.two,
        };
        put_row(rows, n, row);
        n += 1;
    }
    n
}

// Stores the rows of the events that fill a part, from the row with the index `first` on: an event's own after its records', whose
// count is known then.
fn fill_events(part: &[u8], from: usize, rows: &mut [u32], first: usize, order: Order)
    requires { FillableEvents order from part.now (length rows.old) first }
    ensures { FilledEvents order from part.now rows.old first rows.new }
{
    let mut n = first;
    for event in structures(part, from, order) {
        let next = fill_records(
            event.body,
            event.place + FRONT,
            rows,
            n + 1,
            (n + 1) as u32,
            order,
        );
        let row = Row {
            kind: EVENT_ROW,
            start: event.place as u32,
            whole: (FRONT + event.body.len()) as u32,
            parent: 0,
            one: event.word % 65536,
            two: (next - n - 1) as u32,
        };
        put_row(rows, n, row);
        n = next;
    }
}

// Stores the rows of an accepted file. A walk yields the same ones, by definitions of its own (`walk/specs/Steps`).
fn fill(file: &[u8], rows: &mut [u32], order: Order)
    requires { FillableFile order file.now (length rows.old) }
    ensures { FilledFile file.now rows.old rows.new }
{
    let size = FRONT + word_at(file, ENTRIES_LENGTH, order) as usize;
    let end = HEADER + size;
    put_row(
        rows,
        0,
        Row {
            kind: HEADER_ROW,
            start: 0,
            whole: HEADER_BYTES,
            parent: 0,
            one: word_at(file, 4, order),
            two: 0,
        },
    );
    let next = fill_records(&file[ENTRIES..end], ENTRIES, rows, 2, 2, order);
    put_row(
        rows,
        1,
        Row {
            kind: CONFIGURATION_ROW,
            start: HEADER_BYTES,
            whole: size as u32,
            parent: 0,
            one: (next - 2) as u32,
            two: 0,
        },
    );
    fill_events(&file[end..], end, rows, next, order);
}

/// Table: checks a file and fills its rows, six numbers each, in the lent buffer; answers number, count of rows, place. A refusal
/// leaves the buffer as it was, and so stays what lies past the rows.
#[tactic(auto, using(crate::proofs::TableLaws::refused_answer, crate::proofs::TableLaws::refused_buffer))]
pub fn table(file: &[u8], rows: &mut [u32]) -> TableAnswer
    ensures answer { result ≡ table_answer file.now (length rows.old) }
    ensures buffer { rows.new ≡ table_buffer file.now rows.old }
{
    match check(file) {
        Err(refusal) => TableAnswer {
            number: refusal.fault.into(),
            count: 0,
            place: refusal.place,
        },
        Ok(count) => {
            if rows.len() / ROW_WIDTH < count {
                return TableAnswer {
                    number: Fault::FewRows.into(),
                    count,
                    place: file.len(),
                };
            }
            fill(file, rows, order_of(file));
            TableAnswer {
                number: 0,
                count,
                place: file.len(),
            }
        }
    }
}
