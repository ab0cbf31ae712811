// Find: the first trace of a file, by its event's number and its code. The file is checked first; the search then reads each
// structure's own words, and no sample.
#![tactic(auto)]

ghost use Rattle.std.specs.Prelude.{◌≡◌};
ghost use Rattle.note.specs.Answers.{given_find};
ghost use Rattle.note.specs.Events.{read_events};
ghost use Rattle.note.specs.Calls.{first_match, find_at};
ghost use Rattle.find.specs.Search.{places, Searchable, traces_read};

use containers::{ENTRIES, ENTRIES_LENGTH, check};
use note::Refusal;
use record::FRONT;
use rules::{CODE_AT, Kind};
use structures::structures;
use theory::Order;
use words::{order_of, word_at};

// Where an event's number stands in its contents: the third word of its first record's body, behind that record's two words.
const EVENT_NUMBER: usize = 16;

// A trace's kind word.
const TRACE: u32 = Kind::Trace as u32;

// The first trace among the events that fill a part whose first byte stands at `from`. The part was checked, so an event's first
// record is its administrative one, and a record's kind and length words say what stands there. One loop over events and, in it, one over
// records, which a match leaves both by a label: that form was asked for (docs/DECISIONS.md, 'Forms of the code').
fn search(part: &[u8], from: usize, number: u32, code: u32, order: Order) -> Option<usize>
    requires { Searchable order from part.now }
    ensures { places result ≡ first_match number code (traces_read order from (read_events order from part.now)) }
{
    let mut found = None;
    'events: for event in structures(part, from, order) {
        if word_at(event.body, EVENT_NUMBER, order) == number {
            for record in structures(event.body, event.place + FRONT, order) {
                if record.word == TRACE && word_at(record.body, CODE_AT, order) == code {
                    found = Some(record.place);
                    break 'events;
                }
            }
        }
    }
    found
}

/// Find: where the first trace of this code among the events of this number stands, or nothing; the refusal of a file that is refused
/// (FORMAT 8.8).
#[tactic(auto, unfolding(note::specs::Answers::given_find), using(crate::proofs::CallLaws::refused))]
pub fn find(file: &[u8], number: u32, code: u32) -> Result<Option<usize>, Refusal>
    ensures { given_find result ≡ find_at file.now number code }
{
    check(file)?;
    let order = order_of(file);
    let from = ENTRIES + word_at(file, ENTRIES_LENGTH, order) as usize;
    Ok(search(&file[from..], from, number, code, order))
}
