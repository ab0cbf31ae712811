// Containers: the records that fill a part, a configuration, an event, the events of a file, and the file as a whole.
#![tactic(auto)]

ghost use Rattle.std.specs.Prelude.{◌≡◌, true, ◌+◌, ◌≤◌, length};
ghost use Rattle.note.specs.Words.{word};
ghost use Rattle.note.specs.Records.{read_records};
ghost use Rattle.note.specs.Faults.{fault_in, res_of};
ghost use Rattle.note.specs.Events.{read_events};
ghost use Rattle.note.specs.Files.{read_parts, read_file};
ghost use Rattle.record.specs.Steps.{context_of};
ghost use Rattle.containers.specs.Counts.{record_count, container_rule, least_of, context_in, read_container, container_step, event_rows, part_rows, file_rows};

use fields::{ensure, event_word_rule};
use note::{Fault, Refusal};
use record::{Context, FRONT, fresh, next_context, record_in};
use theory::Order;
use words::{order_of, word_at};

/// The header's first word, and the lower half of its second: format 2.0.
pub const FILE_MARK: u32 = 0x0102_0304;

pub const FORMAT: u32 = 0x0200;

/// A configuration's first word.
pub const CONFIGURATION: u32 = 0x0001_0000;

/// The bytes of the file header; the configuration begins behind it.
pub const HEADER: usize = 8;

/// Where the configuration's length word stands.
pub const ENTRIES_LENGTH: usize = 12;

/// Where the configuration's entries begin.
pub const ENTRIES: usize = 16;

/// The two containers.
#[derive(Clone, Copy, Debug, PartialEq, Eq)]
pub enum Container {
    Configuration,
    Event,
}

/// What a container holds: its first word, the length of its contents and how many records they are.
#[derive(Clone, Copy, Debug, PartialEq, Eq)]
pub struct Holding {
    pub word: u32,
    pub length: usize,
    pub count: usize,
}

// ---- the records of a part

// The length word at the front of a part; 0 where there is none, which no one reads: the record there is refused.
fn length_at(part: &[u8], order: Order) -> usize
    ensures { 8 ≤ length part.now → result ≡ word order 4 part.now }
{
    if part.len() < FRONT {
        return 0;
    }
    word_at(part, 4, order) as usize
}

// Whether a part goes on with a structure of this length word: where it says yes, it does.
fn is_alike(part: &[u8], known: usize, order: Order) -> bool
    ensures { result ≡ true → (8 ≤ length part.now) × (known ≡ word order 4 part.now) }
{
    if part.len() < FRONT {
        return false;
    }
    word_at(part, 4, order) as usize == known
}

/// How many records fill a part whose first byte stands at `from`. Over a run of records of one length the step to the next is known, and a
/// record's own length word is only compared with it: memory is asked for many records at a time. What stands there isn't checked yet: each step
/// may refuse, with a place of the file; so where the part stands is asked, and no iterator, which would only end there (`structures`).
pub fn records_in(
    part: &[u8],
    from: usize,
    context: Context,
    order: Order,
) -> Result<usize, Refusal>
    requires { from + length part.now ≤ 0x1000000 }
    ensures { res_of result ≡ record_count (read_records order (context_of context) from part.now) }
{
    let mut rest = part;
    let mut at = from;
    let mut count = 0;
    let mut state = context;
    while !rest.is_empty() {
        let known = length_at(rest, order);
        loop {
            let head = record_in(rest, at, state, order)?;
            let size = FRONT + known;
            state = next_context(state, head.kind);
            rest = &rest[size..];
            at += size;
            count += 1;
            if !is_alike(rest, known, order) {
                break;
            }
        }
    }
    Ok(count)
}

// ---- containers

impl Container {
    // What a container's first word must be.
    fn rule(self, word: u32) -> Result<(), Fault>
        ensures { fault_in result ≡ container_rule self word }
    {
        match self {
            Container::Configuration => ensure(word == CONFIGURATION, Fault::WrongKind),
            Container::Event => event_word_rule(word),
        }
    }

    /// The fewest bytes of a container's contents: an event isn't empty.
    pub fn least(self) -> usize
        ensures { result ≡ least_of self }
    {
        match self {
            Container::Configuration => 0,
            Container::Event => 1,
        }
    }

    /// Where a container's records are read.
    pub fn context(self) -> Context
        ensures { context_of result ≡ context_in self }
    {
        match self {
            Container::Configuration => Context::Entry,
            Container::Event => fresh(),
        }
    }
}

/// The container of this sort at the front of a part whose first byte stands at `at`.
pub fn container_in(
    sort: Container,
    part: &[u8],
    at: usize,
    order: Order,
) -> Result<Holding, Refusal>
    requires { at + length part.now ≤ 0x1000000 }
    ensures { res_of result ≡ container_step order (read_container sort order at part.now) }
{
    let room = part.len();
    if room < FRONT {
        return Err(Fault::TooShort.at(at));
    }
    let word = word_at(part, 0, order);
    // A fault gets its place here: `map_err` would give it by a closure.
    if let Err(fault) = sort.rule(word) {
        return Err(fault.at(at));
    }
    let length = word_at(part, 4, order) as usize;
    if room - FRONT < length {
        return Err(Fault::TooShort.at(at));
    }
    if length < sort.least() {
        return Err(Fault::Misplaced.at(at));
    }
    let count = records_in(
        &part[FRONT..FRONT + length],
        at + FRONT,
        sort.context(),
        order,
    )?;
    Ok(Holding {
        word,
        length,
        count,
    })
}

/// How many rows the events have that fill a part whose first byte stands at `from`. As in `records_in`, each is checked before it is passed.
pub fn events_in(part: &[u8], from: usize, order: Order) -> Result<usize, Refusal>
    requires { from + length part.now ≤ 0x1000000 }
    ensures { res_of result ≡ event_rows (read_events order from part.now) }
{
    let mut rest = part;
    let mut at = from;
    let mut count = 0;
    while !rest.is_empty() {
        let event = container_in(Container::Event, rest, at, order)?;
        let size = FRONT + event.length;
        rest = &rest[size..];
        at += size;
        count += 1 + event.count;
    }
    Ok(count)
}

// How many rows the parts of a file have, or the first refusal in them.
fn parts_in(file: &[u8], order: Order) -> Result<usize, Refusal>
    requires { length file.now ≤ 0x1000000 }
    ensures { res_of result ≡ part_rows (read_parts order file.now) }
{
    let room = file.len();
    if room < FRONT {
        return Err(Fault::TooShort.at(0));
    }
    if word_at(file, 0, order) != FILE_MARK {
        return Err(Fault::NotAFile.at(0));
    }
    if word_at(file, 4, order) % 65536 != FORMAT {
        return Err(Fault::WrongFormat.at(0));
    }
    let configuration = container_in(Container::Configuration, &file[HEADER..], HEADER, order)?;
    let from = ENTRIES + configuration.length;
    let rows = events_in(&file[from..], from, order)?;
    Ok(2 + configuration.count + rows)
}

/// How many rows a file has, or its refusal. Its words are in the order that its first bytes show.
pub fn check(file: &[u8]) -> Result<usize, Refusal>
    ensures { res_of result ≡ file_rows (read_file file.now) }
{
    if record::FILE_LIMIT < file.len() {
        return Err(Fault::TooLarge.at(0));
    }
    parts_in(file, order_of(file))
}
