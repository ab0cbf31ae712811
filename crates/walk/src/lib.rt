// A walk over a file by steps: where it stands is plain numbers beside the lent slice, and any numbers are taken. The file is checked
// where a walk starts; a step then reads its own structure, and a container's passes over its children by their length words.
#![tactic(auto)]

ghost use Rattle.std.specs.Prelude.{◌≡◌, ◌+◌, ◌≤◌, length};
ghost use Rattle.walk.specs.Steps.{count_in, container_row, stayed, header_step, record_step, container_step, usable, step_in, step_of, start_of, opened_of};

use containers::{HEADER, check};
use note::{CONFIGURATION_ROW, EVENT_ROW, HEADER_ROW, WalkerYield};
use record::{FILE_LIMIT, FRONT};
use rows::{HEADER_BYTES, has_values, values_in};
use structures::structures;
use theory::Order;
use words::{order_of, word_at};

/// Where a walk stands: the file's refusal (number 0: accepted) and its place, the next byte, the end of the container that it is in,
/// that container's row number, the rows so far, and what was yielded last. The refusal stays a number, not a `Refusal`: a caller in C hands
/// a walk's numbers over one by one, and any are taken (`dwj_next`).
#[derive(Clone, Copy)]
pub struct Spot {
    pub number: u32,
    pub fault: usize,
    pub place: usize,
    pub end: usize,
    pub parent: u32,
    pub rows: u32,
    pub last: WalkerYield,
}

// How many structures stand back to back in a part, by their length words.
fn count_in(part: &[u8], order: Order) -> usize
    ensures { result ≡ count_in order part.now }
{
    structures(part, 0, order).count()
}

// The row of a container: the configuration stands at byte 8, an event anywhere else.
#[tactic(auto, unfolding(crate::specs::Steps::container_row))]
fn container_row(place: usize, whole: u32, word: u32, count: u32) -> WalkerYield
    requires { place ≤ 0x1000000 }
    ensures { result ≡ container_row place whole word count }
{
    if place == HEADER {
        return WalkerYield::Row {
            kind: CONFIGURATION_ROW,
            start: HEADER_BYTES,
            whole,
            parent: 0,
            one: count,
            two: 0,
        };
    }
    WalkerYield::Row {
        kind: EVENT_ROW,
        start: place as u32,
        whole,
        parent: 0,
        one: word % 65536,
        two: count,
    }
}

// The walk where it is, with another yield.
#[tactic(auto, unfolding(crate::specs::Steps::stayed))]
fn stayed(at: Spot, last: WalkerYield) -> Spot
    ensures { result ≡ stayed at last }
{
    Spot { last, ..at }
}

// The header's step. What it adds to is bounded by `is_usable`, and by no type: a spot of C may have any numbers.
#[tactic(auto, unfolding(crate::specs::Steps::header_step))]
fn header_step(file: &[u8], at: Spot, order: Order) -> Spot
    requires { at.rows ≤ 0x1000000 }
    ensures { result ≡ header_step order file.now at }
{
    if file.len() < HEADER {
        return stayed(at, WalkerYield::End);
    }
    Spot {
        place: HEADER,
        end: HEADER,
        parent: 0,
        rows: at.rows + 1,
        last: WalkerYield::Row {
            kind: HEADER_ROW,
            start: 0,
            whole: HEADER_BYTES,
            parent: 0,
            one: word_at(file, 4, order),
            two: 0,
        },
        ..at
    }
}

// A record's step, at the front of what is left of its container.
#[tactic(auto, unfolding(crate::specs::Steps::record_step, structures::specs::Standing::stands))]
fn record_step(part: &[u8], at: Spot, order: Order) -> Spot
    requires { (at.place + length part.now ≤ 0x1000000) × (at.rows ≤ 0x1000000) }
    ensures { result ≡ record_step order part.now at }
{
    let Some(record) = structures(part, at.place, order).next() else {
        return stayed(at, WalkerYield::End);
    };
    if !has_values(record.word, record.body, order) {
        return stayed(at, WalkerYield::End);
    }
    let v = values_in(record.word, record.body, order);
    let size = FRONT + record.body.len();
    Spot {
        place: at.place + size,
        rows: at.rows + 1,
        last: WalkerYield::Row {
            kind: v.kind,
            start: at.place as u32,
            whole: size as u32,
            parent: at.parent,
            one: v.one,
            two: v.two,
        },
        ..at
    }
}

// A configuration's or an event's step, at the front of what is left of the file.
#[tactic(auto, unfolding(crate::specs::Steps::container_step, structures::specs::Standing::stands))]
fn container_step(part: &[u8], at: Spot, order: Order) -> Spot
    requires { (at.place + length part.now ≤ 0x1000000) × (at.rows ≤ 0x1000000) }
    ensures { result ≡ container_step order part.now at }
{
    let Some(container) = structures(part, at.place, order).next() else {
        return stayed(at, WalkerYield::End);
    };
    let size = FRONT + container.body.len();
    let count = count_in(container.body, order);
    let row = container_row(at.place, size as u32, container.word, count as u32);
    Spot {
        place: at.place + FRONT,
        end: at.place + size,
        parent: at.rows + 1,
        rows: at.rows + 1,
        last: row,
        ..at
    }
}

// Whether a walk over this file can have these numbers.
#[tactic(auto, unfolding(crate::specs::Steps::usable))]
fn is_usable(file: &[u8], at: Spot) -> bool
    ensures { result ≡ usable file.now at }
{
    let room = file.len();
    room <= FILE_LIMIT && at.rows as usize <= FILE_LIMIT && at.end <= room && at.place <= room
}

// One step over a file whose words are of that order: the row at the spot is yielded and the walk moves on; at the end and over a refused
// file it stays. Which step is told by the numbers, and no enum: C hands over those alone.
#[tactic(auto, unfolding(crate::specs::Steps::step_in, crate::specs::Steps::usable))]
fn step_in(file: &[u8], at: Spot, order: Order) -> Spot
    ensures { result ≡ step_in order file.now at }
{
    if at.number != 0 {
        let refusal = WalkerYield::Refused {
            number: at.number,
            place: at.fault,
        };
        return stayed(at, refusal);
    }
    if !is_usable(file, at) {
        return stayed(at, WalkerYield::End);
    }
    if at.place == 0 {
        return header_step(file, at, order);
    }
    if at.place < at.end {
        return record_step(&file[at.place..at.end], at, order);
    }
    container_step(&file[at.place..], at, order)
}

/// One step, in the order that the file's first bytes show.
#[tactic(auto, unfolding(crate::specs::Steps::step_of))]
pub fn step(file: &[u8], at: Spot) -> Spot
    ensures { result ≡ step_of file.now at }
{
    step_in(file, at, order_of(file))
}

/// Where a walk over a file starts: the whole file is checked, once.
#[tactic(auto, using(crate::proofs::StepLaws::opens_refused, crate::proofs::StepLaws::opens_accepted))]
pub fn start(file: &[u8]) -> Spot
    ensures { result ≡ start_of file.now }
{
    let (number, fault) = match check(file) {
        Ok(_) => (0, 0),
        Err(refusal) => (refusal.fault.into(), refusal.place),
    };
    Spot {
        number,
        fault,
        place: 0,
        end: 0,
        parent: 0,
        rows: 0,
        last: WalkerYield::End,
    }
}

/// A walk at its first yield.
#[tactic(auto, unfolding(crate::specs::Steps::opened_of))]
pub fn opened(file: &[u8]) -> Spot
    ensures { result ≡ opened_of file.now }
{
    step(file, start(file))
}

/// What a walk yielded last.
pub fn last(at: Spot) -> WalkerYield
    ensures { result ≡ at.last }
{
    at.last
}
