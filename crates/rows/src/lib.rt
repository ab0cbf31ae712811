// Rows: a record's row kind and values out of its body, and a row's place in a lent buffer.
#![tactic(auto)]

ghost use Rattle.std.specs.Prelude.{◌≡◌, true, [], ◌∷◌, ◌+◌, ◌*◌, ◌≤◌, ◌<◌, length};
ghost use Rattle.rules.specs.Kinds.{kind_word};
ghost use Rattle.rows.specs.Buffers.{row_of, stored};
ghost use Rattle.rows.specs.Values.{standing_of, has_values, values_of};

use note::{
    ADMINISTRATIVE_ROW, CHARGE_ROW, GPS_ROW, HISTORY_ROW, PHONON_ROW, TLB_ROW, TRACE_ROW,
    TRIGGER_ROW,
};
use rules::{CODE_AT, Kind, N_AT, history_rule, section_end};
use theory::Order;
use words::word_at;

/// How many numbers a row has.
pub const ROW_WIDTH: usize = 6;

/// The header's length, and where the configuration begins, as rows say them.
pub const HEADER_BYTES: u32 = 8;

/// A row, as it is stored: six numbers, of which one is its kind and one its parent's row. A yield has the same six (`WalkerYield`), a case for C.
#[derive(Clone, Copy, Debug, PartialEq, Eq)]
pub struct Row {
    pub kind: u32,
    pub start: u32,
    pub whole: u32,
    pub parent: u32,
    pub one: u32,
    pub two: u32,
}

/// A record's row kind and its row's two values, which are numbers of the row.
#[derive(Clone, Copy, Debug, PartialEq, Eq)]
pub struct Values {
    pub kind: u32,
    pub one: u32,
    pub two: u32,
}

/// A kind's row kind, and where its row's values stand in a body, a history's second apart.
#[derive(Clone, Copy)]
pub struct Standing {
    pub kind: u32,
    pub one: usize,
    pub two: usize,
}

// Where the values of a kind's row stand.
#[tactic(auto, unfolding(crate::specs::Values::standing_of, note::specs::Records::kind_of))]
fn value_places(kind: Kind) -> Standing
    ensures { result ≡ standing_of (kind_word kind) }
{
    let (kind, one, two) = match kind {
        Kind::Phonon => (PHONON_ROW, 0, 4),
        Kind::Charge => (CHARGE_ROW, 0, 4),
        Kind::Administrative => (ADMINISTRATIVE_ROW, 8, 12),
        Kind::Trace => (TRACE_ROW, CODE_AT, N_AT),
        Kind::History => (HISTORY_ROW, 0, 4),
        Kind::Gps => (GPS_ROW, 0, 4),
        Kind::Trigger => (TRIGGER_ROW, 4, 8),
        Kind::Tlb => (TLB_ROW, 0, 4),
    };
    Standing { kind, one, two }
}

/// Whether a kind's row has values, and a body holds the words that they are. Of any word: a walk's step hands over what stands at its numbers.
pub fn has_values(word: u32, b: &[u8], order: Order) -> bool
    requires { length b.now < 0x100000000 }
    ensures { result ≡ has_values order word b.now }
{
    let Ok(kind) = Kind::try_from(word) else {
        return false;
    };
    match kind {
        Kind::History => history_rule(b, order).is_ok(),
        _ => value_places(kind).two + 4 <= b.len(),
    }
}

/// A row's values, from a body that holds them: apart from `has_values`, which Table, of a checked file, needn't ask.
pub fn values_in(word: u32, b: &[u8], order: Order) -> Values
    requires { (has_values order word b.now ≡ true) × (length b.now < 0x100000000) }
    ensures { result ≡ values_of order word b.now }
{
    let Ok(kind) = Kind::try_from(word) else {
        // Not reached. `unreachable!()` would trap where a file is changed under a call, which no contract speaks of.
        return Values {
            kind: 0,
            one: 0,
            two: 0,
        };
    };
    let standing = value_places(kind);
    let two = match kind {
        Kind::History => section_end(0, b, order),
        _ => standing.two,
    };
    Values {
        kind: standing.kind,
        one: word_at(b, standing.one, order),
        two: word_at(b, two, order),
    }
}

/// Stores the row with the index n, from 0.
pub fn put_row(rows: &mut [u32], n: usize, row: Row)
    requires { n * 6 + 6 ≤ length rows.old }
    ensures { rows.new ≡ stored rows.old n (row_of row ∷ []) }
{
    let i = n * ROW_WIDTH;
    // Number by number: `copy_from_slice` of the six takes twice as long.
    let part = &mut rows[i..i + ROW_WIDTH];
    part[0] = row.kind;
    part[1] = row.start;
    part[2] = row.whole;
    part[3] = row.parent;
    part[4] = row.one;
    part[5] = row.two;
}
