// One record: what stands at the front of a part, in its context. Whoever checks records takes this step.
#![tactic(auto)]

ghost use Rattle.std.specs.Prelude.{◌≡◌, length};
ghost use Rattle.theory.specs.Tests.{among};
ghost use Rattle.note.specs.Records.{entry_kinds, record_kinds, event, unseen, is_kind, is_placed, is_allowed, behind, read_record};
ghost use Rattle.rules.specs.Kinds.{kind_word};
ghost use Rattle.record.specs.Steps.{seen_of, context_of, KindIn, head_in, step_of};

use note::{Fault, Refusal};
use rules::{Kind, rule};
use theory::Order;
use words::word_at;

/// The greatest length of a lent file.
pub const FILE_LIMIT: usize = 16_777_216;

/// The bytes of a structure's two words, kind and length, in front of its body.
pub const FRONT: usize = 8;

/// Which kinds came before in an event, of those that occur at most once (FORMAT 6.2).
#[derive(Clone, Copy, Debug, PartialEq, Eq)]
pub struct Seen {
    pub administrative: bool,
    pub history: bool,
    pub gps: bool,
    pub trigger: bool,
    pub tlb: bool,
}

/// Where a record is read (FORMAT 6.1): as an entry of a configuration, in an event after what came before, or alone.
#[derive(Clone, Copy, Debug, PartialEq, Eq)]
pub enum Context {
    Entry,
    Event(Seen),
    Alone,
}

/// What stands at the front of a part: a record's kind and its body's length.
#[derive(Clone, Copy, Debug, PartialEq, Eq)]
pub struct Head {
    pub kind: Kind,
    pub length: usize,
}

/// An event before its first record.
pub fn fresh() -> Context
    ensures { context_of result ≡ event unseen }
{
    Context::Event(Seen {
        administrative: false,
        history: false,
        gps: false,
        trigger: false,
        tlb: false,
    })
}

fn is_entry_kind(kind: Kind) -> bool
    ensures { result ≡ among (kind_word kind) entry_kinds }
{
    matches!(kind, Kind::Phonon | Kind::Charge)
}

fn is_record_kind(kind: Kind) -> bool
    ensures { result ≡ among (kind_word kind) record_kinds }
{
    !matches!(kind, Kind::Phonon | Kind::Charge)
}

// Whether a kind is allowed here. A context and a kind go together below: a state, and what comes to it.
#[tactic(auto, unfolding(note::specs::Records::is_kind))]
fn is_kind(context: Context, kind: Kind) -> bool
    ensures { result ≡ is_kind (context_of context) (kind_word kind) }
{
    match context {
        Context::Entry => is_entry_kind(kind),
        Context::Event(_) => is_record_kind(kind),
        Context::Alone => true,
    }
}

// Whether a record may stand after those that came before.
#[tactic(auto, unfolding(note::specs::Records::is_placed))]
fn is_placed(seen: Seen, kind: Kind) -> bool
    ensures { result ≡ is_placed (seen_of seen) (kind_word kind) }
{
    match kind {
        Kind::Administrative => !seen.administrative,
        Kind::History => seen.administrative && !seen.history,
        Kind::Gps => seen.administrative && !seen.gps,
        Kind::Trigger => seen.administrative && !seen.trigger,
        Kind::Tlb => seen.administrative && !seen.tlb,
        _ => seen.administrative,
    }
}

#[tactic(auto, unfolding(note::specs::Records::is_allowed))]
fn is_allowed(context: Context, kind: Kind) -> bool
    ensures { result ≡ is_allowed (context_of context) (kind_word kind) }
{
    match context {
        Context::Event(seen) => is_placed(seen, kind),
        _ => true,
    }
}

// What came before in an event, with one record more.
#[tactic(auto, unfolding(note::specs::Records::noted))]
fn noted(seen: Seen, kind: Kind) -> Seen
    ensures { seen_of result ≡ Rattle.note.specs.Records.noted (seen_of seen) (kind_word kind) }
{
    match kind {
        Kind::Administrative => Seen {
            administrative: true,
            ..seen
        },
        Kind::History => Seen {
            history: true,
            ..seen
        },
        Kind::Gps => Seen { gps: true, ..seen },
        Kind::Trigger => Seen {
            trigger: true,
            ..seen
        },
        Kind::Tlb => Seen { tlb: true, ..seen },
        _ => seen,
    }
}

/// The context behind a record of that kind. Most records are traces, which change none.
#[tactic(auto, unfolding(note::specs::Records::behind))]
pub fn next_context(context: Context, kind: Kind) -> Context
    ensures { context_of result ≡ behind (context_of context) (kind_word kind) }
{
    match context {
        Context::Event(seen) => Context::Event(noted(seen, kind)),
        _ => context,
    }
}

// The kind that a word names, of those that are allowed here.
#[tactic(auto, using(crate::proofs::StepLaws::nowhere))]
fn kind_in(context: Context, word: u32) -> Result<Kind, Fault>
    ensures { KindIn (context_of context) word result }
{
    let kind = Kind::try_from(word)?;
    if is_kind(context, kind) {
        Ok(kind)
    } else {
        Err(Fault::WrongKind)
    }
}

/// The record at the front of a part, whose first byte stands at the place `at`.
pub fn record_in(part: &[u8], at: usize, context: Context, order: Order) -> Result<Head, Refusal>
    ensures { head_in result ≡ step_of (read_record order (context_of context) at part.now) }
{
    let room = part.len();
    if room < FRONT {
        return Err(Fault::TooShort.at(at));
    }
    let Ok(kind) = kind_in(context, word_at(part, 0, order)) else {
        return Err(Fault::WrongKind.at(at));
    };
    let length = word_at(part, 4, order) as usize;
    if room - FRONT < length {
        return Err(Fault::TooShort.at(at));
    }
    if !is_allowed(context, kind) {
        return Err(Fault::Misplaced.at(at));
    }
    // A fault gets its place here: `map_err` would give it by a closure.
    if let Err(fault) = rule(kind, &part[FRONT..FRONT + length], order) {
        return Err(fault.at(at));
    }
    Ok(Head { kind, length })
}
