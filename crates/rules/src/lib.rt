// The rules of the eight kinds: the fault of the first test that fails, in the order of FORMAT 4, 5. Each takes a body's bytes and its file's
// order, as the definitions do. Some are alike, as their definitions are: each states its own.
#![tactic(auto)]

ghost use Rattle.std.specs.Prelude.{◌≡◌, ◌+◌, ◌≤◌, ◌<◌, length};
ghost use Rattle.note.specs.Faults.{fault_in};
ghost use Rattle.note.specs.Phonon.{phonon_fault, phonon_rule};
ghost use Rattle.note.specs.Charge.{charge_fault, charge_rule};
ghost use Rattle.note.specs.Administrative.{administrative_rule};
ghost use Rattle.note.specs.Trace.{bookkeeping_rule, timebase_rule, samples_rule, trace_rule};
ghost use Rattle.note.specs.History.{width_at, width_of, end_at, section_rule, history_rule};
ghost use Rattle.note.specs.Gps.{gps_of, gps_rule};
ghost use Rattle.note.specs.Trigger.{trigger_rule};
ghost use Rattle.note.specs.Tlb.{tlb_of, tlb_rule};
ghost use Rattle.note.specs.Records.{record_rule};
ghost use Rattle.rules.specs.Kinds.{kind_word, Names};

use channels::{is_charge, is_named, is_phonon};
use fields::{
    GREATEST_SIGNED, administrative_fault, count_fault, decimal, ensure, gps_digits_fault,
    gps_fault, is_channel, is_width, tlb_fault,
};
use note::{Fault, Gps, Tlb};
use theory::Order;
use words::word_at;

/// The kinds of entries and records, with their kind words (FORMAT 6.1).
#[derive(Clone, Copy, Debug, PartialEq, Eq)]
pub enum Kind {
    Phonon = 0x0001_0001,
    Charge = 0x0001_0002,
    Administrative = 0x02,
    Trace = 0x11,
    History = 0x21,
    Gps = 0x60,
    Trigger = 0x80,
    Tlb = 0x81,
}

impl From<Kind> for u32 {
    ghost from_gives = { λ kind word. word ≡ kind_word kind };

    fn from(kind: Kind) -> u32 {
        kind as u32
    }
}

impl TryFrom<u32> for Kind {
    type Error = Fault;

    ghost try_from_gives = { Names };

    // A trace is asked for first: most records are traces.
    #[tactic(auto, unfolding(note::specs::Records::is_kind))]
    fn try_from(word: u32) -> Result<Kind, Fault> {
        match word {
            0x11 => Ok(Kind::Trace),
            0x0001_0001 => Ok(Kind::Phonon),
            0x0001_0002 => Ok(Kind::Charge),
            0x02 => Ok(Kind::Administrative),
            0x21 => Ok(Kind::History),
            0x60 => Ok(Kind::Gps),
            0x80 => Ok(Kind::Trigger),
            0x81 => Ok(Kind::Tlb),
            _ => Err(Fault::WrongKind),
        }
    }
}

// The lengths of the bodies that have one length.
const PHONON_LENGTH: usize = 44;

const CHARGE_LENGTH: usize = 32;

const ADMINISTRATIVE_LENGTH: usize = 24;

const GPS_LENGTH: usize = 12;

const TRIGGER_LENGTH: usize = 28;

const TLB_LENGTH: usize = 24;

/// The kinds of a trace's three inner blocks, and the length of the first two. Words and no enum: each is asked at one place, and no match tells
/// them apart.
pub const BOOKKEEPING: u32 = 0x11;

pub const TIMEBASE: u32 = 0x12;

pub const SAMPLE_BLOCK: u32 = 0x13;

pub const BLOCK_LENGTH: u32 = 12;

/// Where the fields of a trace stand in its body: base address, digitizer channel, detector code, time of the first sample, time between two,
/// the two counts of samples, the samples.
pub const ADDRESS_AT: usize = 8;

pub const CHANNEL_AT: usize = 12;

pub const CODE_AT: usize = 16;

pub const T0_AT: usize = 28;

pub const DELTA_AT: usize = 32;

const FIRST_N_AT: usize = 36;

pub const N_AT: usize = 44;

pub const SAMPLES_AT: usize = 48;

/// The fault of a phonon entry's code.
#[tactic(auto, unfolding(note::specs::Phonon::phonon_fault))]
pub fn phonon_fault(code: u32) -> Result<(), Fault>
    ensures { fault_in result ≡ phonon_fault code }
{
    ensure(is_phonon(code), Fault::WrongField)
}

/// The fault of a charge entry's code.
#[tactic(auto, unfolding(note::specs::Charge::charge_fault))]
pub fn charge_fault(code: u32) -> Result<(), Fault>
    ensures { fault_in result ≡ charge_fault code }
{
    ensure(is_charge(code), Fault::WrongField)
}

/// A phonon entry's rule.
#[tactic(auto, unfolding(note::specs::Phonon::phonon_rule, theory::specs::Tests::first), using(theory::proofs::TestLaws::last))]
pub fn phonon_rule(b: &[u8], order: Order) -> Result<(), Fault>
    ensures { fault_in result ≡ phonon_rule order b.now }
{
    ensure(b.len() == PHONON_LENGTH, Fault::WrongLength)?;
    phonon_fault(word_at(b, 0, order))
}

/// A charge entry's rule.
#[tactic(auto, unfolding(note::specs::Charge::charge_rule, theory::specs::Tests::first), using(theory::proofs::TestLaws::last))]
pub fn charge_rule(b: &[u8], order: Order) -> Result<(), Fault>
    ensures { fault_in result ≡ charge_rule order b.now }
{
    ensure(b.len() == CHARGE_LENGTH, Fault::WrongLength)?;
    charge_fault(word_at(b, 0, order))
}

/// An administrative record's rule.
#[tactic(auto, unfolding(note::specs::Administrative::administrative_rule, theory::specs::Tests::first), using(theory::proofs::TestLaws::last))]
pub fn administrative_rule(b: &[u8], order: Order) -> Result<(), Fault>
    ensures { fault_in result ≡ administrative_rule order b.now }
{
    ensure(b.len() == ADMINISTRATIVE_LENGTH, Fault::WrongLength)?;
    administrative_fault(word_at(b, 0, order), word_at(b, 4, order))
}

// A trace's first inner block: bookkeeping. It and the next two read a body that `trace_rule` has found long enough.
#[tactic(auto, unfolding(note::specs::Trace::bookkeeping_rule, theory::specs::Tests::first))]
fn bookkeeping_rule(b: &[u8], order: Order) -> Result<(), Fault>
    requires { 48 ≤ length b.now }
    ensures { fault_in result ≡ bookkeeping_rule order b.now }
{
    ensure(word_at(b, 0, order) == BOOKKEEPING, Fault::WrongKind)?;
    ensure(word_at(b, 4, order) == BLOCK_LENGTH, Fault::WrongLength)?;
    ensure(is_channel(word_at(b, CHANNEL_AT, order)), Fault::WrongField)?;
    ensure(is_named(word_at(b, CODE_AT, order)), Fault::WrongField)
}

// Its second: the timebase.
#[tactic(auto, unfolding(note::specs::Trace::timebase_rule, theory::specs::Tests::first))]
fn timebase_rule(b: &[u8], order: Order) -> Result<(), Fault>
    requires { 48 ≤ length b.now }
    ensures { fault_in result ≡ timebase_rule order b.now }
{
    ensure(word_at(b, 20, order) == TIMEBASE, Fault::WrongKind)?;
    ensure(word_at(b, 24, order) == BLOCK_LENGTH, Fault::WrongLength)?;
    ensure(word_at(b, DELTA_AT, order) >= 1, Fault::WrongField)
}

// Its third: the samples' count, the same as the first.
#[tactic(auto, unfolding(note::specs::Trace::samples_rule, theory::specs::Tests::first))]
fn samples_rule(b: &[u8], order: Order) -> Result<(), Fault>
    requires { 48 ≤ length b.now }
    ensures { fault_in result ≡ samples_rule order b.now }
{
    ensure(word_at(b, 40, order) == SAMPLE_BLOCK, Fault::WrongKind)?;
    let n = word_at(b, N_AT, order);
    count_fault(n)?;
    ensure(word_at(b, FIRST_N_AT, order) == n, Fault::WrongCount)
}

/// A trace's rule: it reads the first 48 bytes and no sample.
#[tactic(auto, unfolding(note::specs::Trace::trace_rule, theory::specs::Tests::first))]
pub fn trace_rule(b: &[u8], order: Order) -> Result<(), Fault>
    ensures { fault_in result ≡ trace_rule order b.now }
{
    ensure(b.len() >= SAMPLES_AT, Fault::WrongLength)?;
    bookkeeping_rule(b, order)?;
    timebase_rule(b, order)?;
    samples_rule(b, order)?;
    let size = SAMPLES_AT + 2 * word_at(b, N_AT, order) as usize;
    ensure(b.len() == size, Fault::WrongLength)
}

// A history section's rule, its count standing at place p. `trigger` is the definition's own flag.
#[tactic(auto, unfolding(note::specs::History::section_rule, crate::proofs::SectionLaws::places, theory::specs::Tests::first))]
fn section_rule(trigger: bool, p: usize, b: &[u8], order: Order) -> Result<(), Fault>
    requires { (p ≤ 0x7FFFFFFFFFFFFFFF) × (length b.now < 0x100000000) }
    ensures { fault_in result ≡ section_rule order trigger p b.now }
{
    let room = b.len();
    ensure(room >= p + 4, Fault::WrongLength)?;
    let times = word_at(b, p, order);
    ensure(times <= GREATEST_SIGNED, Fault::WrongField)?;
    let q = p + 4 + 4 * times as usize;
    ensure(room >= q + 4, Fault::WrongLength)?;
    let width = word_at(b, q, order);
    ensure(width <= GREATEST_SIGNED, Fault::WrongField)?;
    ensure(is_width(trigger, times, width), Fault::WrongField)
}

/// Where a section that follows its rule ends.
#[tactic(auto, unfolding(crate::proofs::SectionLaws::places), using(crate::proofs::SectionLaws::product))]
pub fn section_end(p: usize, b: &[u8], order: Order) -> usize
    requires { (width_at order p b.now + 4 ≤ length b.now) × (width_of order p b.now ≤ 0x7FFFFFFF)
        × (length b.now < 0x100000000) }
    ensures { result ≡ end_at order p b.now }
{
    let n = word_at(b, p, order) as usize;
    let q = p + 4 + 4 * n;
    let w = word_at(b, q, order) as usize;
    q + 4 + 4 * (n * w)
}

/// A history's rule. A body's length word has 32 bits: this is asked, here and of what hands a body on, and a type would ask more of callers.
#[tactic(auto, unfolding(note::specs::History::history_rule, theory::specs::Tests::first), using(crate::proofs::SectionLaws::followed))]
pub fn history_rule(b: &[u8], order: Order) -> Result<(), Fault>
    requires { length b.now < 0x100000000 }
    ensures { fault_in result ≡ history_rule order b.now }
{
    let room = b.len();
    ensure(room >= 16, Fault::WrongLength)?;
    ensure(room % 4 == 0, Fault::WrongLength)?;
    section_rule(false, 0, b, order)?;
    let middle = section_end(0, b, order);
    section_rule(true, middle, b, order)?;
    ensure(room == section_end(middle, b, order), Fault::WrongLength)
}

/// The numbers that a GPS record's three words write, by shifts and nibbles (FORMAT 5.4).
#[tactic(auto, unfolding(note::specs::Gps::gps_of))]
pub fn gps_in(b: &[u8], order: Order) -> Gps
    requires { 12 ≤ length b.now }
    ensures { result ≡ gps_of order b.now }
{
    let date = word_at(b, 0, order);
    let clock = word_at(b, 4, order);
    Gps {
        year: decimal(4, date >> 16),
        day: decimal(4, date),
        status: clock >> 28,
        hour: decimal(2, clock >> 16),
        minute: decimal(2, clock >> 8),
        second: decimal(2, clock),
        tenths: decimal(8, word_at(b, 8, order)),
    }
}

/// A GPS record's rule.
#[tactic(auto, unfolding(theory::specs::Tests::first), using(theory::proofs::TestLaws::last, fields::proofs::GpsRuleLaws::gps_rule_in_parts))]
pub fn gps_rule(b: &[u8], order: Order) -> Result<(), Fault>
    ensures { fault_in result ≡ gps_rule order b.now }
{
    ensure(b.len() == GPS_LENGTH, Fault::WrongLength)?;
    gps_digits_fault(
        word_at(b, 0, order),
        word_at(b, 4, order),
        word_at(b, 8, order),
    )?;
    gps_fault(gps_in(b, order))
}

/// A trigger record's rule.
#[tactic(auto, unfolding(note::specs::Trigger::trigger_rule, theory::specs::Tests::first))]
pub fn trigger_rule(b: &[u8], order: Order) -> Result<(), Fault>
    ensures { fault_in result ≡ trigger_rule order b.now }
{
    ensure(b.len() == TRIGGER_LENGTH, Fault::WrongLength)?;
    ensure(word_at(b, 0, order) == 0, Fault::WrongField)
}

/// The words of a TLB mask.
#[tactic(auto, unfolding(note::specs::Tlb::tlb_of))]
pub fn tlb_in(b: &[u8], order: Order) -> Tlb
    requires { 24 ≤ length b.now }
    ensures { result ≡ tlb_of order b.now }
{
    Tlb {
        tower1: word_at(b, 0, order),
        tower2: word_at(b, 4, order),
        tower3: word_at(b, 8, order),
        tower4: word_at(b, 12, order),
        tower5: word_at(b, 16, order),
        tower6: word_at(b, 20, order),
    }
}

/// A TLB mask's rule.
#[tactic(auto, unfolding(note::specs::Tlb::tlb_rule, theory::specs::Tests::first), using(theory::proofs::TestLaws::last))]
pub fn tlb_rule(b: &[u8], order: Order) -> Result<(), Fault>
    ensures { fault_in result ≡ tlb_rule order b.now }
{
    ensure(b.len() == TLB_LENGTH, Fault::WrongLength)?;
    tlb_fault(tlb_in(b, order))
}

/// The rule of a kind. Most records are traces.
#[tactic(auto, unfolding(note::specs::Records::kind_of))]
pub fn rule(kind: Kind, b: &[u8], order: Order) -> Result<(), Fault>
    requires { length b.now < 0x100000000 }
    ensures { fault_in result ≡ record_rule order (kind_word kind) b.now }
{
    match kind {
        Kind::Trace => trace_rule(b, order),
        Kind::Phonon => phonon_rule(b, order),
        Kind::Charge => charge_rule(b, order),
        Kind::Administrative => administrative_rule(b, order),
        Kind::History => history_rule(b, order),
        Kind::Gps => gps_rule(b, order),
        Kind::Trigger => trigger_rule(b, order),
        Kind::Tlb => tlb_rule(b, order),
    }
}
