// The fields of a file's structures as numbers: how a word is taken apart, and whether a field keeps its rule, in FORMAT's order.
// A rule answers the fault of the first of its tests that fails; readers and writers ask the same ones. Places and bytes are other crates' matter.
#![tactic(auto)]

ghost use Rattle.std.specs.Prelude.{◌&&◌, [], ◌∷◌, ◌≡◌, ◌/◌, ◌%◌, ◌^◌, ◌≤◌, leb, get_or};
ghost use Rattle.theory.specs.Tests.{unless, first, among};
ghost use Rattle.note.specs.Faults.{fault_in, fault_number};
ghost use Rattle.note.specs.Words.{signed, unsigned};
ghost use Rattle.note.specs.Calls.{hundredth};
ghost use Rattle.note.specs.Events.{class_of, category_of, event_type_of, event_fault, event_word_rule};
ghost use Rattle.note.specs.Administrative.{locations, days_of_month, days_in, is_series, is_clock, administrative_fault};
ghost use Rattle.note.specs.Trace.{count_fault};
ghost use Rattle.note.specs.History.{is_width};
ghost use Rattle.note.specs.Gps.{are_digits, decimal, days_of_year, gps_fault};
ghost use Rattle.note.specs.Tlb.{is_tower, tlb_fault, zip_set};
ghost use Rattle.fields.specs.Digits.{gps_digits_fault};

use note::{Fault, Gps, Tlb};

// ---- tests, asked one after the other

/// A test of a rule: its fault, where it doesn't hold.
pub fn ensure(holds: bool, fault: Fault) -> Result<(), Fault>
    ensures { fault_in result ≡ unless holds (fault_number fault) }
{
    if holds { Ok(()) } else { Err(fault) }
}

// ---- the same by numbers, of which any is taken; 0 is no fault

/// The number of a test: none where it holds.
pub fn unless(holds: bool, number: u32) -> u32
    ensures { result ≡ unless holds number }
{
    if holds { 0 } else { number }
}

/// The first of two numbers that isn't 0, or 0.
pub fn earlier(one: u32, two: u32) -> u32
    ensures { result ≡ first (one ∷ two ∷ []) }
{
    if one != 0 { one } else { two }
}

/// The first of the number so far and the number of one more test.
pub fn or_unless(fault: u32, holds: bool, number: u32) -> u32
    ensures { result ≡ first (fault ∷ unless holds number ∷ []) }
{
    earlier(fault, unless(holds, number))
}

// ---- words

/// Digit k of w to the base 16, the lowest being 0. By shift and mask (FORMAT 5.4, 6.2).
#[tactic(auto, using(crate::proofs::DigitLaws::shifted_and_masked, crate::proofs::DigitLaws::past_word))]
pub fn nibble(w: u32, k: u32) -> u32
    ensures { result ≡ w / 16 ^ k % 16 }
{
    if k > 7 {
        return 0;
    }
    (w >> (4 * k)) & 15
}

/// The signed number whose 32 bits are w.
pub fn to_signed(w: u32) -> i32
    ensures { result ≡ signed w }
{
    w.cast_signed()
}

/// The 32 bits of a signed number.
pub fn from_signed(z: i32) -> u32
    ensures { result ≡ unsigned z }
{
    z.cast_unsigned()
}

/// A x100 word in working units: an exact cast, one division (FORMAT 8.6).
pub fn hundredth(z: i32) -> f64
    ensures { result ≡ hundredth z }
{
    (z as f64) / 100.0
}

// ---- an event's first word

/// The upper half of an event's first word.
pub const EVENT_MARK: u32 = 0xA980;

/// The greatest number that a signed word can say.
pub const GREATEST_SIGNED: u32 = 0x7FFF_FFFF;

// The classes, categories and types that events admit; type 7, within those, is monitoring. Numbers and no enums: `event_fault` is asked about any
// numbers.
const RAW: u32 = 0;

const MONTE_CARLO: u32 = 2;

const PER_TRIGGER: u32 = 0;

const OCCASIONAL: u32 = 1;

const SELECTIVE_READOUT: u32 = 6;

const LAST_TYPE: u32 = 0xA;

const MONITORING_TYPE: u32 = 7;

// Class and category are two definitions, and a line for each.
/// The class in an event's first word, a nibble (FORMAT 6.2).
pub fn class_of(w: u32) -> u32
    ensures { result ≡ class_of w }
{
    nibble(w, 3)
}

/// The category in an event's first word, a nibble (FORMAT 6.2).
pub fn category_of(w: u32) -> u32
    ensures { result ≡ category_of w }
{
    nibble(w, 2)
}

/// The type in an event's first word, by a mask (FORMAT 6.2).
pub fn event_type_of(w: u32) -> u32
    ensures { result ≡ event_type_of w }
{
    w & 255
}

// Whether events admit this class.
fn is_class(class: u32) -> bool
    ensures { result ≡ among class (0 ∷ 2 ∷ []) }
{
    matches!(class, RAW | MONTE_CARLO)
}

// Whether events admit this category.
fn is_category(category: u32) -> bool
    ensures { result ≡ among category (0 ∷ 1 ∷ 6 ∷ []) }
{
    matches!(category, PER_TRIGGER | OCCASIONAL | SELECTIVE_READOUT)
}

/// 7 where an event's class, category or type isn't admitted, 8 for monitoring. Any numbers are taken, and none is masked first.
#[tactic(auto, unfolding(note::specs::Events::event_fault, theory::specs::Tests::first))]
pub fn event_fault(class: u32, category: u32, event_type: u32) -> Result<(), Fault>
    ensures { fault_in result ≡ event_fault class category event_type }
{
    ensure(is_class(class), Fault::NotAdmitted)?;
    ensure(is_category(category), Fault::NotAdmitted)?;
    ensure(event_type <= LAST_TYPE, Fault::NotAdmitted)?;
    ensure(event_type != MONITORING_TYPE, Fault::Monitoring)
}

/// 5 where the upper half of an event's first word isn't the mark, then the fault of its class, category and type.
#[tactic(auto, unfolding(note::specs::Events::event_word_rule, theory::specs::Tests::first))]
pub fn event_word_rule(w: u32) -> Result<(), Fault>
    ensures { fault_in result ≡ event_word_rule w }
{
    ensure(w >> 16 == EVENT_MARK, Fault::WrongKind)?;
    event_fault(class_of(w), category_of(w), event_type_of(w))
}

// ---- administrative

// Whether LL, the first two digits of a series date, is a location.
fn is_location(ll: u32) -> bool
    requires { ll ≤ 99 }
    ensures { result ≡ among ll locations }
{
    matches!(ll, 0..=3 | 6 | 7 | 50..=53 | 56 | 57)
}

// The days of month mm in a year that isn't leap; 0 where there is no such month, as the definition has it: no day lies within 0 days.
fn days_of_month(mm: u32) -> u32
    ensures { result ≡ get_or days_of_month mm 0 }
{
    match mm {
        1 | 3 | 5 | 7 | 8 | 10 | 12 => 31,
        4 | 6 | 9 | 11 => 30,
        2 => 28,
        _ => 0,
    }
}

// The days of month mm in year yy; 0 where there is no such month.
fn days_in(yy: u32, mm: u32) -> u32
    ensures { result ≡ days_in yy mm }
{
    if mm == 2 && yy % 4 == 0 {
        29
    } else {
        days_of_month(mm)
    }
}

/// Whether w reads LLYYMMDD in decimal: a location and a day that exists.
#[tactic(auto, unfolding(note::specs::Administrative::is_series))]
pub fn is_series(w: u32) -> bool
    ensures { result ≡ is_series w }
{
    let day = w % 100;
    w <= 99_999_999
        && is_location(w / 1_000_000)
        && (1..=days_in(w / 10_000 % 100, w / 100 % 100)).contains(&day)
}

/// Whether w reads HHMM in decimal: a time of day.
#[tactic(auto, unfolding(note::specs::Administrative::is_clock))]
pub fn is_clock(w: u32) -> bool
    ensures { result ≡ is_clock w }
{
    w <= 2359 && w % 100 <= 59
}

/// 10 where the series words of an administrative record aren't a date and a time.
#[tactic(auto, unfolding(note::specs::Administrative::administrative_fault, theory::specs::Tests::first))]
pub fn administrative_fault(date: u32, clock: u32) -> Result<(), Fault>
    ensures { fault_in result ≡ administrative_fault date clock }
{
    ensure(is_series(date), Fault::WrongField)?;
    ensure(is_clock(clock), Fault::WrongField)
}

// ---- trace

/// Whether a digitizer has this channel.
pub fn is_channel(channel: u32) -> bool
    ensures { result ≡ (leb 1 channel && leb channel 8) }
{
    (1..=8).contains(&channel)
}

// A trace has 2 to 32,768 samples.
const FEWEST_SAMPLES: u32 = 2;

const MOST_SAMPLES: u32 = 32768;

/// 11 where a trace's n is odd, too small or too large.
#[tactic(auto, unfolding(note::specs::Trace::count_fault, theory::specs::Tests::first))]
pub fn count_fault(n: u32) -> Result<(), Fault>
    ensures { fault_in result ≡ count_fault n }
{
    ensure(n % 2 == 0, Fault::WrongCount)?;
    ensure(n >= FEWEST_SAMPLES, Fault::WrongCount)?;
    ensure(n <= MOST_SAMPLES, Fault::WrongCount)
}

// ---- history

// The masks for each time of a trigger section.
const TRIGGER_WIDTH: u32 = 6;

/// Whether a history section of so many times, veto or trigger, may have masks of this width; a missing section has neither. `trigger` is the
/// definition's own flag.
#[tactic(auto, unfolding(note::specs::History::is_width))]
pub fn is_width(trigger: bool, times: u32, width: u32) -> bool
    ensures { result ≡ is_width trigger times width }
{
    if times == 0 {
        width == 0
    } else if trigger {
        width == TRIGGER_WIDTH
    } else {
        width != 0
    }
}

// ---- GPS

/// Whether the lowest n BCD digits of w are each at most 9. By nibbles (FORMAT 5.4).
pub fn are_digits(n: u32, w: u32) -> bool
    ensures { result ≡ are_digits n w }
{
    for k in 0..n {
        if nibble(w, k) > 9 {
            return false;
        }
    }
    true
}

/// The number that the lowest n BCD digits of w write, of which a word has eight. By nibbles (FORMAT 5.4).
pub fn decimal(n: u32, w: u32) -> u32
    requires { n ≤ 8 }
    ensures { result ≡ decimal n w }
{
    let mut value = 0;
    for k in (0..n).rev() {
        value = value * 10 + nibble(w, k);
    }
    value
}

/// The days of a Gregorian year.
pub fn days_of_year(y: u32) -> u32
    ensures { result ≡ days_of_year y }
{
    let leap = y % 4 == 0 && (y % 100 != 0 || y % 400 == 0);
    if leap { 366 } else { 365 }
}

// Whether a year has this day.
fn is_day(year: u32, day: u32) -> bool
    ensures { result ≡ (leb 1 day && leb day (days_of_year year)) }
{
    (1..=days_of_year(year)).contains(&day)
}

/// 10 where a field of a GPS record is outside its rule.
#[tactic(auto, unfolding(note::specs::Gps::gps_fault, theory::specs::Tests::first))]
pub fn gps_fault(fields: Gps) -> Result<(), Fault>
    ensures { fault_in result ≡ gps_fault fields }
{
    ensure(fields.year <= 9999, Fault::WrongField)?;
    ensure(is_day(fields.year, fields.day), Fault::WrongField)?;
    ensure(fields.status <= 15, Fault::WrongField)?;
    ensure(fields.hour <= 23, Fault::WrongField)?;
    ensure(fields.minute <= 59, Fault::WrongField)?;
    ensure(fields.second <= 59, Fault::WrongField)?;
    ensure(fields.tenths <= 9_999_999, Fault::WrongField)
}

/// 10 where a digit of a GPS record's three words isn't a decimal digit, or the digit after the status isn't zero; the status is free.
#[tactic(auto, unfolding(crate::specs::Digits::gps_digits_fault, theory::specs::Tests::first))]
pub fn gps_digits_fault(w0: u32, w1: u32, w2: u32) -> Result<(), Fault>
    ensures { fault_in result ≡ gps_digits_fault w0 w1 w2 }
{
    ensure(are_digits(8, w0), Fault::WrongField)?;
    ensure(nibble(w1, 6) == 0, Fault::WrongField)?;
    ensure(are_digits(6, w1), Fault::WrongField)?;
    ensure(are_digits(8, w2), Fault::WrongField)
}

// ---- TLB mask

/// Whether w may stand for tower i: zero, or i in its top byte. By a shift (FORMAT 5.6).
#[tactic(auto, unfolding(note::specs::Tlb::is_tower))]
pub fn is_tower(i: u32, w: u32) -> bool
    ensures { result ≡ is_tower i w }
{
    w == 0 || w >> 24 == i
}

/// 10 where a word of a TLB record may not stand for its tower.
#[tactic(auto, unfolding(note::specs::Tlb::tlb_fault, theory::specs::Tests::first))]
pub fn tlb_fault(fields: Tlb) -> Result<(), Fault>
    ensures { fault_in result ≡ tlb_fault fields }
{
    ensure(is_tower(1, fields.tower1), Fault::WrongField)?;
    ensure(is_tower(2, fields.tower2), Fault::WrongField)?;
    ensure(is_tower(3, fields.tower3), Fault::WrongField)?;
    ensure(is_tower(4, fields.tower4), Fault::WrongField)?;
    ensure(is_tower(5, fields.tower5), Fault::WrongField)?;
    ensure(is_tower(6, fields.tower6), Fault::WrongField)
}

/// Whether the bit of ZIP z, from 1 to 24, is set in a TLB word. By shift and mask (FORMAT 5.6).
#[tactic(auto, unfolding(note::specs::Tlb::zip_set))]
pub fn zip(w: u32, z: u32) -> bool
    ensures { result ≡ zip_set w z }
{
    (1..=24).contains(&z) && (w >> (z - 1)) & 1 == 1
}
