// Record and Setting: what stands at a place of a file, with its fields; an entry in working units. Any file and any place are taken.
#![tactic(auto)]

ghost use Rattle.std.specs.Prelude.{◌≡◌, ◌∷◌, ◌+◌, ◌≤◌, length};
ghost use Rattle.theory.specs.Tests.{ok};
ghost use Rattle.note.specs.Limits.{file_limit};
ghost use Rattle.note.specs.Words.{word, signed};
ghost use Rattle.note.specs.Answers.{accepted, count, setting_values, given_record, given_setting};
ghost use Rattle.note.specs.Phonon.{phonon_of, phonon_kind};
ghost use Rattle.note.specs.Charge.{charge_of, charge_kind};
ghost use Rattle.note.specs.Administrative.{administrative_of};
ghost use Rattle.note.specs.Trace.{trace_kind};
ghost use Rattle.note.specs.History.{width_at, section_values, history_rule, history_kind};
ghost use Rattle.note.specs.Trigger.{trigger_of};
ghost use Rattle.note.specs.Records.{record_rule, kind_of};
ghost use Rattle.note.specs.Calls.{record_found, record_at, hundredth, phonon_setting, charge_setting, setting_given, setting_at};
ghost use Rattle.rules.specs.Kinds.{kind_word};
ghost use Rattle.record.specs.Steps.{head_in, step_of};
ghost use Rattle.answers.specs.Bodies.{body_at, kind_given, section_numbers};

use fields::{hundredth, to_signed};
use note::{Administrative, Charge, Fault, Phonon, RecordAnswer, Refusal, SettingAnswer, Trigger};
use record::{Context, FRONT, Head, record_in};
use rules::{
    ADDRESS_AT, CHANNEL_AT, CODE_AT, DELTA_AT, Kind, N_AT, T0_AT, gps_in, section_end, tlb_in,
};
use theory::Order;
use words::word_at;

// ---- the fields of a body: a function for each struct, which is its fields by their places, of a body that has all its words

/// The signed word at a place of the bytes.
#[tactic(auto, using(crate::proofs::SignedLaws::kept))]
pub fn signed_at(s: &[u8], at: usize, order: Order) -> i32
    requires { at + 4 ≤ length s.now }
    ensures { result ≡ signed (word order at s.now) }
{
    to_signed(word_at(s, at, order))
}

/// A phonon entry's words.
#[tactic(auto, unfolding(note::specs::Phonon::phonon_of))]
pub fn phonon_in(b: &[u8], order: Order) -> Phonon
    requires { 44 ≤ length b.now }
    ensures { result ≡ phonon_of order b.now }
{
    Phonon {
        code: signed_at(b, 0, order),
        tower: signed_at(b, 4, order),
        gain: signed_at(b, 8, order),
        qet_bias: signed_at(b, 12, order),
        squid_bias: signed_at(b, 16, order),
        lockpoint: signed_at(b, 20, order),
        rtf_offset: signed_at(b, 24, order),
        variable_gain: signed_at(b, 28, order),
        delta_t: signed_at(b, 32, order),
        t0: signed_at(b, 36, order),
        trace_length: signed_at(b, 40, order),
    }
}

/// A charge entry's words.
#[tactic(auto, unfolding(note::specs::Charge::charge_of))]
pub fn charge_in(b: &[u8], order: Order) -> Charge
    requires { 32 ≤ length b.now }
    ensures { result ≡ charge_of order b.now }
{
    Charge {
        code: signed_at(b, 0, order),
        tower: signed_at(b, 4, order),
        gain: signed_at(b, 8, order),
        bias: signed_at(b, 12, order),
        rtf_offset: signed_at(b, 16, order),
        delta_t: signed_at(b, 20, order),
        t0: signed_at(b, 24, order),
        trace_length: signed_at(b, 28, order),
    }
}

/// An administrative record's words.
#[tactic(auto, unfolding(note::specs::Administrative::administrative_of))]
pub fn administrative_in(b: &[u8], order: Order) -> Administrative
    requires { 24 ≤ length b.now }
    ensures { result ≡ administrative_of order b.now }
{
    Administrative {
        date: word_at(b, 0, order),
        clock: word_at(b, 4, order),
        number: word_at(b, 8, order),
        time: word_at(b, 12, order),
        since: word_at(b, 16, order),
        live: word_at(b, 20, order),
    }
}

/// A trigger record's masks.
#[tactic(auto, unfolding(note::specs::Trigger::trigger_of))]
pub fn trigger_in(b: &[u8], order: Order) -> Trigger
    requires { 28 ≤ length b.now }
    ensures { result ≡ trigger_of order b.now }
{
    Trigger {
        mask1: word_at(b, 4, order),
        mask2: word_at(b, 8, order),
        mask3: word_at(b, 12, order),
        mask4: word_at(b, 16, order),
        mask5: word_at(b, 20, order),
        mask6: word_at(b, 24, order),
    }
}

// A trace's fields without its samples; n is its second count.
#[tactic(auto, unfolding(note::specs::Trace::trace_of, note::specs::Answers::given_record))]
fn trace_answer(b: &[u8], order: Order) -> RecordAnswer
    requires { 48 ≤ length b.now }
    ensures { given_record result ≡ kind_given order trace_kind 0 b.now }
{
    RecordAnswer::Trace {
        address: word_at(b, ADDRESS_AT, order),
        channel: word_at(b, CHANNEL_AT, order),
        code: word_at(b, CODE_AT, order),
        t0: signed_at(b, T0_AT, order),
        delta_t: word_at(b, DELTA_AT, order),
        n: word_at(b, N_AT, order),
    }
}

// A history's section as the answer gives it: its count of times, where they start, its width, where its masks start. Places in the file, where a
// writer's `Section` has bytes.
#[derive(Clone, Copy)]
struct Section {
    count: u32,
    times: u32,
    width: u32,
    masks: u32,
}

// The section whose count stands at place p of a body that stands at `from`.
#[tactic(auto, unfolding(note::specs::History::width_at, note::specs::History::width_of, note::specs::History::section_values))]
fn section_of(from: usize, p: usize, b: &[u8], order: Order) -> Section
    requires { (width_at order p b.now + 4 ≤ length b.now) × (from + length b.now ≤ file_limit) }
    ensures { section_numbers result ≡ section_values order from p b.now }
{
    let count = word_at(b, p, order);
    let width_at = p + 4 + 4 * count as usize;
    Section {
        count,
        times: (from + (p + 4)) as u32,
        width: word_at(b, width_at, order),
        masks: (from + (width_at + 4)) as u32,
    }
}

// A history's sections, as places of the file that has the record at `place`.
#[tactic(auto, unfolding(note::specs::Answers::given_record))]
fn history_answer(place: usize, b: &[u8], order: Order) -> RecordAnswer
    requires { (history_rule order b.now ≡ 0) × (place + 8 + length b.now ≤ file_limit) }
    ensures { given_record result ≡ kind_given order history_kind place b.now }
{
    let from = place + FRONT;
    let veto = section_of(from, 0, b, order);
    let trigger = section_of(from, section_end(0, b, order), b, order);
    RecordAnswer::History {
        veto_times: veto.count,
        veto_times_at: veto.times,
        veto_width: veto.width,
        veto_masks_at: veto.masks,
        trigger_times: trigger.count,
        trigger_times_at: trigger.times,
        trigger_width: trigger.width,
        trigger_masks_at: trigger.masks,
    }
}

// The fields of a body that follows its kind's rule, of a record at `place`: its one caller has just found that it does.
#[tactic(auto, using(rules::proofs::LengthLaws::long_enough), unfolding(note::specs::Records::kind_of, note::specs::Answers::given_record))]
fn fields_of(kind: Kind, place: usize, b: &[u8], order: Order) -> RecordAnswer
    requires { (record_rule order (kind_word kind) b.now ≡ 0) × (place + 8 + length b.now ≤ file_limit) }
    ensures { given_record result ≡ kind_given order (kind_of (kind_word kind)) place b.now }
{
    match kind {
        Kind::Phonon => RecordAnswer::Phonon(phonon_in(b, order)),
        Kind::Charge => RecordAnswer::Charge(charge_in(b, order)),
        Kind::Administrative => RecordAnswer::Administrative(administrative_in(b, order)),
        Kind::Trace => trace_answer(b, order),
        Kind::History => history_answer(place, b, order),
        Kind::Gps => RecordAnswer::Gps(gps_in(b, order)),
        Kind::Trigger => RecordAnswer::Trigger(trigger_in(b, order)),
        Kind::Tlb => RecordAnswer::Tlb(tlb_in(b, order)),
    }
}

// ---- the calls

/// What Record finds at a place: the kind and the body's length, or Record's refusal. Every call by place begins with it.
#[tactic(auto, using(crate::proofs::FoundLaws::ways))]
pub fn record_found(file: &[u8], place: usize, order: Order) -> Result<Head, Refusal>
    ensures { head_in result ≡ step_of (record_found order file.now place) }
{
    if file.len() > record::FILE_LIMIT {
        return Err(Fault::TooLarge.at(0));
    }
    if place > file.len() {
        return Err(Fault::TooShort.at(place));
    }
    record_in(&file[place..], place, Context::Alone, order)
}

// The n bytes behind the two words of a record at a place.
fn body_at(file: &[u8], place: usize, n: usize) -> &[u8]
    requires { place + 8 + n ≤ length file.now }
    ensures { result.now ≡ body_at file.now place n }
{
    &file[place + FRONT..place + FRONT + n]
}

/// Record: the record or entry at a place with its fields, the whole file its parent and no event's rules; or a refusal.
/// A case for each kind (FORMAT 8.5).
#[tactic(auto, using(crate::proofs::FoundLaws::founds), unfolding(note::specs::Answers::given_record, note::specs::Calls::record_at))]
pub fn record(file: &[u8], place: usize, order: Order) -> RecordAnswer
    ensures { given_record result ≡ record_at order file.now place }
{
    match record_found(file, place, order) {
        Ok(found) => fields_of(found.kind, place, body_at(file, place, found.length), order),
        Err(refusal) => RecordAnswer::Refused(refusal),
    }
}

// A phonon entry's words in working units: those times 100 as floats (FORMAT 8.6).
#[tactic(auto, unfolding(note::specs::Calls::phonon_setting))]
fn phonon_setting(fields: Phonon) -> SettingAnswer
    ensures { accepted (setting_values result) ≡ accepted (count phonon_kind.row ∷ phonon_setting fields) }
{
    SettingAnswer::Phonon {
        code: fields.code,
        tower: fields.tower,
        gain: hundredth(fields.gain),
        qet_bias: hundredth(fields.qet_bias),
        squid_bias: hundredth(fields.squid_bias),
        lockpoint: hundredth(fields.lockpoint),
        rtf_offset: fields.rtf_offset,
        variable_gain: fields.variable_gain,
        delta_t: fields.delta_t,
        t0: fields.t0,
        trace_length: fields.trace_length,
    }
}

// A charge entry's words in working units; its bias stays a whole number.
#[tactic(auto, unfolding(note::specs::Calls::charge_setting))]
fn charge_setting(fields: Charge) -> SettingAnswer
    ensures { accepted (setting_values result) ≡ accepted (count charge_kind.row ∷ charge_setting fields) }
{
    SettingAnswer::Charge {
        code: fields.code,
        tower: fields.tower,
        gain: hundredth(fields.gain),
        bias: fields.bias,
        rtf_offset: fields.rtf_offset,
        delta_t: fields.delta_t,
        t0: fields.t0,
        trace_length: fields.trace_length,
    }
}

// The setting of a body that follows its kind's rule; 5 at the place for another kind.
#[tactic(auto, using(rules::proofs::LengthLaws::long_enough), unfolding(note::specs::Answers::given_setting))]
fn setting_of(kind: Kind, place: usize, b: &[u8], order: Order) -> Result<SettingAnswer, Refusal>
    requires { record_rule order (kind_word kind) b.now ≡ 0 }
    ensures { given_setting result ≡ setting_given order place (ok (record { word = kind_word kind; body = b.now })) }
{
    match kind {
        Kind::Phonon => Ok(phonon_setting(phonon_in(b, order))),
        Kind::Charge => Ok(charge_setting(charge_in(b, order))),
        _ => Err(Fault::WrongKind.at(place)),
    }
}

/// Setting: the entry at a place in working units; Record's refusals, then 5 there for another kind.
/// A case for each kind of entry, with floats (FORMAT 8.6).
#[tactic(auto, using(crate::proofs::FoundLaws::founds), unfolding(note::specs::Answers::given_setting, note::specs::Calls::setting_at))]
pub fn setting(file: &[u8], place: usize, order: Order) -> Result<SettingAnswer, Refusal>
    ensures { given_setting result ≡ setting_at order file.now place }
{
    let found = record_found(file, place, order)?;
    setting_of(found.kind, place, body_at(file, place, found.length), order)
}
