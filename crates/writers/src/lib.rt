// The eight record and entry writers. Each hands its fields' fault, its kind, its body's words and the bytes behind them to `write_record`, the
// entries', whose fields are all signed, by way of `write_entry`; a history, which has several parts, is stored by `put_history`. All is known before
// the first store.
#![tactic(auto)]

ghost use Rattle.std.specs.Prelude.{◌≡◌, [], map, ◌+◌, ◌*◌, ◌%◌, ◌^◌, ◌≤◌, ◌<◌, length};
ghost use Rattle.std.proofs.lemmas.List.Edits.{sets};
ghost use Rattle.note.specs.Faults.{fault_in};
ghost use Rattle.note.specs.Words.{unsigned};
ghost use Rattle.note.specs.Gps.{bcd};
ghost use Rattle.note.specs.History.{section_bytes};
ghost use Rattle.note.specs.Writers.{phonon_draft, charge_draft, administrative_draft, trace_draft, history_draft, gps_draft, trigger_draft, tlb_draft};
ghost use Rattle.note.specs.Writers.{trace_handed, section_handed, history_handed};
ghost use Rattle.rules.specs.Kinds.{kind_word};
ghost use Rattle.stores.specs.Structures.{structure_draft};
ghost use Rattle.stores.specs.Writes.{WriterDid};

use faults::{history_fault, trace_fault};
use fields::{administrative_fault, from_signed, gps_fault, tlb_fault};
use note::{
    Administrative, Charge, Fault, Gps, History, Phonon, Refusal, Section, Tlb, Trace, Trigger,
};
use rules::{BLOCK_LENGTH, BOOKKEEPING, Kind, SAMPLE_BLOCK, TIMEBASE, charge_fault, phonon_fault};
use stores::{granted, put_part, put_words, write_record};
use theory::Order;

// ---- entries, whose fields are all signed

// The words of signed fields.
fn words_of<const N: usize>(fields: [i32; N]) -> [u32; N]
    requires { N ≤ 11 }
    ensures { result ≡ map unsigned fields.entry }
{
    fields.map(from_signed)
}

// Writes an entry of this kind from its words, whose fields have this fault, or none.
fn write_entry(
    out: &mut [u8],
    place: usize,
    fault: Result<(), Fault>,
    kind: Kind,
    ws: &[u32],
    order: Order,
) -> Result<usize, Refusal>
    requires { length ws.now ≤ 11 }
    ensures { WriterDid out.old place (structure_draft order (fault_in fault) (kind_word kind) ws.now []) result out.new }
{
    write_record(out, place, fault, kind, ws, &[], order)
}

/// Writes a phonon entry (FORMAT 4.1).
pub fn write_phonon(
    out: &mut [u8],
    place: usize,
    fields: Phonon,
    order: Order,
) -> Result<usize, Refusal>
    ensures { WriterDid out.old place (phonon_draft order fields) result out.new }
{
    let ws = words_of([
        fields.code,
        fields.tower,
        fields.gain,
        fields.qet_bias,
        fields.squid_bias,
        fields.lockpoint,
        fields.rtf_offset,
        fields.variable_gain,
        fields.delta_t,
        fields.t0,
        fields.trace_length,
    ]);
    write_entry(
        out,
        place,
        phonon_fault(from_signed(fields.code)),
        Kind::Phonon,
        &ws,
        order,
    )
}

/// Writes a charge entry (FORMAT 4.2).
pub fn write_charge(
    out: &mut [u8],
    place: usize,
    fields: Charge,
    order: Order,
) -> Result<usize, Refusal>
    ensures { WriterDid out.old place (charge_draft order fields) result out.new }
{
    let ws = words_of([
        fields.code,
        fields.tower,
        fields.gain,
        fields.bias,
        fields.rtf_offset,
        fields.delta_t,
        fields.t0,
        fields.trace_length,
    ]);
    write_entry(
        out,
        place,
        charge_fault(from_signed(fields.code)),
        Kind::Charge,
        &ws,
        order,
    )
}

// ---- administrative

/// Writes an administrative record (FORMAT 5.1).
pub fn write_administrative(
    out: &mut [u8],
    place: usize,
    fields: Administrative,
    order: Order,
) -> Result<usize, Refusal>
    ensures { WriterDid out.old place (administrative_draft order fields) result out.new }
{
    write_record(
        out,
        place,
        administrative_fault(fields.date, fields.clock),
        Kind::Administrative,
        &[
            fields.date,
            fields.clock,
            fields.number,
            fields.time,
            fields.since,
            fields.live,
        ],
        &[],
        order,
    )
}

// ---- trace

/// Writes a trace with its samples (FORMAT 5.2).
pub fn write_trace(
    out: &mut [u8],
    place: usize,
    fields: Trace,
    order: Order,
) -> Result<usize, Refusal>
    ensures { WriterDid out.old place (trace_draft order (trace_handed fields.entry)) result out.new }
{
    write_record(
        out,
        place,
        trace_fault(fields),
        Kind::Trace,
        &[
            BOOKKEEPING,
            BLOCK_LENGTH,
            fields.address,
            fields.channel,
            fields.code,
            TIMEBASE,
            BLOCK_LENGTH,
            from_signed(fields.t0),
            fields.delta_t,
            fields.n,
            SAMPLE_BLOCK,
            fields.n,
        ],
        fields.samples,
        order,
    )
}

// ---- history

// A history section's size.
fn section_size(section: Section) -> usize
    requires { 8 + (length section.times.now + length section.masks.now) < 0x10000000000000000 }
    ensures { result ≡ 8 + (length section.entry.times.now + length section.entry.masks.now) }
{
    8 + (section.times.len() + section.masks.len())
}

// A history's size: asked only where its fields have no fault, since of any others it may pass a machine number.
fn history_size(fault: Result<(), Fault>, fields: History) -> usize
    requires { fault_in fault ≡ 0 → 24 + ((length fields.veto.times.now + length fields.veto.masks.now)
        + (length fields.trigger.times.now + length fields.trigger.masks.now)) < 0x10000000000000000 }
    ensures { fault_in fault ≡ 0 → result ≡ 24 + ((length fields.entry.veto.times.now + length fields.entry.veto.masks.now)
        + (length fields.entry.trigger.times.now + length fields.entry.trigger.masks.now)) }
{
    match fault {
        Ok(()) => 8 + (section_size(fields.veto) + section_size(fields.trigger)),
        Err(_) => 0,
    }
}

// Stores a history section from a place on.
fn put_section(part: &mut [u8], at: usize, section: Section, order: Order)
    requires { at + (8 + (length section.times.now + length section.masks.now)) ≤ length part.old }
    ensures { part.new ≡ sets part.old at (section_bytes order (section_handed section.entry)) }
{
    let middle = at + 4 + section.times.len();
    put_words(part, at, &[section.count], order);
    put_part(part, at + 4, section.times);
    put_words(part, middle, &[section.width], order);
    put_part(part, middle + 4, section.masks);
}

// Stores a history from the part's first byte on.
fn put_history(part: &mut [u8], fields: History, order: Order)
    requires { (24 + ((length fields.veto.times.now + length fields.veto.masks.now)
        + (length fields.trigger.times.now + length fields.trigger.masks.now)) ≤ length part.old)
        × (length part.old ≤ 0xFFFFFFFF) }
    ensures { part.new ≡ sets part.old 0 (history_draft order (history_handed fields.entry)).bytes }
{
    let veto = section_size(fields.veto);
    let trigger = section_size(fields.trigger);
    put_words(
        part,
        0,
        &[Kind::History.into(), (veto + trigger) as u32],
        order,
    );
    put_section(part, 8, fields.veto, order);
    put_section(part, 8 + veto, fields.trigger, order);
}

/// Writes a history with its lists (FORMAT 5.3).
pub fn write_history(
    out: &mut [u8],
    place: usize,
    fields: History,
    order: Order,
) -> Result<usize, Refusal>
    ensures { WriterDid out.old place (history_draft order (history_handed fields.entry)) result out.new }
{
    let fault = history_fault(fields);
    let next = granted(out.len(), place, fault, history_size(fault, fields))?;
    put_history(&mut out[place..], fields, order);
    Ok(next)
}

// ---- GPS

// A number's last n decimal digits as BCD. It calls itself, as `bcd` does: a loop would carry a power of ten and one of sixteen.
#[tactic(auto, unfolding(note::specs::Gps::bcd))]
fn digits(n: u32, v: u32) -> u32
    requires { n ≤ 8 }
    ensures { (result ≡ bcd n v) × (result < 16 ^ n) }
{
    if n == 0 {
        0
    } else {
        digits(n - 1, v / 10) * 16 + v % 10
    }
}

// A GPS record's second word: the status, a zero, hhmmss. Of a status over 15, which is refused, the lowest four bits.
fn gps_clock(status: u32, hour: u32, minute: u32, second: u32) -> u32
    ensures { result ≡ status % 16 * 268435456 + bcd 2 hour * 65536 + bcd 2 minute * 256 + bcd 2 second }
{
    status % 16 * 268435456 + digits(2, hour) * 65536 + digits(2, minute) * 256 + digits(2, second)
}

/// Writes a GPS record (FORMAT 5.4).
pub fn write_gps(out: &mut [u8], place: usize, fields: Gps, order: Order) -> Result<usize, Refusal>
    ensures { WriterDid out.old place (gps_draft order fields) result out.new }
{
    let date = digits(4, fields.year) * 65536 + digits(4, fields.day);
    let clock = gps_clock(fields.status, fields.hour, fields.minute, fields.second);
    let tenths = digits(8, fields.tenths);
    write_record(
        out,
        place,
        gps_fault(fields),
        Kind::Gps,
        &[date, clock, tenths],
        &[],
        order,
    )
}

// ---- trigger and TLB masks

/// Writes a trigger record, whose time is 0 (FORMAT 5.5).
#[tactic(auto, unfolding(note::specs::Writers::trigger_draft, note::specs::Trigger::trigger_bytes), using(crate::proofs::Drafts::bare))]
pub fn write_trigger(
    out: &mut [u8],
    place: usize,
    fields: Trigger,
    order: Order,
) -> Result<usize, Refusal>
    ensures { WriterDid out.old place (trigger_draft order fields) result out.new }
{
    write_record(
        out,
        place,
        Ok(()),
        Kind::Trigger,
        &[
            0,
            fields.mask1,
            fields.mask2,
            fields.mask3,
            fields.mask4,
            fields.mask5,
            fields.mask6,
        ],
        &[],
        order,
    )
}

/// Writes a TLB record (FORMAT 5.6).
#[tactic(auto, unfolding(note::specs::Writers::tlb_draft, note::specs::Tlb::tlb_bytes), using(crate::proofs::Drafts::bare))]
pub fn write_tlb(out: &mut [u8], place: usize, fields: Tlb, order: Order) -> Result<usize, Refusal>
    ensures { WriterDid out.old place (tlb_draft order fields) result out.new }
{
    write_record(
        out,
        place,
        tlb_fault(fields),
        Kind::Tlb,
        &[
            fields.tower1,
            fields.tower2,
            fields.tower3,
            fields.tower4,
            fields.tower5,
            fields.tower6,
        ],
        &[],
        order,
    )
}
