// One record or entry of an accepted file, written again from its fields through its writer. Its body follows its kind's rule and the
// output has room, so no writer refuses, and none of their answers is asked.
#![tactic(auto)]

ghost use Rattle.std.specs.Prelude.{◌≡◌, ◌+◌, ◌≤◌, ◌<◌, length};
ghost use Rattle.note.specs.Trace.{trace_of};
ghost use Rattle.note.specs.History.{width_at, end_at, section_of, history_of, history_rule};
ghost use Rattle.note.specs.Writers.{trace_handed, section_handed, history_handed};
ghost use Rattle.note.specs.Records.{kind_of};
ghost use Rattle.copies.specs.Copying.{Copyable, Copied};

use answers::{administrative_in, charge_in, phonon_in, signed_at, trigger_in};
use note::{History, Section, Trace};
use rules::{
    ADDRESS_AT, CHANNEL_AT, CODE_AT, DELTA_AT, Kind, N_AT, SAMPLES_AT, T0_AT, gps_in, section_end,
    tlb_in,
};
use theory::Order;
use words::word_at;
use writers::{
    write_administrative, write_charge, write_gps, write_history, write_phonon, write_tlb,
    write_trace, write_trigger,
};

// The fields of a trace's body, with its samples; Record's case of it, and of a history, has no bytes (`answers`).
fn trace_in(body: &[u8], order: Order) -> Trace<'_>
    requires { 48 ≤ length body.now }
    ensures { trace_handed result ≡ trace_of order body.now }
{
    Trace {
        address: word_at(body, ADDRESS_AT, order),
        channel: word_at(body, CHANNEL_AT, order),
        code: word_at(body, CODE_AT, order),
        t0: signed_at(body, T0_AT, order),
        delta_t: word_at(body, DELTA_AT, order),
        n: word_at(body, N_AT, order),
        samples: &body[SAMPLES_AT..],
    }
}

// Where the width of a history's section stands, whose count stands at p.
#[tactic(auto, unfolding(note::specs::History::width_at))]
fn width_at(p: usize, body: &[u8], order: Order) -> usize
    requires { p + 4 ≤ length body.now }
    ensures { result ≡ width_at order p body.now }
{
    p + 4 + 4 * word_at(body, p, order) as usize
}

// The section whose count stands at place p of a body, and which ends at `end`.
#[tactic(auto, unfolding(note::specs::History::section_of, rules::proofs::SectionLaws::places))]
fn section_in(p: usize, end: usize, body: &[u8], order: Order) -> Section<'_>
    requires { (width_at order p body.now + 4 ≤ end) × (end ≡ end_at order p body.now) × (end ≤ length body.now) }
    ensures { section_handed result ≡ section_of order p body.now }
{
    let width = width_at(p, body, order);
    Section {
        count: word_at(body, p, order),
        times: &body[p + 4..width],
        width: word_at(body, width, order),
        masks: &body[width + 4..end],
    }
}

// The fields of a history's body, which follows its rule.
fn history_in(body: &[u8], order: Order) -> History<'_>
    requires rule { history_rule order body.now ≡ 0 }
    requires size { length body.now < 0x100000000 }
    ensures { history_handed result ≡ history_of order body.now }
{
    let middle = section_end(0, body, order);
    History {
        veto: section_in(0, middle, body, order),
        trigger: section_in(middle, body.len(), body, order),
    }
}

/// Writes a record or an entry of this kind again, from its body's fields, into the output from the place on. The kind's word is the file's: here
/// it becomes a kind.
pub fn copy_record(word: u32, body: &[u8], out: &mut [u8], place: usize, order: Order)
    requires { Copyable order (kind_of word) body.now (length out.old) place }
    ensures { Copied order (kind_of word) body.now out.old place out.new }
{
    let Ok(kind) = Kind::try_from(word) else {
        // Not reached: a body that follows a rule has its kind.
        return;
    };
    let _ = match kind {
        Kind::Phonon => write_phonon(out, place, phonon_in(body, order), order),
        Kind::Charge => write_charge(out, place, charge_in(body, order), order),
        Kind::Administrative => write_administrative(
            out,
            place,
            administrative_in(body, order),
            order,
        ),
        Kind::Trace => write_trace(out, place, trace_in(body, order), order),
        Kind::History => write_history(out, place, history_in(body, order), order),
        Kind::Gps => write_gps(out, place, gps_in(body, order), order),
        Kind::Trigger => write_trigger(out, place, trigger_in(body, order), order),
        Kind::Tlb => write_tlb(out, place, tlb_in(body, order), order),
    };
}
