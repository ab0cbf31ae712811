// The writers and the closings for C: numbers, lent arrays and buffers alone, and so alike where the header's calls are. include/dwejrasq.h
// documents each.
#![tactic(auto)]

ghost use Rattle.theory.specs.declared.Order.TheVariants.{Little};
ghost use Rattle.note.specs.Writers.{header_next, header_output, configuration_closed, configuration_output, event_closed, event_output, phonon_draft, charge_draft, administrative_draft, trace_draft, history_draft, gps_draft, trigger_draft, tlb_draft};
ghost use Rattle.telling.specs.Told.{Told};
ghost use Rattle.writing.specs.Handed.{RecordTold, phonon_from, charge_from, administrative_from, gps_from, trigger_from, tlb_from};

use note::{Administrative, Charge, Gps, History, Phonon, Section, Tlb, Trace, Trigger};
use telling::told_fault;

/// A phonon entry: its eleven words in order.
#[tactic(auto, unfolding(crate::specs::Handed::phonon_from))]
#[unsafe(no_mangle)]
pub extern "C" fn dwj_write_phonon(
    out: &mut [u8],
    place: usize,
    fields: &[i32; 11],
    next: &mut u64,
    refusal: &mut u64,
) -> u32
    ensures { RecordTold out.old place (phonon_draft Little (phonon_from fields.now))
        (record { next = next.old; refusal = refusal.old })
        (record { number = result; next = next.new; refusal = refusal.new }) out.new }
{
    let fields = Phonon {
        code: fields[0],
        tower: fields[1],
        gain: fields[2],
        qet_bias: fields[3],
        squid_bias: fields[4],
        lockpoint: fields[5],
        rtf_offset: fields[6],
        variable_gain: fields[7],
        delta_t: fields[8],
        t0: fields[9],
        trace_length: fields[10],
    };
    let answer = dwejrasq::write_phonon(out, place, fields);
    told_fault(answer, next, refusal)
}

/// A charge entry: its eight words in order.
#[tactic(auto, unfolding(crate::specs::Handed::charge_from))]
#[unsafe(no_mangle)]
pub extern "C" fn dwj_write_charge(
    out: &mut [u8],
    place: usize,
    fields: &[i32; 8],
    next: &mut u64,
    refusal: &mut u64,
) -> u32
    ensures { RecordTold out.old place (charge_draft Little (charge_from fields.now))
        (record { next = next.old; refusal = refusal.old })
        (record { number = result; next = next.new; refusal = refusal.new }) out.new }
{
    let fields = Charge {
        code: fields[0],
        tower: fields[1],
        gain: fields[2],
        bias: fields[3],
        rtf_offset: fields[4],
        delta_t: fields[5],
        t0: fields[6],
        trace_length: fields[7],
    };
    let answer = dwejrasq::write_charge(out, place, fields);
    told_fault(answer, next, refusal)
}

/// An administrative record: its six words in order.
#[tactic(auto, unfolding(crate::specs::Handed::administrative_from))]
#[unsafe(no_mangle)]
pub extern "C" fn dwj_write_administrative(
    out: &mut [u8],
    place: usize,
    fields: &[u32; 6],
    next: &mut u64,
    refusal: &mut u64,
) -> u32
    ensures { RecordTold out.old place (administrative_draft Little (administrative_from fields.now))
        (record { next = next.old; refusal = refusal.old })
        (record { number = result; next = next.new; refusal = refusal.new }) out.new }
{
    let fields = Administrative {
        date: fields[0],
        clock: fields[1],
        number: fields[2],
        time: fields[3],
        since: fields[4],
        live: fields[5],
    };
    let answer = dwejrasq::write_administrative(out, place, fields);
    told_fault(answer, next, refusal)
}

/// A trace: base address, digitizer channel, detector code, t0, delta t, n, and the bytes of its n samples.
#[unsafe(no_mangle)]
pub extern "C" fn dwj_write_trace(
    out: &mut [u8],
    place: usize,
    address: u32,
    channel: u32,
    code: u32,
    t0: i32,
    delta: u32,
    n: u32,
    samples: &[u8],
    next: &mut u64,
    refusal: &mut u64,
) -> u32
    ensures { RecordTold out.old place (trace_draft Little (record {
      address = address;
      channel = channel;
      code = code;
      t0 = t0;
      delta = delta;
      n = n;
      samples = samples.now;
    }))
        (record { next = next.old; refusal = refusal.old })
        (record { number = result; next = next.new; refusal = refusal.new }) out.new }
{
    let fields = Trace {
        address,
        channel,
        code,
        t0,
        delta_t: delta,
        n,
        samples,
    };
    let answer = dwejrasq::write_trace(out, place, fields);
    told_fault(answer, next, refusal)
}

/// A history: of the veto and then of the trigger the count of times, their bytes, the width, the bytes of the masks.
#[unsafe(no_mangle)]
pub extern "C" fn dwj_write_history(
    out: &mut [u8],
    place: usize,
    veto_count: u32,
    veto_times: &[u8],
    veto_width: u32,
    veto_masks: &[u8],
    trigger_count: u32,
    trigger_times: &[u8],
    trigger_width: u32,
    trigger_masks: &[u8],
    next: &mut u64,
    refusal: &mut u64,
) -> u32
    ensures { RecordTold out.old place (history_draft Little (record {
      veto = record {
        count = veto_count;
        times = veto_times.now;
        width = veto_width;
        masks = veto_masks.now;
      };
      trigger = record {
        count = trigger_count;
        times = trigger_times.now;
        width = trigger_width;
        masks = trigger_masks.now;
      };
    }))
        (record { next = next.old; refusal = refusal.old })
        (record { number = result; next = next.new; refusal = refusal.new }) out.new }
{
    let veto = Section {
        count: veto_count,
        times: veto_times,
        width: veto_width,
        masks: veto_masks,
    };
    let trigger = Section {
        count: trigger_count,
        times: trigger_times,
        width: trigger_width,
        masks: trigger_masks,
    };
    let answer = dwejrasq::write_history(out, place, History { veto, trigger });
    told_fault(answer, next, refusal)
}

/// A GPS record: year, day, status, hour, minute, second, tenths.
#[tactic(auto, unfolding(crate::specs::Handed::gps_from))]
#[unsafe(no_mangle)]
pub extern "C" fn dwj_write_gps(
    out: &mut [u8],
    place: usize,
    fields: &[u32; 7],
    next: &mut u64,
    refusal: &mut u64,
) -> u32
    ensures { RecordTold out.old place (gps_draft Little (gps_from fields.now))
        (record { next = next.old; refusal = refusal.old })
        (record { number = result; next = next.new; refusal = refusal.new }) out.new }
{
    let fields = Gps {
        year: fields[0],
        day: fields[1],
        status: fields[2],
        hour: fields[3],
        minute: fields[4],
        second: fields[5],
        tenths: fields[6],
    };
    let answer = dwejrasq::write_gps(out, place, fields);
    told_fault(answer, next, refusal)
}

/// A trigger record: its six masks.
#[tactic(auto, unfolding(crate::specs::Handed::trigger_from))]
#[unsafe(no_mangle)]
pub extern "C" fn dwj_write_trigger(
    out: &mut [u8],
    place: usize,
    fields: &[u32; 6],
    next: &mut u64,
    refusal: &mut u64,
) -> u32
    ensures { RecordTold out.old place (trigger_draft Little (trigger_from fields.now))
        (record { next = next.old; refusal = refusal.old })
        (record { number = result; next = next.new; refusal = refusal.new }) out.new }
{
    let fields = Trigger {
        mask1: fields[0],
        mask2: fields[1],
        mask3: fields[2],
        mask4: fields[3],
        mask5: fields[4],
        mask6: fields[5],
    };
    let answer = dwejrasq::write_trigger(out, place, fields);
    told_fault(answer, next, refusal)
}

/// A TLB record: its six words, by tower.
#[tactic(auto, unfolding(crate::specs::Handed::tlb_from))]
#[unsafe(no_mangle)]
pub extern "C" fn dwj_write_tlb(
    out: &mut [u8],
    place: usize,
    fields: &[u32; 6],
    next: &mut u64,
    refusal: &mut u64,
) -> u32
    ensures { RecordTold out.old place (tlb_draft Little (tlb_from fields.now))
        (record { next = next.old; refusal = refusal.old })
        (record { number = result; next = next.new; refusal = refusal.new }) out.new }
{
    let fields = Tlb {
        tower1: fields[0],
        tower2: fields[1],
        tower3: fields[2],
        tower4: fields[3],
        tower5: fields[4],
        tower6: fields[5],
    };
    let answer = dwejrasq::write_tlb(out, place, fields);
    told_fault(answer, next, refusal)
}

/// The file header, at byte 0: the two DAQ bytes.
#[unsafe(no_mangle)]
pub extern "C" fn dwj_write_header(
    out: &mut [u8],
    major: u8,
    minor: u8,
    next: &mut u64,
    refusal: &mut u64,
) -> u32
    ensures { Told (header_next out.old) (header_output Little out.old major minor)
        (record { next = next.old; refusal = refusal.old })
        (record { number = result; next = next.new; refusal = refusal.new }) out.new }
{
    let answer = dwejrasq::write_header(out, major, minor);
    told_fault(answer, next, refusal)
}

/// Closes a configuration over its contents.
#[unsafe(no_mangle)]
pub extern "C" fn dwj_close_configuration(
    out: &mut [u8],
    place: usize,
    end: usize,
    next: &mut u64,
    refusal: &mut u64,
) -> u32
    ensures { Told (configuration_closed Little out.old place end) (configuration_output Little out.old place end)
        (record { next = next.old; refusal = refusal.old })
        (record { number = result; next = next.new; refusal = refusal.new }) out.new }
{
    let answer = dwejrasq::close_configuration(out, place, end);
    told_fault(answer, next, refusal)
}

/// Closes an event of a class, a category and a type over its contents.
#[unsafe(no_mangle)]
pub extern "C" fn dwj_close_event(
    out: &mut [u8],
    place: usize,
    end: usize,
    class: u32,
    category: u32,
    event_type: u32,
    next: &mut u64,
    refusal: &mut u64,
) -> u32
    ensures { Told (event_closed Little out.old place end class category event_type)
        (event_output Little out.old place end class category event_type)
        (record { next = next.old; refusal = refusal.old })
        (record { number = result; next = next.new; refusal = refusal.new }) out.new }
{
    let answer = dwejrasq::close_event(out, place, end, class, category, event_type);
    told_fault(answer, next, refusal)
}
