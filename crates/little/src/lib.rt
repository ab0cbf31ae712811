// The calls by place with every word little-endian (FORMAT 1.2). Each hands its order on to the call that takes one; a file's own calls
// (Table, Walker, Find, Rewrite) take the order from the file. They are twins of those that take an order, and stay: they are the door's calls, and
// no caller need name an order.
#![tactic(auto)]

ghost use Rattle.std.specs.Prelude.{◌≡◌, ◌+◌};
ghost use Rattle.theory.specs.declared.Order.TheVariants.{Little};
ghost use Rattle.note.specs.Faults.{res_of};
ghost use Rattle.note.specs.Answers.{given_record, given_setting, given_number};
ghost use Rattle.note.specs.Calls.{record_at, setting_at, samples_part, samples_at, sample_at};
ghost use Rattle.note.specs.Writers.{administrative_draft, charge_draft, configuration_closed, configuration_output, event_closed, event_output, gps_draft};
ghost use Rattle.note.specs.Writers.{header_output, header_next, history_draft, phonon_draft, tlb_draft, trace_draft, trigger_draft, trace_handed, history_handed};
ghost use Rattle.stores.specs.Writes.{WriterDid};

use note::{
    Administrative, Charge, Gps, History, Phonon, RecordAnswer, Refusal, SettingAnswer, Tlb, Trace,
    Trigger,
};
use theory::Order;

/// Record: the record or entry at a place with its fields, the whole file its parent and no event's rules; or a refusal.
/// A case for each kind (FORMAT 8.5).
pub fn record(file: &[u8], place: usize) -> RecordAnswer
    ensures { given_record result ≡ record_at Little file.now place }
{
    answers::record(file, place, Order::Little)
}

/// Setting: the entry at a place in working units; Record's refusals, then 5 there for another kind.
/// A case for each kind of entry, with floats (FORMAT 8.6).
pub fn setting(file: &[u8], place: usize) -> Result<SettingAnswer, Refusal>
    ensures { given_setting result ≡ setting_at Little file.now place }
{
    answers::setting(file, place, Order::Little)
}

/// Samples: of the lent file, the part that the samples of the trace at a place fill; empty where Record finds none.
pub fn samples<'a>(file: &'a [u8], place: usize) -> &'a [u8]
    ensures bytes { result.now ≡ samples_at Little file.now place }
    ensures own { result.ref_ptr ≡ (file.entry.ref_ptr.0, (samples_part Little file.now place).0 + file.entry.ref_ptr.1) }
{
    samples::samples(file, place, Order::Little)
}

/// Sample: the sample with a number, from 1 on, of the trace at a place; Record's refusals, then there 5 for another kind and 11 for a
/// number out of range.
pub fn sample(file: &[u8], place: usize, number: usize) -> Result<u16, Refusal>
    ensures { given_number result ≡ sample_at Little file.now place number }
{
    samples::sample(file, place, number, Order::Little)
}

/// Writes a phonon entry (FORMAT 4.1).
pub fn write_phonon(out: &mut [u8], place: usize, fields: Phonon) -> Result<usize, Refusal>
    ensures { WriterDid out.old place (phonon_draft Little fields) result out.new }
{
    writers::write_phonon(out, place, fields, Order::Little)
}

/// Writes a charge entry (FORMAT 4.2).
pub fn write_charge(out: &mut [u8], place: usize, fields: Charge) -> Result<usize, Refusal>
    ensures { WriterDid out.old place (charge_draft Little fields) result out.new }
{
    writers::write_charge(out, place, fields, Order::Little)
}

/// Writes an administrative record (FORMAT 5.1).
pub fn write_administrative(
    out: &mut [u8],
    place: usize,
    fields: Administrative,
) -> Result<usize, Refusal>
    ensures { WriterDid out.old place (administrative_draft Little fields) result out.new }
{
    writers::write_administrative(out, place, fields, Order::Little)
}

/// Writes a trace with its samples (FORMAT 5.2).
pub fn write_trace(out: &mut [u8], place: usize, fields: Trace) -> Result<usize, Refusal>
    ensures { WriterDid out.old place (trace_draft Little (trace_handed fields.entry)) result out.new }
{
    writers::write_trace(out, place, fields, Order::Little)
}

/// Writes a history with its lists (FORMAT 5.3).
pub fn write_history(out: &mut [u8], place: usize, fields: History) -> Result<usize, Refusal>
    ensures { WriterDid out.old place (history_draft Little (history_handed fields.entry)) result out.new }
{
    writers::write_history(out, place, fields, Order::Little)
}

/// Writes a GPS record (FORMAT 5.4).
pub fn write_gps(out: &mut [u8], place: usize, fields: Gps) -> Result<usize, Refusal>
    ensures { WriterDid out.old place (gps_draft Little fields) result out.new }
{
    writers::write_gps(out, place, fields, Order::Little)
}

/// Writes a trigger record, whose time is 0 (FORMAT 5.5).
pub fn write_trigger(out: &mut [u8], place: usize, fields: Trigger) -> Result<usize, Refusal>
    ensures { WriterDid out.old place (trigger_draft Little fields) result out.new }
{
    writers::write_trigger(out, place, fields, Order::Little)
}

/// Writes a TLB record (FORMAT 5.6).
pub fn write_tlb(out: &mut [u8], place: usize, fields: Tlb) -> Result<usize, Refusal>
    ensures { WriterDid out.old place (tlb_draft Little fields) result out.new }
{
    writers::write_tlb(out, place, fields, Order::Little)
}

/// Writes the file header with these two DAQ bytes, from byte 0 on.
pub fn write_header(out: &mut [u8], major: u8, minor: u8) -> Result<usize, Refusal>
    ensures answer { res_of result ≡ header_next out.old }
    ensures output { out.new ≡ header_output Little out.old major minor }
{
    closings::write_header(out, major, minor, Order::Little)
}

/// Closes a configuration over the entries written between its first eight bytes and the end.
pub fn close_configuration(out: &mut [u8], place: usize, end: usize) -> Result<usize, Refusal>
    ensures answer { res_of result ≡ configuration_closed Little out.old place end }
    ensures output { out.new ≡ configuration_output Little out.old place end }
{
    closings::close_configuration(out, place, end, Order::Little)
}

/// Closes an event of this class, category and type over the records written between its first eight bytes and the end.
pub fn close_event(
    out: &mut [u8],
    place: usize,
    end: usize,
    class: u32,
    category: u32,
    event_type: u32,
) -> Result<usize, Refusal>
    ensures answer { res_of result ≡ event_closed Little out.old place end class category event_type }
    ensures output { out.new ≡ event_output Little out.old place end class category event_type }
{
    closings::close_event(out, place, end, class, category, event_type, Order::Little)
}
