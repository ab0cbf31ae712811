// The faults that writers alone ask: of a trace's and a history's fields, in word order, with the sizes of the parts handed over. The other
// kinds' faults are those that readers ask.
#![tactic(auto)]

ghost use Rattle.std.specs.Prelude.{◌≡◌, ◌*◌, eqb};
ghost use Rattle.note.specs.Faults.{fault_in};
ghost use Rattle.note.specs.Trace.{trace_fault};
ghost use Rattle.note.specs.History.{section_fault, history_fault};
ghost use Rattle.note.specs.Writers.{trace_handed, section_handed, history_handed};

use channels::is_named;
use fields::{GREATEST_SIGNED, count_fault, ensure, is_channel, is_width};
use note::{Fault, History, Section, Trace};

// ---- trace

/// The first fault of a trace's fields, in word order; last its part of samples, which has two bytes for each.
#[tactic(auto, unfolding(note::specs::Trace::trace_fault, theory::specs::Tests::first))]
pub fn trace_fault(fields: Trace) -> Result<(), Fault>
    ensures { fault_in result ≡ trace_fault (trace_handed fields.entry) }
{
    ensure(is_channel(fields.channel), Fault::WrongField)?;
    ensure(is_named(fields.code), Fault::WrongField)?;
    ensure(fields.delta_t >= 1, Fault::WrongField)?;
    count_fault(fields.n)?;
    let size = 2 * fields.n as usize;
    ensure(fields.samples.len() == size, Fault::WrongLength)
}

// ---- history

// Whether a part's size is that of so many words. By division: four times so many may pass a machine number.
fn is_filled(size: usize, words: usize) -> bool
    ensures { result ≡ eqb size (4 * words) }
{
    size % 4 == 0 && size / 4 == words
}

// The first fault of a history section's fields, in word order. `trigger` is the definition's own flag.
#[tactic(auto, unfolding(note::specs::History::section_fault, theory::specs::Tests::first))]
fn section_fault(trigger: bool, section: Section) -> Result<(), Fault>
    ensures { fault_in result ≡ section_fault trigger (section_handed section.entry) }
{
    let count = section.count as usize;
    ensure(section.count <= GREATEST_SIGNED, Fault::WrongField)?;
    ensure(is_filled(section.times.len(), count), Fault::WrongLength)?;
    ensure(section.width <= GREATEST_SIGNED, Fault::WrongField)?;
    ensure(
        is_width(trigger, section.count, section.width),
        Fault::WrongField,
    )?;
    let masks = count * section.width as usize;
    ensure(is_filled(section.masks.len(), masks), Fault::WrongLength)
}

/// The first fault of a history's fields.
#[tactic(auto, unfolding(note::specs::History::history_fault, theory::specs::Tests::first))]
pub fn history_fault(fields: History) -> Result<(), Fault>
    ensures { fault_in result ≡ history_fault (history_handed fields.entry) }
{
    section_fault(false, fields.veto)?;
    section_fault(true, fields.trigger)
}
