// The file header's writer and the closings of the two containers. All is known before the first store: a refusal changes no byte. The closings'
// storing halves, at the end, refuse nothing: their callers know.
#![tactic(auto)]

ghost use Rattle.std.specs.Prelude.{◌≡◌, ◌+◌, ◌*◌, ◌%◌, ◌^◌, ◌≤◌, ◌<◌, length};
ghost use Rattle.std.proofs.lemmas.List.Edits.{sets};
ghost use Rattle.note.specs.Faults.{fault_in, res_of};
ghost use Rattle.note.specs.Events.{event_word, event_fault};
ghost use Rattle.note.specs.Files.{version_word, configuration_word};
ghost use Rattle.note.specs.Writers.{output_after, closing_bytes, header_next, header_output, configuration_closed, configuration_output, event_closed, event_output};
ghost use Rattle.containers.specs.Counts.{least_of, context_in};
ghost use Rattle.demands.specs.Outputs.{HasRoom};
ghost use Rattle.closings.specs.Closing.{bounded, closed};

use containers::{CONFIGURATION, Container, FILE_MARK, FORMAT, HEADER, records_in};
use fields::{EVENT_MARK, event_fault};
use note::{Fault, Refusal};
use record::{FILE_LIMIT, FRONT};
use stores::{granted, put_words};
use theory::Order;

// ---- the header

// The bits of a number with the `k` bits of another below them. By shift (FORMAT 6.2, 6.4); its callers mask.
fn above(high: u32, k: u32, low: u32) -> u32
    requires { (k < 32) × (high * 2 ^ k ≤ 0xFFFFFFFF) × (low < 2 ^ k) }
    ensures { result ≡ high * 2 ^ k + low }
{
    (high << k) | low
}

// The header's second word.
fn version_word(major: u8, minor: u8) -> u32
    ensures { result ≡ version_word major minor }
{
    above(above(major.into(), 8, minor.into()), 16, FORMAT)
}

/// Writes the file header with these two DAQ bytes, from byte 0 on.
pub fn write_header(out: &mut [u8], major: u8, minor: u8, order: Order) -> Result<usize, Refusal>
    ensures answer { res_of result ≡ header_next out.old }
    ensures output { out.new ≡ header_output order out.old major minor }
{
    let next = granted(out.len(), 0, Ok(()), HEADER)?;
    put_words(out, 0, &[FILE_MARK, version_word(major, minor)], order);
    Ok(next)
}

// ---- any container

// What a closing answers before it asks its contents, over an output of `room` bytes: 1, 13, the fault of the container's own word, 9 for
// contents of fewer bytes than it must have, or the end.
#[tactic(auto, unfolding(crate::specs::Closing::bounded))]
fn bounded(
    room: usize,
    place: usize,
    end: usize,
    fault: Result<(), Fault>,
    sort: Container,
) -> Result<usize, Refusal>
    ensures { res_of result ≡ bounded room place end (fault_in fault) (least_of sort) }
{
    if room > FILE_LIMIT {
        return Err(Fault::TooLarge.at(0));
    }
    if end > room {
        return Err(Fault::NoRoom.at(place));
    }
    if place > end {
        return Err(Fault::NoRoom.at(place));
    }
    if end - place < FRONT {
        return Err(Fault::NoRoom.at(place));
    }
    // A fault gets its place here: `map_err` would give it by a closure.
    if let Err(fault) = fault {
        return Err(fault.at(place));
    }
    if end - place - FRONT < sort.least() {
        return Err(Fault::Misplaced.at(place));
    }
    Ok(end)
}

// Stores a container's two words in front of its contents, which end at `end`.
fn begin_container(out: &mut [u8], place: usize, end: usize, word: u32, order: Order)
    requires { HasRoom (length out.old) place end }
    ensures { out.new ≡ sets out.old place (closing_bytes order word place end) }
{
    put_words(out, place, &[word, (end - place - FRONT) as u32], order);
}

// Closes a container of this sort, whose own word has this fault: its contents are read in their context, where they stand; then its two words are
// stored.
fn close(
    out: &mut [u8],
    place: usize,
    end: usize,
    fault: Result<(), Fault>,
    sort: Container,
    word: u32,
    order: Order,
) -> Result<usize, Refusal>
    ensures answer { res_of result ≡ closed order out.old place end (fault_in fault) (least_of sort) (context_in sort) }
    ensures output { out.new ≡ output_after (closed order out.old place end (fault_in fault) (least_of sort) (context_in sort))
        out.old place (closing_bytes order word place end) }
{
    let next = bounded(out.len(), place, end, fault, sort)?;
    let from = place + FRONT;
    records_in(&out[from..end], from, sort.context(), order)?;
    begin_container(out, place, end, word, order);
    Ok(next)
}

// ---- the two containers

/// Closes a configuration over the entries written between its first eight bytes and the end.
pub fn close_configuration(
    out: &mut [u8],
    place: usize,
    end: usize,
    order: Order,
) -> Result<usize, Refusal>
    ensures answer { res_of result ≡ configuration_closed order out.old place end }
    ensures output { out.new ≡ configuration_output order out.old place end }
{
    close(
        out,
        place,
        end,
        Ok(()),
        Container::Configuration,
        CONFIGURATION,
        order,
    )
}

// An event's first word, of the bits that it has room for.
fn event_word(class: u32, category: u32, event_type: u32) -> u32
    ensures { result ≡ event_word (class % 16) (category % 16) (event_type % 256) }
{
    let front = above(above(EVENT_MARK, 4, class & 15), 4, category & 15);
    above(front, 8, event_type & 255)
}

/// Closes an event of this class, category and type over the records written between its first eight bytes and the end.
pub fn close_event(
    out: &mut [u8],
    place: usize,
    end: usize,
    class: u32,
    category: u32,
    event_type: u32,
    order: Order,
) -> Result<usize, Refusal>
    ensures answer { res_of result ≡ event_closed order out.old place end class category event_type }
    ensures output { out.new ≡ event_output order out.old place end class category event_type }
{
    let fault = event_fault(class, category, event_type);
    let word = event_word(class, category, event_type);
    close(out, place, end, fault, Container::Event, word, order)
}

// ---- the closings' storing halves, for contents that were checked elsewhere

/// Stores a configuration's two words in front of entries that end at `end`, as its closing does.
pub fn begin_configuration(out: &mut [u8], place: usize, end: usize, order: Order)
    requires { HasRoom (length out.old) place end }
    ensures { out.new ≡ sets out.old place (closing_bytes order configuration_word place end) }
{
    begin_container(out, place, end, CONFIGURATION, order);
}

/// Stores an event's two words in front of records that end at `end`, as its closing does.
pub fn begin_event(
    out: &mut [u8],
    place: usize,
    end: usize,
    class: u32,
    category: u32,
    event_type: u32,
    order: Order,
)
    requires room { HasRoom (length out.old) place end }
    requires word { event_fault class category event_type ≡ 0 }
    ensures { out.new
        ≡ sets out.old place (closing_bytes order (event_word class category event_type) place end) }
{
    begin_container(
        out,
        place,
        end,
        event_word(class, category, event_type),
        order,
    );
}
