// What every writer does: it is admitted, or refused before the first store; then words and parts of bytes are stored as the note's files
// have them.
#![tactic(auto)]

ghost use Rattle.std.specs.Prelude.{◌≡◌, [], ◌∷◌, ◌+◌, ◌*◌, ◌≤◌, ◌<◌, length};
ghost use Rattle.std.proofs.lemmas.List.Edits.{sets};
ghost use Rattle.note.specs.Words.{words};
ghost use Rattle.note.specs.Faults.{fault_in, res_of, numbered_in};
ghost use Rattle.note.specs.Writers.{writer_next};
ghost use Rattle.rules.specs.Kinds.{kind_word};
ghost use Rattle.stores.specs.Writes.{WriterDid, NumberedDid};
ghost use Rattle.stores.specs.Structures.{structured, structure_draft};

use note::{Fault, Numbered, Refusal};
use record::FILE_LIMIT;
use rules::Kind;
use theory::Order;

/// The answer of a writer of `size` bytes from a place on, over an output of `room` bytes: 1 for an output over the limit, the number of the
/// fields' fault (0 for none, and any other), 13 for too little room, or the next place.
#[tactic(auto, unfolding(note::specs::Writers::writer_next))]
pub fn admitted(room: usize, place: usize, fault: u32, size: usize) -> Result<usize, Numbered>
    ensures { numbered_in result ≡ writer_next room place fault size }
{
    if room > FILE_LIMIT {
        return Err(Fault::TooLarge.at(0).into());
    }
    if fault != 0 {
        return Err(Numbered {
            number: fault,
            place,
        });
    }
    if place > room || size > room - place {
        return Err(Fault::NoRoom.at(place).into());
    }
    Ok(place + size)
}

/// The same for a fault of FORMAT 2.1's, or none, as the writers have it.
#[tactic(auto, unfolding(note::specs::Writers::writer_next))]
pub fn granted(
    room: usize,
    place: usize,
    fault: Result<(), Fault>,
    size: usize,
) -> Result<usize, Refusal>
    ensures { res_of result ≡ writer_next room place (fault_in fault) size }
{
    if room > FILE_LIMIT {
        return Err(Fault::TooLarge.at(0));
    }
    // A fault gets its place here: `map_err` would give it by a closure.
    if let Err(fault) = fault {
        return Err(fault.at(place));
    }
    if place > room {
        return Err(Fault::NoRoom.at(place));
    }
    if size > room - place {
        return Err(Fault::NoRoom.at(place));
    }
    Ok(place + size)
}

// The bytes of a word, as they stand in a file of that order.
fn word_bytes(w: u32, order: Order) -> [u8; 4]
    ensures { result ≡ words order (w ∷ []) }
{
    match order {
        Order::Little => w.to_le_bytes(),
        Order::Big => w.to_be_bytes(),
    }
}

/// Stores words one after the other, from a place on. The output is lent whole, or by its rest, and has room: that is asked of callers.
pub fn put_words(out: &mut [u8], at: usize, ws: &[u32], order: Order)
    requires { at + 4 * length ws.now ≤ length out.old }
    ensures { out.new ≡ sets out.old at (words order ws.now) }
{
    for (i, &w) in ws.iter().enumerate() {
        let from = at + 4 * i;
        out[from..from + 4].copy_from_slice(&word_bytes(w, order));
    }
}

/// Stores a part of bytes, from a place on.
pub fn put_part(out: &mut [u8], at: usize, part: &[u8])
    requires { at + length part.now ≤ length out.old }
    ensures { out.new ≡ sets out.old at part.now }
{
    out[at..at + part.len()].copy_from_slice(part);
}

// ---- structures

// Stores a structure from the part's first byte on: its kind word, its length word, its body's words, and the bytes behind them.
fn put_structure(part: &mut [u8], word: u32, ws: &[u32], bytes: &[u8], order: Order)
    requires { (8 + (4 * length ws.now + length bytes.now) ≤ length part.old) × (length part.old ≤ 0xFFFFFFFF) }
    ensures { part.new ≡ sets part.old 0 (structured order word ws.now bytes.now) }
{
    let words = 4 * ws.len();
    put_words(part, 0, &[word, (words + bytes.len()) as u32], order);
    put_words(part, 8, ws, order);
    put_part(part, 8 + words, bytes);
}

/// Writes a structure of any kind word, of fields whose fault has this number (0 for none, and any other), into the rest of the output from the
/// place on, which is lent on (FORMAT 9.1).
pub fn write_structure(
    out: &mut [u8],
    place: usize,
    fault: u32,
    word: u32,
    ws: &[u32],
    bytes: &[u8],
    order: Order,
) -> Result<usize, Numbered>
    requires { length ws.now ≤ 12 }
    ensures { NumberedDid out.old place (structure_draft order fault word ws.now bytes.now) result out.new }
{
    let next = admitted(out.len(), place, fault, 8 + (4 * ws.len() + bytes.len()))?;
    put_structure(&mut out[place..], word, ws, bytes, order);
    Ok(next)
}

/// The same for a kind, and a fault of FORMAT 2.1's or none, as the writers have them.
pub fn write_record(
    out: &mut [u8],
    place: usize,
    fault: Result<(), Fault>,
    kind: Kind,
    ws: &[u32],
    bytes: &[u8],
    order: Order,
) -> Result<usize, Refusal>
    requires { length ws.now ≤ 12 }
    ensures { WriterDid out.old place (structure_draft order (fault_in fault) (kind_word kind) ws.now bytes.now)
        result out.new }
{
    let next = granted(out.len(), place, fault, 8 + (4 * ws.len() + bytes.len()))?;
    put_structure(&mut out[place..], kind.into(), ws, bytes, order);
    Ok(next)
}
