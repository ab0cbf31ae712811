// Samples and a sample by number, of the trace at a place of a file. Any file, any place and any number are taken.
#![tactic(auto)]

ghost use Rattle.std.specs.Prelude.{◌≡◌, ◌+◌, ◌-◌, ◌*◌, ◌/◌, ◌≤◌, length, take, drop};
ghost use Rattle.note.specs.Answers.{given_number};
ghost use Rattle.note.specs.Trace.{sample_in};
ghost use Rattle.note.specs.Calls.{samples_part, samples_at, sample_at};

use answers::record_found;
use note::{Fault, Refusal};
use record::FRONT;
use rules::Kind;
use theory::Order;
use words::word_at;

/// Where a trace's samples begin, from its first byte on: behind its two words and the 48 bytes of its body before them.
pub const SAMPLES_FROM: usize = 56;

// The samples of a trace at a place whose body has n bytes: they follow the first 48 of these.
fn samples_of<'a>(file: &'a [u8], place: usize, n: usize) -> &'a [u8]
    requires { (48 ≤ n) × (place + 8 + n ≤ length file.now) }
    ensures bytes { result.now ≡ take (n - 48) (drop (place + 56) file.now) }
    ensures own { result.ref_ptr ≡ (file.entry.ref_ptr.0, place + 56 + file.entry.ref_ptr.1) }
{
    &file[place + SAMPLES_FROM..place + FRONT + n]
}

/// Samples: of the lent file, the part that the samples of the trace at a place fill; empty where Record finds none. No `Option`: the call never
/// refuses, and `samples_at` is a part in every case.
#[tactic(auto, using(crate::proofs::SampleLaws::parts))]
pub fn samples<'a>(file: &'a [u8], place: usize, order: Order) -> &'a [u8]
    ensures bytes { result.now ≡ samples_at order file.now place }
    ensures own { result.ref_ptr ≡ (file.entry.ref_ptr.0, (samples_part order file.now place).0 + file.entry.ref_ptr.1) }
{
    match record_found(file, place, order) {
        Ok(found) if found.kind == Kind::Trace => samples_of(file, place, found.length),
        _ => &file[0..0],
    }
}

// The sample with a number from 1 on, of samples that have its word: of a word's two the lower half comes first.
// By remainder and quotient, as `sample_in` has it: numbers have no method for their halves.
#[tactic(auto, unfolding(note::specs::Trace::sample_in))]
fn sample_of(part: &[u8], number: usize, order: Order) -> u16
    requires { (1 ≤ number) × (4 * ((number - 1) / 2) + 4 ≤ length part.now) }
    ensures { result ≡ sample_in order part.now number }
{
    let w = word_at(part, 4 * ((number - 1) / 2), order);
    if number % 2 == 1 {
        return (w % 65536) as u16;
    }
    (w / 65536) as u16
}

/// Sample: the sample with a number, from 1 on, of the trace at a place; Record's refusals, then there 5 for another kind and 11 for a
/// number out of range.
#[tactic(auto, using(crate::proofs::SampleLaws::numbered), unfolding(note::specs::Answers::given_number))]
pub fn sample(file: &[u8], place: usize, number: usize, order: Order) -> Result<u16, Refusal>
    ensures { given_number result ≡ sample_at order file.now place number }
{
    let found = record_found(file, place, order)?;
    if found.kind != Kind::Trace {
        return Err(Fault::WrongKind.at(place));
    }
    let part = samples_of(file, place, found.length);
    if number < 1 || number > part.len() / 2 {
        return Err(Fault::WrongCount.at(place));
    }
    Ok(sample_of(part, number, order))
}
