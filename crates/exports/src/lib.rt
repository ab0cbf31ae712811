// The reading calls for C: numbers and lent buffers alone, and so alike where the header's calls are. include/dwejrasq.h documents each. The
// visitor's call stands in `visiting`, the writers' in `writing`, Rewrite's in `restoring`.
#![tactic(auto)]

ghost use Rattle.std.specs.Prelude.{◌≡◌, length};
ghost use Rattle.theory.specs.declared.Order.TheVariants.{Little};
ghost use Rattle.note.specs.Faults.{fault_number};
ghost use Rattle.note.specs.Answers.{given_yield};
ghost use Rattle.note.specs.Calls.{record_at, setting_at, samples_part, sample_at, find_at};
ghost use Rattle.note.specs.Channels.{channel_answer, code_answer};
ghost use Rattle.note.specs.Rows.{table_answer, table_buffer};
ghost use Rattle.note.specs.Tlb.{zip_set};
ghost use Rattle.walk.specs.Steps.{opened_of, step_of};
ghost use Rattle.exports.specs.Lent.{number_of, place_after, wholes_after, floats_after, NumberAfter};
ghost use Rattle.exports.specs.Lent.{number_in, channel_numbers, channel_after, bit};
ghost use Rattle.exports.specs.Walkers.{spot_of, numbers_of, row_after};

use note::{RecordAnswer, Refusal, SettingAnswer, WalkerYield};
use samples::SAMPLES_FROM;
use walk::Spot;

// The row kinds (FORMAT 7.2), as Record and Setting tell them: the first of their values.
const PHONON: i64 = 3;

const CHARGE: i64 = 4;

const ADMINISTRATIVE: i64 = 6;

const TRACE: i64 = 7;

const HISTORY: i64 = 8;

const GPS: i64 = 9;

const TRIGGER: i64 = 10;

const TLB: i64 = 11;

// A refusal for C: its number, and its place lent.
fn refuse(refused: Refusal, refusal: &mut u64) -> u32
    ensures number { result ≡ fault_number refused.fault }
    ensures place { refusal.new ≡ refused.place }
{
    *refusal = refused.place as u64;
    refused.fault.into()
}

/// Table: the number; the rows, their count and the place lent.
#[unsafe(no_mangle)]
pub extern "C" fn dwj_table(file: &[u8], rows: &mut [u32], count: &mut u64, place: &mut u64) -> u32
    ensures number { result ≡ (table_answer file.now (length rows.old)).number }
    ensures rows { rows.new ≡ table_buffer file.now rows.old }
    ensures count { count.new ≡ (table_answer file.now (length rows.old)).count }
    ensures place { place.new ≡ (table_answer file.now (length rows.old)).place }
{
    let answer = dwejrasq::table(file, rows);
    *count = answer.count as u64;
    *place = answer.place as u64;
    answer.number
}

/// Record: the row kind, then the fields in the order of their words, then zeros; on a refusal the place alone.
#[tactic(auto, unfolding(note::specs::Answers::given_record))]
#[unsafe(no_mangle)]
pub extern "C" fn dwj_record(
    file: &[u8],
    place: usize,
    values: &mut [i64; 12],
    refusal: &mut u64,
) -> u32
    ensures number { result ≡ number_of (record_at Little file.now place) }
    ensures values { values.new ≡ wholes_after 12 values.old (record_at Little file.now place) }
    ensures refusal { refusal.new ≡ place_after refusal.old (record_at Little file.now place) }
{
    match dwejrasq::record(file, place) {
        RecordAnswer::Phonon(f) => {
            *values = [
                PHONON,
                f.code.into(),
                f.tower.into(),
                f.gain.into(),
                f.qet_bias.into(),
                f.squid_bias.into(),
                f.lockpoint.into(),
                f.rtf_offset.into(),
                f.variable_gain.into(),
                f.delta_t.into(),
                f.t0.into(),
                f.trace_length.into(),
            ];
            0
        }
        RecordAnswer::Charge(f) => {
            *values = [
                CHARGE,
                f.code.into(),
                f.tower.into(),
                f.gain.into(),
                f.bias.into(),
                f.rtf_offset.into(),
                f.delta_t.into(),
                f.t0.into(),
                f.trace_length.into(),
                0,
                0,
                0,
            ];
            0
        }
        RecordAnswer::Administrative(f) => {
            *values = [
                ADMINISTRATIVE,
                f.date.into(),
                f.clock.into(),
                f.number.into(),
                f.time.into(),
                f.since.into(),
                f.live.into(),
                0,
                0,
                0,
                0,
                0,
            ];
            0
        }
        RecordAnswer::Trace {
            address,
            channel,
            code,
            t0,
            delta_t,
            n,
        } => {
            *values = [
                TRACE,
                address.into(),
                channel.into(),
                code.into(),
                t0.into(),
                delta_t.into(),
                n.into(),
                0,
                0,
                0,
                0,
                0,
            ];
            0
        }
        RecordAnswer::History {
            veto_times,
            veto_times_at,
            veto_width,
            veto_masks_at,
            trigger_times,
            trigger_times_at,
            trigger_width,
            trigger_masks_at,
        } => {
            *values = [
                HISTORY,
                veto_times.into(),
                veto_times_at.into(),
                veto_width.into(),
                veto_masks_at.into(),
                trigger_times.into(),
                trigger_times_at.into(),
                trigger_width.into(),
                trigger_masks_at.into(),
                0,
                0,
                0,
            ];
            0
        }
        RecordAnswer::Gps(f) => {
            *values = [
                GPS,
                f.year.into(),
                f.day.into(),
                f.status.into(),
                f.hour.into(),
                f.minute.into(),
                f.second.into(),
                f.tenths.into(),
                0,
                0,
                0,
                0,
            ];
            0
        }
        RecordAnswer::Trigger(f) => {
            *values = [
                TRIGGER,
                f.mask1.into(),
                f.mask2.into(),
                f.mask3.into(),
                f.mask4.into(),
                f.mask5.into(),
                f.mask6.into(),
                0,
                0,
                0,
                0,
                0,
            ];
            0
        }
        RecordAnswer::Tlb(f) => {
            *values = [
                TLB,
                f.tower1.into(),
                f.tower2.into(),
                f.tower3.into(),
                f.tower4.into(),
                f.tower5.into(),
                f.tower6.into(),
                0,
                0,
                0,
                0,
                0,
            ];
            0
        }
        RecordAnswer::Refused(refused) => refuse(refused, refusal),
    }
}

/// Setting: the row kind and the whole words, and the words in working units; zeros after each; on a refusal the place alone.
#[tactic(auto, unfolding(note::specs::Answers::given_setting))]
#[unsafe(no_mangle)]
pub extern "C" fn dwj_setting(
    file: &[u8],
    place: usize,
    whole: &mut [i64; 8],
    units: &mut [f64; 4],
    refusal: &mut u64,
) -> u32
    ensures number { result ≡ number_of (setting_at Little file.now place) }
    ensures whole { whole.new ≡ wholes_after 8 whole.old (setting_at Little file.now place) }
    ensures units { units.new ≡ floats_after 4 units.old (setting_at Little file.now place) }
    ensures refusal { refusal.new ≡ place_after refusal.old (setting_at Little file.now place) }
{
    match dwejrasq::setting(file, place) {
        Ok(
            SettingAnswer::Phonon {
                code,
                tower,
                gain,
                qet_bias,
                squid_bias,
                lockpoint,
                rtf_offset,
                variable_gain,
                delta_t,
                t0,
                trace_length,
            },
        ) => {
            *whole = [
                PHONON,
                code.into(),
                tower.into(),
                rtf_offset.into(),
                variable_gain.into(),
                delta_t.into(),
                t0.into(),
                trace_length.into(),
            ];
            *units = [gain, qet_bias, squid_bias, lockpoint];
            0
        }
        Ok(
            SettingAnswer::Charge {
                code,
                tower,
                gain,
                bias,
                rtf_offset,
                delta_t,
                t0,
                trace_length,
            },
        ) => {
            *whole = [
                CHARGE,
                code.into(),
                tower.into(),
                bias.into(),
                rtf_offset.into(),
                delta_t.into(),
                t0.into(),
                trace_length.into(),
            ];
            *units = [gain, 0.0, 0.0, 0.0];
            0
        }
        Err(refused) => refuse(refused, refusal),
    }
}

/// Samples: where the samples of the trace at a place stand in the file, and how many bytes they are; both 0 where Record finds none.
#[tactic(auto, using(samples::proofs::PartLaws::places))]
#[unsafe(no_mangle)]
pub extern "C" fn dwj_samples(file: &[u8], place: usize, offset: &mut u64, size: &mut u64)
    ensures offset { offset.new ≡ (samples_part Little file.now place).0 }
    ensures size { size.new ≡ (samples_part Little file.now place).1 }
{
    let n = dwejrasq::samples(file, place).len();
    *size = n as u64;
    *offset = if n == 0 {
        0
    } else {
        (place + SAMPLES_FROM) as u64
    };
}

/// Sample: a sample by number; on a refusal the place alone.
#[tactic(auto, unfolding(note::specs::Answers::given_number))]
#[unsafe(no_mangle)]
pub extern "C" fn dwj_sample(
    file: &[u8],
    place: usize,
    number: usize,
    value: &mut u32,
    refusal: &mut u64,
) -> u32
    ensures number { result ≡ number_of (sample_at Little file.now place number) }
    ensures value { NumberAfter value.old (sample_at Little file.now place number) value.new }
    ensures refusal { refusal.new ≡ place_after refusal.old (sample_at Little file.now place number) }
{
    match dwejrasq::sample(file, place, number) {
        Ok(found) => {
            *value = found.into();
            0
        }
        Err(refused) => refuse(refused, refusal),
    }
}

/// Find: the place of the first trace of an event's number and a code, 0 for nothing; on a refusal its place alone.
#[tactic(auto, unfolding(note::specs::Answers::given_find))]
#[unsafe(no_mangle)]
pub extern "C" fn dwj_find(
    file: &[u8],
    number: u32,
    code: u32,
    place: &mut u64,
    refusal: &mut u64,
) -> u32
    ensures number { result ≡ number_of (find_at file.now number code) }
    ensures place { NumberAfter place.old (find_at file.now number code) place.new }
    ensures refusal { refusal.new ≡ place_after refusal.old (find_at file.now number code) }
{
    match dwejrasq::find(file, number, code) {
        Ok(found) => {
            *place = found.unwrap_or(0) as u64;
            0
        }
        Err(refused) => refuse(refused, refusal),
    }
}

// What a walk yields, for C: the number; a row, zeros at the end, or a refusal's place lent.
// A yield's refusal is a number, not a fault: a spot made of C's numbers may have any.
#[tactic(auto, unfolding(crate::specs::Walkers::row_after, note::specs::Answers::given_yield))]
fn tell(last: WalkerYield, row: &mut [u32; 6], refusal: &mut u64) -> u32
    ensures number { result ≡ number_of (given_yield last) }
    ensures row { row.new ≡ row_after row.old last }
    ensures refusal { refusal.new ≡ place_after refusal.old (given_yield last) }
{
    match last {
        WalkerYield::Row {
            kind,
            start,
            whole,
            parent,
            one,
            two,
        } => {
            *row = [kind, start, whole, parent, one, two];
            0
        }
        WalkerYield::End => {
            *row = [0, 0, 0, 0, 0, 0];
            0
        }
        WalkerYield::Refused { number, place } => {
            *refusal = place as u64;
            number
        }
    }
}

// A spot's numbers, for C.
#[tactic(auto, unfolding(crate::specs::Walkers::numbers_of))]
fn numbers_of(at: Spot) -> [u64; 6]
    ensures { result ≡ numbers_of at }
{
    [
        at.number.into(),
        at.fault as u64,
        at.place as u64,
        at.end as u64,
        at.parent.into(),
        at.rows.into(),
    ]
}

/// Open: a walker's numbers, and its first yield.
#[unsafe(no_mangle)]
pub extern "C" fn dwj_open(
    file: &[u8],
    walker: &mut [u64; 6],
    row: &mut [u32; 6],
    refusal: &mut u64,
) -> u32
    ensures number { result ≡ number_of (given_yield (opened_of file.now).last) }
    ensures walker { walker.new ≡ numbers_of (opened_of file.now) }
    ensures row { row.new ≡ row_after row.old (opened_of file.now).last }
    ensures refusal { refusal.new ≡ place_after refusal.old (given_yield (opened_of file.now).last) }
{
    let at = walk::opened(file);
    *walker = numbers_of(at);
    tell(walk::last(at), row, refusal)
}

/// Next: a walker's numbers one step on, and what it yields there. Any numbers are taken.
#[tactic(auto, unfolding(crate::specs::Walkers::spot_of))]
#[unsafe(no_mangle)]
pub extern "C" fn dwj_next(
    file: &[u8],
    walker: &mut [u64; 6],
    row: &mut [u32; 6],
    refusal: &mut u64,
) -> u32
    ensures number { result ≡ number_of (given_yield (step_of file.now (spot_of walker.old)).last) }
    ensures walker { walker.new ≡ numbers_of (step_of file.now (spot_of walker.old)) }
    ensures row { row.new ≡ row_after row.old (step_of file.now (spot_of walker.old)).last }
    ensures refusal { refusal.new ≡ place_after refusal.old
        (given_yield (step_of file.now (spot_of walker.old)).last) }
{
    // A cast must fit, so what is 32 bits wide in a spot is taken modulo 2^32.
    let from = Spot {
        number: (walker[0] % 4294967296) as u32,
        fault: walker[1] as usize,
        place: walker[2] as usize,
        end: walker[3] as usize,
        parent: (walker[4] % 4294967296) as u32,
        rows: (walker[5] % 4294967296) as u32,
        last: WalkerYield::End,
    };
    let at = walk::step(file, from);
    *walker = numbers_of(at);
    tell(walk::last(at), row, refusal)
}

/// Channel: type, number, and the lengths of both names, then the names; all untouched under 10.
#[unsafe(no_mangle)]
pub extern "C" fn dwj_channel(
    code: u32,
    numbers: &mut [u32; 4],
    analysis: &mut [u8; 4],
    cold: &mut [u8; 4],
) -> u32
    ensures number { result ≡ number_in (channel_answer code) }
    ensures numbers { numbers.new ≡ channel_after numbers.old channel_numbers (channel_answer code) }
    ensures analysis { analysis.new ≡ channel_after analysis.old (λ answer. answer.analysis.bytes) (channel_answer code) }
    ensures cold { cold.new ≡ channel_after cold.old (λ answer. answer.cold.bytes) (channel_answer code) }
{
    match dwejrasq::channel(code) {
        Ok(answer) => {
            *numbers = [
                answer.detector_type,
                answer.detector,
                answer.analysis.length,
                answer.cold.length,
            ];
            // An array goes from a field to a lent place by way of a variable, as the toolchain asks.
            let a = answer.analysis.bytes;
            let c = answer.cold.bytes;
            *analysis = a;
            *cold = c;
            0
        }
        Err(refused) => refused.fault.into(),
    }
}

/// Code: the detector code lent; untouched under 10.
#[tactic(auto, unfolding(note::specs::Answers::given_number))]
#[unsafe(no_mangle)]
pub extern "C" fn dwj_code(detector_type: u32, detector: u32, name: &[u8], code: &mut u32) -> u32
    ensures number { result ≡ number_of (code_answer detector_type detector name.now) }
    ensures code { NumberAfter code.old (code_answer detector_type detector name.now) code.new }
{
    match dwejrasq::code(detector_type, detector, name) {
        Ok(found) => {
            *code = found;
            0
        }
        Err(refused) => refused.fault.into(),
    }
}

/// ZIP: 1 where the bit of a ZIP, from 1 to 24, is set in a TLB word, else 0.
#[unsafe(no_mangle)]
pub extern "C" fn dwj_zip(word: u32, zip: u32) -> u32
    ensures { result ≡ bit (zip_set word zip) }
{
    dwejrasq::zip(word, zip).into()
}
