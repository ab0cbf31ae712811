// Detector codes and channel names (FORMAT 3).
#![tactic(auto)]

ghost use Rattle.std.specs.Prelude.{◌≡◌};
ghost use Rattle.note.specs.Answers.{given_number};
ghost use Rattle.note.specs.Channels.{channel_answer, code_answer, names_channel, names_phonon, names_charge, numbered, channel_of};
ghost use Rattle.channels.specs.Tables.{looked_up, analysis_of, cold_of, named, is_called, channel_called, initial_of};

use note::{ChannelAnswer, Fault, Name, Refusal};

// The analysis names: a row for each detector type, four letters for each channel, dots for what is not there. Letters
// in a table, as the definitions' (`table_of`): there is no heap for names.
const ANALYSIS: [u8; 576] = *b"\
................................................\
....QI..QO..PS1.PS2.............................\
QI..QO..PA..PB..PC..PD..........................\
Veto............................................\
QI..QO..PA..PB..PC..PD..........................\
QI..QO..PA..PB..PC..PD..........................\
QI..QO..PA..PB..PC..PD..........................\
Q...PA..PB......................................\
................................................\
................................................\
QIS1QOS1PAS1PBS2PCS1PDS1QIS2QOS2PAS2PBS1PCS2PDS2\
QIS1QOS1PAS2PBS1PCS2PDS1QIS2QOS2PAS1PBS2PCS1PDS2";

// The names in the cold wiring, laid out the same way.
const COLD: [u8; 576] = *b"\
................................................\
....QI..QO..PS1.PS2.............................\
QI..QO..PA..PB..PC..PD..........................\
Veto............................................\
QI..QO..PA..PB..PC..PD..........................\
QI..QO..PA..PB..PC..PD..........................\
QI..QO..PA..PB..PC..PD..........................\
Q...PA..PB......................................\
................................................\
................................................\
QIS1QOS1A1..B1..C1..D1..QIS2QOS2A2..B2..C2..D2..\
QIS1QOS1A1..B1..C1..D1..QIS2QOS2A2..B2..C2..D2..";

// The greatest listed type, the greatest channel of any type, and the bytes of a table for a type and for a channel.
const LAST_TYPE: u32 = 11;

const LAST_CHANNEL: u32 = 11;

const TYPE_BYTES: u32 = 48;

const NAME_BYTES: u32 = 4;

// A detector code is type, number and channel, three decimal digits each.
const TYPE_UNIT: u32 = 1_000_000;

const NUMBER_UNIT: u32 = 1_000;

const LAST_NUMBER: u32 = 999;

// The name that a table has for a type's channel. Type and channel stay two numbers, as `code` takes the first.
#[tactic(auto, unfolding(crate::specs::Tables::looked_up))]
fn look_up(table: &[u8; 576], detector_type: u32, channel: u32) -> Option<Name>
    ensures { result ≡ looked_up table.now detector_type channel }
{
    if detector_type > LAST_TYPE || channel > LAST_CHANNEL {
        return None;
    }
    let at = (detector_type * TYPE_BYTES + channel * NAME_BYTES) as usize;
    let (bytes, length) = match (table[at], table[at + 1], table[at + 2], table[at + 3]) {
        (b'.', _, _, _) => return None,
        (a, b'.', _, _) => ([a, 0, 0, 0], 1),
        (a, b, b'.', _) => ([a, b, 0, 0], 2),
        (a, b, c, b'.') => ([a, b, c, 0], 3),
        (a, b, c, d) => ([a, b, c, d], 4),
    };
    Some(Name { bytes, length })
}

// The analysis name of a type's channel; it and the cold name are two definitions, and a line for each.
fn analysis_name(detector_type: u32, channel: u32) -> Option<Name>
    ensures { result ≡ analysis_of (numbered detector_type channel) }
{
    look_up(&ANALYSIS, detector_type, channel)
}

// The cold name of a type's channel.
fn cold_name(detector_type: u32, channel: u32) -> Option<Name>
    ensures { result ≡ cold_of (numbered detector_type channel) }
{
    look_up(&COLD, detector_type, channel)
}

// The letters of a name as they are asked for; None where a name has another length.
#[tactic(auto, unfolding(crate::specs::Tables::named))]
fn name_of(letters: &[u8]) -> Option<Name>
    ensures { result ≡ named letters.now }
{
    let bytes = match letters {
        [a] => [*a, 0, 0, 0],
        [a, b] => [*a, *b, 0, 0],
        [a, b, c] => [*a, *b, *c, 0],
        [a, b, c, d] => [*a, *b, *c, *d],
        _ => return None,
    };
    Some(Name {
        bytes,
        length: letters.len() as u32,
    })
}

// Whether a type's channel has this analysis name.
#[tactic(auto, using(crate::proofs::SearchLaws::comparing))]
fn is_called(detector_type: u32, channel: u32, name: Name) -> bool
    ensures { result ≡ is_called detector_type channel name }
{
    match analysis_name(detector_type, channel) {
        Some(listed) => listed.bytes == name.bytes && listed.length == name.length,
        None => false,
    }
}

// The number of a type's channel of that analysis name.
#[tactic(auto, unfolding(crate::specs::Tables::named), using(crate::proofs::SearchLaws::searching))]
fn channel_called(detector_type: u32, name: &[u8]) -> Option<u32>
    ensures { result ≡ channel_called detector_type name.now }
{
    let wanted = name_of(name)?;
    for channel in 0..=LAST_CHANNEL {
        if is_called(detector_type, channel, wanted) {
            return Some(channel);
        }
    }
    None
}

// The first letter of the analysis name of the channel that a code names.
#[tactic(auto, unfolding(crate::specs::Tables::analysis_of, crate::specs::Tables::initial_of))]
fn initial(code: u32) -> Option<u8>
    ensures { result ≡ initial_of (channel_of code) }
{
    let name = analysis_name(code / TYPE_UNIT, code % NUMBER_UNIT)?;
    Some(name.bytes[0])
}

/// Whether a code names a listed channel.
#[tactic(auto, unfolding(crate::specs::Tables::initial_of, note::specs::Channels::names_channel))]
pub fn is_named(code: u32) -> bool
    ensures { result ≡ names_channel code }
{
    initial(code).is_some()
}

// Phonon and charge are two definitions, and a line for each.
/// Whether a code names a phonon channel.
#[tactic(auto, unfolding(crate::specs::Tables::initial_of, note::specs::Channels::names_phonon))]
pub fn is_phonon(code: u32) -> bool
    ensures { result ≡ names_phonon code }
{
    matches!(initial(code), Some(b'P'))
}

/// Whether a code names a charge channel.
#[tactic(auto, unfolding(crate::specs::Tables::initial_of, note::specs::Channels::names_charge))]
pub fn is_charge(code: u32) -> bool
    ensures { result ≡ names_charge code }
{
    matches!(initial(code), Some(b'Q'))
}

/// Channel: type, number, analysis name and cold name of a detector code; 10 at place 0 where it names no listed channel.
#[tactic(auto, unfolding(crate::specs::Tables::analysis_of, crate::specs::Tables::cold_of, note::specs::Channels::channel_answer))]
pub fn channel(code: u32) -> Result<ChannelAnswer, Refusal>
    ensures { result ≡ channel_answer code }
{
    let detector_type = code / TYPE_UNIT;
    let number = code % NUMBER_UNIT;
    Ok(ChannelAnswer {
        detector_type,
        detector: code / NUMBER_UNIT % NUMBER_UNIT,
        analysis: analysis_name(detector_type, number).ok_or(Fault::WrongField.at(0))?,
        cold: cold_name(detector_type, number).ok_or(Fault::WrongField.at(0))?,
    })
}

/// Code: the detector code of a type, a number from 0 to 999 and an analysis name; 10 at place 0 where there is none.
#[tactic(auto, unfolding(note::specs::Answers::given_number), using(crate::proofs::SearchLaws::coding))]
pub fn code(detector_type: u32, detector: u32, name: &[u8]) -> Result<u32, Refusal>
    ensures { given_number result ≡ code_answer detector_type detector name.now }
{
    if detector > LAST_NUMBER {
        return Err(Fault::WrongField.at(0));
    }
    let channel = channel_called(detector_type, name).ok_or(Fault::WrongField.at(0))?;
    Ok(detector_type * TYPE_UNIT + detector * NUMBER_UNIT + channel)
}
