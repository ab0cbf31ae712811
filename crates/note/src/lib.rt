// The answers that the calls give, as types; what each must hold is defined in specs/, in the order of FORMAT.
#![tactic(auto)]

ghost use Rattle.std.specs.Prelude.{◌≡◌};
ghost use Rattle.note.specs.Faults.{fault_number};

/// Why something is refused, with the number that is given back (FORMAT 2.1), as specs/Faults has it.
#[derive(Clone, Copy, Debug, PartialEq, Eq)]
pub enum Fault {
    /// A lent file or output is over the limit.
    TooLarge = 1,
    /// Fewer than eight bytes are left for a structure, or its length passes what holds it.
    TooShort = 2,
    /// The file's first word is another one.
    NotAFile = 3,
    /// The version word says another format than 2.0.
    WrongFormat = 4,
    /// A kind word, a trace's inner kind or the mark of an event isn't one of those allowed there.
    WrongKind = 5,
    /// A length is wrong for its kind or for its counts.
    WrongLength = 6,
    /// An event's class, category or type isn't admitted.
    NotAdmitted = 7,
    /// An event of type 7, a monitoring event.
    Monitoring = 8,
    /// An event is empty, its first record isn't administrative, or a kind comes a second time.
    Misplaced = 9,
    /// A field is outside its rule.
    WrongField = 10,
    /// A trace's count of samples is outside its rule, or a sample's number is out of range.
    WrongCount = 11,
    /// Table's rows don't fit the lent buffer.
    FewRows = 12,
    /// What is to be written doesn't lie in the output.
    NoRoom = 13,
}

/// A refusal: why, and at which byte.
#[derive(Clone, Copy, Debug, PartialEq, Eq)]
pub struct Refusal {
    pub fault: Fault,
    pub place: usize,
}

/// A refusal by its number, which may be any: what a caller hands over who has no `Fault`.
#[derive(Clone, Copy, Debug, PartialEq, Eq)]
pub struct Numbered {
    pub number: u32,
    pub place: usize,
}

impl Fault {
    /// The refusal for this fault at a place.
    pub fn at(self, place: usize) -> Refusal
        ensures { result ≡ record { fault = self; place = place } }
    {
        Refusal { fault: self, place }
    }
}

impl From<Fault> for u32 {
    ghost from_gives = { λ fault number. number ≡ fault_number fault };

    fn from(fault: Fault) -> u32 {
        fault as u32
    }
}

impl From<Refusal> for Numbered {
    ghost from_gives = { λ refusal numbered. numbered ≡ record { number = fault_number refusal.fault; place = refusal.place } };

    fn from(refusal: Refusal) -> Numbered {
        Numbered {
            number: refusal.fault.into(),
            place: refusal.place,
        }
    }
}

// The kinds of rows (FORMAT 7.2): numbers and no enum, since a row is six numbers in a lent buffer, in Table's definition and for C.
pub const HEADER_ROW: u32 = 1;

pub const CONFIGURATION_ROW: u32 = 2;

pub const PHONON_ROW: u32 = 3;

pub const CHARGE_ROW: u32 = 4;

pub const EVENT_ROW: u32 = 5;

pub const ADMINISTRATIVE_ROW: u32 = 6;

pub const TRACE_ROW: u32 = 7;

pub const HISTORY_ROW: u32 = 8;

pub const GPS_ROW: u32 = 9;

pub const TRIGGER_ROW: u32 = 10;

pub const TLB_ROW: u32 = 11;

/// Table: the number (0 accepted, 12 too few rows lent), the count of rows, the place. Three numbers and no `Result`: `table_answer` and what is
/// proved of it (`TableGives`) say all three of every file.
#[derive(Clone, Copy, Debug, PartialEq, Eq)]
pub struct TableAnswer {
    pub number: u32,
    pub count: usize,
    pub place: usize,
}

// ---- the fields of the kinds, in the order of their words

/// A phonon entry's fields (FORMAT 4.1). Gain, both biases and lockpoint are times 100.
#[derive(Clone, Copy, Debug, PartialEq, Eq)]
pub struct Phonon {
    pub code: i32,
    pub tower: i32,
    pub gain: i32,
    pub qet_bias: i32,
    pub squid_bias: i32,
    pub lockpoint: i32,
    pub rtf_offset: i32,
    pub variable_gain: i32,
    pub delta_t: i32,
    pub t0: i32,
    pub trace_length: i32,
}

/// A charge entry's fields (FORMAT 4.2). The gain is times 100.
#[derive(Clone, Copy, Debug, PartialEq, Eq)]
pub struct Charge {
    pub code: i32,
    pub tower: i32,
    pub gain: i32,
    pub bias: i32,
    pub rtf_offset: i32,
    pub delta_t: i32,
    pub t0: i32,
    pub trace_length: i32,
}

/// An administrative record's fields (FORMAT 5.1): the series by its digits, LLYYMMDD and HHMM; since and live in milliseconds.
#[derive(Clone, Copy, Debug, PartialEq, Eq)]
pub struct Administrative {
    pub date: u32,
    pub clock: u32,
    pub number: u32,
    pub time: u32,
    pub since: u32,
    pub live: u32,
}

/// A trace's fields (FORMAT 5.2), its samples as the bytes of the part that holds them.
#[derive(Clone, Copy)]
pub struct Trace<'a> {
    pub address: u32,
    pub channel: u32,
    pub code: u32,
    pub t0: i32,
    pub delta_t: u32,
    pub n: u32,
    pub samples: &'a [u8],
}

/// A history's section (FORMAT 5.3): how many times, the part of bytes that holds them, how many masks for each, and the part that holds the masks.
#[derive(Clone, Copy)]
pub struct Section<'a> {
    pub count: u32,
    pub times: &'a [u8],
    pub width: u32,
    pub masks: &'a [u8],
}

/// A history's fields (FORMAT 5.3).
#[derive(Clone, Copy)]
pub struct History<'a> {
    pub veto: Section<'a>,
    pub trigger: Section<'a>,
}

/// A GPS record's fields (FORMAT 5.4): the numbers that its digits write.
#[derive(Clone, Copy, Debug, PartialEq, Eq)]
pub struct Gps {
    pub year: u32,
    pub day: u32,
    pub status: u32,
    pub hour: u32,
    pub minute: u32,
    pub second: u32,
    pub tenths: u32,
}

/// A trigger record's fields (FORMAT 5.5): its masks.
#[derive(Clone, Copy, Debug, PartialEq, Eq)]
pub struct Trigger {
    pub mask1: u32,
    pub mask2: u32,
    pub mask3: u32,
    pub mask4: u32,
    pub mask5: u32,
    pub mask6: u32,
}

/// A TLB record's fields (FORMAT 5.6): a word for each tower.
#[derive(Clone, Copy, Debug, PartialEq, Eq)]
pub struct Tlb {
    pub tower1: u32,
    pub tower2: u32,
    pub tower3: u32,
    pub tower4: u32,
    pub tower5: u32,
    pub tower6: u32,
}

// ---- what the calls answer

/// Record: one of two entries and six records with its fields, or a refusal; a trace without its samples, a history with the places of its lists.
/// It has a case for the refusal, and is no `Result`: that form was asked for (docs/DECISIONS.md, 'Forms of the code').
#[derive(Clone, Copy)]
pub enum RecordAnswer {
    Phonon(Phonon),
    Charge(Charge),
    Administrative(Administrative),
    Trace {
        address: u32,
        channel: u32,
        code: u32,
        t0: i32,
        delta_t: u32,
        n: u32,
    },
    History {
        veto_times: u32,
        veto_times_at: u32,
        veto_width: u32,
        veto_masks_at: u32,
        trigger_times: u32,
        trigger_times_at: u32,
        trigger_width: u32,
        trigger_masks_at: u32,
    },
    Gps(Gps),
    Trigger(Trigger),
    Tlb(Tlb),
    Refused(Refusal),
}

/// Setting: an entry in working units. Its cases have fields of their own and no structs of Record's: those stored times 100 are floats here.
#[derive(Clone, Copy)]
pub enum SettingAnswer {
    Phonon {
        code: i32,
        tower: i32,
        gain: f64,
        qet_bias: f64,
        squid_bias: f64,
        lockpoint: f64,
        rtf_offset: i32,
        variable_gain: i32,
        delta_t: i32,
        t0: i32,
        trace_length: i32,
    },
    Charge {
        code: i32,
        tower: i32,
        gain: f64,
        bias: i32,
        rtf_offset: i32,
        delta_t: i32,
        t0: i32,
        trace_length: i32,
    },
}

/// A channel's name: its ASCII bytes stand first, zeros after them; bytes and length, as `channel_answer` has them and C is lent them.
#[derive(Clone, Copy)]
pub struct Name {
    pub bytes: [u8; 4],
    pub length: u32,
}

/// Channel of a code: type, detector number and both names.
#[derive(Clone, Copy)]
pub struct ChannelAnswer {
    pub detector_type: u32,
    pub detector: u32,
    pub analysis: Name,
    pub cold: Name,
}

/// What a walker yields: a row, the end, or the file's refusal. Its numbers, the refusal's too, are those of a spot, of which a caller in C may hand
/// over any (`dwj_next`).
#[derive(Clone, Copy)]
pub enum WalkerYield {
    Row {
        kind: u32,
        start: u32,
        whole: u32,
        parent: u32,
        one: u32,
        two: u32,
    },
    End,
    Refused {
        number: u32,
        place: usize,
    },
}
