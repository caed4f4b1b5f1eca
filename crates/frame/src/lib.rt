// What a frame is to the code: formats, refusals, a frame's fields, and the table of types. The crates that read, build and classify
// frames stand above it; its functions are `pub` for them. What an answer means is said in specs/Answers.antt, and what a frame is in
// `definitions`. Casts between usize and u64, here and above: they have no `From`, and the same 64 bits.
#![tactic(auto)]

pub mod fields;
pub mod table;

ghost use Rattle.std.specs.Prelude.{◌≡◌, ◌≤◌, cond, leb, IfOk};
ghost use Rattle.definitions.specs.Outcome.{ok, unless};
ghost use Rattle.definitions.specs.Reading.{format_numbered};
ghost use Rattle.frame.specs.Answers.{number_of, format_found, built_of};

// The highest mode.
pub const HIGHEST_MODE: u64 = 8;

// The type of a SID frame, and where its core has the mode, in bits.
pub const SID: u64 = 9;

pub const SID_MODE_AT: usize = 36;

// Where IF1 has the core of a frame that carries modes, in octets.
pub const IF1_CORE_AT: usize = 3;

// Document 01's formats 1, 2 and 3.
#[derive(Clone, Copy, Debug, PartialEq, Eq)]
pub enum Format {
    If1,
    If2,
    Storage,
}

// Why a call refuses, by the papers' numbers.
#[derive(Clone, Copy, Debug, PartialEq, Eq)]
pub enum Refusal {
    NoOctets = 1,
    ReservedType = 2,
    TooShort = 3,
    OctetsAfter = 4,
    SpareBit = 5,
    FieldRange = 6,
    CrcMismatch = 7,
    StorageHeader = 8,
    TooLong = 9,
    OutputShort = 10,
    ArgumentRange = 11,
    NoCodecOrder = 12,
    FqcReserved = 13,
    NoSet = 14,
    SetPresent = 15,
    NotInSet = 16,
    SubflowBuffer = 17,
    SheetForm = 23,
    SheetIncomplete = 24,
    ConsoleFull = 27,
}

// A frame's fields but for the core, as they stand in its octets: numbers, and no bool or mode. A reader may find indication and request out of
// range; type and quality are put back by shifts, and go to C.
#[derive(Clone, Copy)]
pub struct FrameHeader {
    pub frame_type: u8,
    pub quality: u8,
    pub indication: u8,
    pub request: u8,
}

impl TryFrom<u64> for Format {
    type Error = Refusal;

    ghost try_from_gives = { λ n r. format_found r ≡ format_numbered n };

    fn try_from(n: u64) -> Result<Format, Refusal> {
        match n {
            1 => Ok(Format::If1),
            2 => Ok(Format::If2),
            3 => Ok(Format::Storage),
            _ => Err(Refusal::ArgumentRange),
        }
    }
}

impl From<Refusal> for u64 {
    ghost from_gives = { λ e n. n ≡ number_of e };

    fn from(e: Refusal) -> u64 {
        // A cast alone reads a discriminant.
        e as u64
    }
}

// A mode by its number, of which one that is out of range is refused.
pub fn mode_numbered(m: u64) -> Result<u8, Refusal>
    ensures judged { built_of result ≡ unless 11 (leb m 8) (ok m) }
    ensures bound { IfOk result (λ n. n ≤ 8) }
{
    if HIGHEST_MODE < m {
        return Err(Refusal::ArgumentRange);
    }
    // At most 8: the cast loses nothing.
    Ok(m as u8)
}

// The mode indication of a frame that is made: its type, 0 for a SID frame.
pub fn indication_of(t: u8) -> u8
    ensures { result ≡ cond (leb t 8) t 0 }
{
    if u64::from(t) <= HIGHEST_MODE { t } else { 0 }
}
