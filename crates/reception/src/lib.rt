// The reception class of a frame, by its type, quality and STI: of a frame that was read, and by numbers. `reception_class` is an entry.
#![tactic(auto)]

ghost use Rattle.std.specs.Prelude.{◌≡◌, ◌≤◌, length};
ghost use Rattle.definitions.specs.Frames.{core_octets};
ghost use Rattle.definitions.specs.Reading.{buffer_core};
ghost use Rattle.definitions.specs.Reception.{speech_class, sid_class, class_of, frame_class, reception_class};
ghost use Rattle.frame.specs.Answers.{frame_with};
ghost use Rattle.reception.specs.Classes.{speech_of, sid_of, reception_of, classified_of};

use frame::table::octets_known;
use frame::{Format, FrameHeader, Refusal, SID};

// Types 0 to 8 are speech. Not `HIGHEST_MODE`, which is about modes.
const LAST_SPEECH: u64 = 8;

const SPEECH_LOST: u64 = 14;

// Where a SID frame's core has STI, in bits.
const STI_AT: usize = 35;

#[derive(Clone, Copy)]
pub enum SpeechClass {
    Good,
    Bad,
}

#[derive(Clone, Copy)]
pub enum SidClass {
    First,
    Update,
    Bad,
}

// Document 01's speech, comfort, lost and empty.
#[derive(Clone, Copy)]
pub enum Reception {
    Speech(SpeechClass),
    Sid(SidClass),
    SpeechLost,
    NoData,
}

// No From<bool>: it has one caller, and its law would be this clause.
fn speech_class(good: bool) -> SpeechClass
    ensures { speech_of result ≡ speech_class good }
{
    if good {
        SpeechClass::Good
    } else {
        SpeechClass::Bad
    }
}

fn sid_class(good: bool, sti: bool) -> SidClass
    ensures { sid_of result ≡ sid_class good sti }
{
    match (good, sti) {
        (false, _) => SidClass::Bad,
        (true, false) => SidClass::First,
        (true, true) => SidClass::Update,
    }
}

// The class of a type that is known. `pub` for the crate that counts a recording's frames.
pub fn class_of(t: u64, good: bool, sti: bool) -> Reception
    ensures { reception_of result ≡ class_of t good sti }
{
    match t {
        0..=LAST_SPEECH => Reception::Speech(speech_class(good)),
        SID => Reception::Sid(sid_class(good, sti)),
        SPEECH_LOST => Reception::SpeechLost,
        _ => Reception::NoData,
    }
}

// The class of a frame that was read, whose packed core stands in a buffer. `pub` for level two's viewer.
pub fn frame_class(h: FrameHeader, core: &[u8]) -> Reception
    requires { core_octets h.frame_type ≤ length core.now }
    ensures { reception_of result ≡ frame_class (frame_with h (buffer_core core.now h.frame_type)) }
{
    let t = u64::from(h.frame_type);
    let sti = t == SID && bits::bit_at(core, STI_AT);
    class_of(t, h.quality == 1, sti)
}

// The class by numbers.
#[tactic(auto, unfolding(definitions::specs::Reception::reception_class))]
pub fn reception_class(t: u64, q: u64, sti: u64) -> Result<Reception, Refusal>
    ensures { classified_of result ≡ reception_class t q sti }
{
    if 15 < t || 1 < q || 1 < sti {
        return Err(Refusal::ArgumentRange);
    }
    // In any format: a type is reserved in all.
    octets_known(Format::If2, t as usize)?;
    Ok(class_of(t, q == 1, sti == 1))
}
