// The tests of reading one frame, each of document 01's order one function whose answer equals the definition's test. The `pub` functions are
// for frame_reader and the crates that go over recordings. Format and octets go side by side until a frame is known to stand there whole: from
// there on a `FrameOctets` holds them. A function that reads the first octet alone asks only for that one.
#![tactic(auto)]

ghost use Rattle.std.specs.Prelude.{◌≡◌, true, not, ◌&&◌, ◌||◌, cond, ◌+◌, ◌<◌, ◌≤◌, leb, length, drop};
ghost use Rattle.bits.specs.Bits.{bits, num, clear};
ghost use Rattle.definitions.specs.Frames.{known, octets, carries_modes, spare_before, spare_after, type_in, quality_in, core_in, frame_in, fill_clear, spare_clear, fields_good, crc_good};
ghost use Rattle.frame.specs.Answers.{format_of, frame_with};

use frame::fields::fields_good;
use frame::table::{carries_modes, class_a, fill_bits, header_bits, spare_before};
use frame::{Format, FrameHeader, HIGHEST_MODE, IF1_CORE_AT, SID, SID_MODE_AT};

// Where IF1 has the indication, the request and the CRC, in bits.
const INDICATION_AT: usize = 8;

const REQUEST_AT: usize = 12;

const CRC_AT: usize = 16;

// The type that the first octet names. Not one function with `quality_in`: what they share is a shift.
pub fn type_in(f: Format, s: &[u8]) -> u8
    requires { 0 < length s.now }
    ensures { result ≡ type_in (format_of f) (bits s.now) }
{
    (s[0] >> (4 - spare_before(f))) & 15
}

// The FQI.
pub fn quality_in(f: Format, s: &[u8]) -> u8
    requires { 0 < length s.now }
    ensures { result ≡ quality_in (format_of f) (bits s.now) }
{
    (s[0] >> (3 - spare_before(f))) & 1
}

// Nothing stands behind a single frame; of another this is not asked.
pub fn ends(single: bool, len: usize, n: usize) -> bool
    ensures { result ≡ (not single || leb len n) }
{
    !single || len <= n
}

// No spare bit of the first octet is 1.
fn first_clear(f: Format, s: &[u8]) -> bool
    requires { 0 < length s.now }
    ensures { result ≡ (clear (spare_before (format_of f)) (bits s.now) && clear (spare_after (format_of f)) (drop (spare_before (format_of f) + 5) (bits s.now))) }
{
    match f {
        Format::If1 => s[0] & 0x07 == 0,
        Format::If2 => true,
        Format::Storage => s[0] & 0x83 == 0,
    }
}

// The mode of a SID frame, d(36..39).
fn sid_mode(f: Format, s: &[u8]) -> u8
    requires { octets (format_of f) 9 ≤ length s.now }
    ensures { result ≡ num 4 (drop 36 (core_in (format_of f) 9 (bits s.now))) }
{
    bits::field_at(s, header_bits(f, SID as usize) + SID_MODE_AT, 4)
}

// Refusal 6's test of a frame that is read.
pub fn header_good(f: Format, s: &[u8], h: FrameHeader) -> bool
    requires { octets (format_of f) h.frame_type ≤ length s.now }
    ensures { result ≡ fields_good (format_of f) (frame_with h (core_in (format_of f) h.frame_type (bits s.now))) }
{
    let t = u64::from(h.frame_type);
    let mode = if t == SID { sid_mode(f, s) } else { 0 };
    fields_good(
        f,
        t,
        u64::from(h.indication),
        u64::from(h.request),
        u64::from(mode),
    )
}

// Of a SID frame the mode is at most 8. No method of `FrameOctets`, nor is `header_good`: they ask for the octets alone.
pub fn sid_fine(f: Format, s: &[u8], t: usize) -> bool
    requires { octets (format_of f) t ≤ length s.now }
    ensures { result ≡ true → t ≡ 9 → num 4 (drop 36 (core_in (format_of f) t (bits s.now))) ≤ 8 }
{
    t as u64 != SID || u64::from(sid_mode(f, s)) <= HIGHEST_MODE
}

// A frame that stands whole at the start of the octets `s`: of a known type, and with all its octets there. `s` is not cut to them: the definitions
// read what is there.
#[derive(Clone, Copy)]
pub struct FrameOctets<'a> {
    pub format: Format,
    pub s: &'a [u8],
    pub frame_type: u8,
    pub size: usize,
    pub ghost type_is: { frame_type ≡ type_in (format_of format) (bits s.now) },
    pub ghost type_known: { known frame_type ≡ true },
    pub ghost size_is: { size ≡ octets (format_of format) frame_type },
    pub ghost enough: { size ≤ length s.now },
}

impl FrameOctets<'_> {
    // The filling bits are 0.
    fn fill_clear(&self) -> bool
        ensures { result ≡ fill_clear (format_of self.now.format) self.now.frame_type (bits self.now.s.now) }
    {
        let k = fill_bits(self.format, usize::from(self.frame_type));
        bits::low_bits(self.s, self.size, k) == 0
    }

    // Refusal 5's test.
    pub fn spare_clear(&self) -> bool
        ensures { result ≡ spare_clear (format_of self.now.format) (bits self.now.s.now) }
    {
        first_clear(self.format, self.s) && self.fill_clear()
    }

    // The mode that stands at bit `from`, 0 where the frame carries none, as the definition has it.
    fn mode_in(&self, from: usize) -> u8
        requires { from < 16 }
        ensures { result ≡ cond (carries_modes (format_of self.now.format) self.now.frame_type) (num 4 (drop from (bits self.now.s.now))) 0 }
    {
        if carries_modes(self.format, usize::from(self.frame_type)) {
            bits::field_at(self.s, from, 4)
        } else {
            0
        }
    }

    // The fields but for the core.
    pub fn header(&self) -> FrameHeader
        ensures { frame_with result (core_in (format_of self.now.format) self.now.frame_type (bits self.now.s.now)) ≡ frame_in (format_of self.now.format) (bits self.now.s.now) }
    {
        FrameHeader {
            frame_type: self.frame_type,
            quality: quality_in(self.format, self.s),
            indication: self.mode_in(INDICATION_AT),
            request: self.mode_in(REQUEST_AT),
        }
    }

    // Refusal 7's test.
    pub fn crc_good(&self) -> bool
        ensures { result ≡ crc_good (format_of self.now.format) (bits self.now.s.now) }
    {
        let t = usize::from(self.frame_type);
        !carries_modes(self.format, t)
            || bits::field_at(self.s, CRC_AT, 8)
                == parity::crc_of(&self.s[IF1_CORE_AT..], class_a(t))
    }
}
