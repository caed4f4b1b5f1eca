// Reading one frame. The tests of document 01's order are in crate frame_tests; `judge` makes them in that order. `read_frame` is an entry;
// the other `pub` functions are for the crates that go over recordings.
#![tactic(auto)]

ghost use Rattle.std.specs.Prelude.{◌≡◌, true, ◌≤◌, length, IfSome};
ghost use Rattle.bits.specs.Bits.{bits};
ghost use Rattle.definitions.specs.Frames.{if1, known, octets, core_in};
ghost use Rattle.definitions.specs.Reading.{read_with, read_frame, into_buffer, read_call};
ghost use Rattle.frame_reader.specs.Buffer.{IntoCore, Fronts, Plain};
ghost use Rattle.frame.specs.Answers.{format_of, frame_with, reading_of};

use frame::table::{carries_modes, core_bits, header_bits, octets_known};
use frame::{Format, FrameHeader, Refusal};
use frame_tests::{FrameOctets, ends, header_good, quality_in, sid_fine, type_in};

// The octets of the frame at the start of `s`, where it stands whole there: the first three tests.
#[inline(always)]
fn front(f: Format, s: &[u8]) -> Result<FrameOctets<'_>, Refusal>
    ensures { Fronts f s.now result }
{
    if s.len() == 0 {
        return Err(Refusal::NoOctets);
    }
    let frame_type = type_in(f, s);
    let size = octets_known(f, usize::from(frame_type))?;
    if s.len() < size {
        return Err(Refusal::TooShort);
    }
    Ok(FrameOctets {
        format: f,
        s,
        frame_type,
        size,
    })
}

// The tests in document 01's order; 4 is judged of a `single` frame only. Inlined, so that Down, whose format is constant, has no branches on it:
// with one shared function Down of a SID frame takes a third more time.
#[inline(always)]
fn judge(single: bool, f: Format, s: &[u8]) -> Result<(FrameHeader, usize), Refusal>
    ensures { reading_of (λ t. core_in (format_of f) t (bits s.now)) result ≡ read_with single (format_of f) s.now }
{
    let x = front(f, s)?;
    if !ends(single, x.s.len(), x.size) {
        return Err(Refusal::OctetsAfter);
    }
    if !x.spare_clear() {
        return Err(Refusal::SpareBit);
    }
    let h = x.header();
    if !header_good(x.format, x.s, h) {
        return Err(Refusal::FieldRange);
    }
    if !x.crc_good() {
        return Err(Refusal::CrcMismatch);
    }
    Ok((h, x.size))
}

// The octets of a valid frame that carries no modes; of another frame, and of one that is refused, none. Inlined, so that the tests are compiled
// for each format, without branches on it.
#[inline(always)]
fn plain(f: Format, s: &[u8]) -> Option<usize>
    ensures { IfSome result (λ n. Plain (format_of f) s.now n) }
{
    if s.len() == 0 || carries_modes(f, usize::from(type_in(f, s))) {
        return None;
    }
    let x = front(f, s).ok()?;
    (x.spare_clear() && sid_fine(f, s, usize::from(x.frame_type))).then_some(x.size)
}

fn plain_front(f: Format, s: &[u8]) -> Option<usize>
    ensures { IfSome result (λ n. Plain (format_of f) s.now n) }
{
    match f {
        Format::If1 => plain(Format::If1, s),
        Format::If2 => plain(Format::If2, s),
        Format::Storage => plain(Format::Storage, s),
    }
}

// The frame at the start of `s`, where more may follow; its count is the octets that it takes.
pub fn read_next(f: Format, s: &[u8]) -> Result<(FrameHeader, usize), Refusal>
    ensures { reading_of (λ t. core_in (format_of f) t (bits s.now)) result ≡ read_frame (format_of f) s.now }
{
    judge(false, f, s)
}

// `read_next` with a fast path for frames that carry no modes. Only the scan of a conversion calls it, so that it is inlined there.
pub fn read_front(f: Format, s: &[u8]) -> Result<(FrameHeader, usize), Refusal>
    ensures { reading_of (λ t. core_in (format_of f) t (bits s.now)) result ≡ read_frame (format_of f) s.now }
{
    if let Some(n) = plain_front(f, s) {
        let h = FrameHeader {
            frame_type: type_in(f, s),
            quality: quality_in(f, s),
            indication: 0,
            request: 0,
        };
        return Ok((h, n));
    }
    read_next(f, s)
}

// One IF1 frame, with nothing behind it; the count is its octets. `pub` for the link's Down.
pub fn read_if1(s: &[u8]) -> Result<(FrameHeader, usize), Refusal>
    ensures { reading_of (λ t. core_in if1 t (bits s.now)) result ≡ read_with true if1 s.now }
{
    judge(true, Format::If1, s)
}

// Puts the core of the frame at the start of `s`, whose header is `h`, packed into the buffer, if that has room. `pub` for the viewer. No method of
// `FrameOctets`: it asks for octets and type alone.
pub fn core_out(
    f: Format,
    s: &[u8],
    h: FrameHeader,
    core: &mut [u8],
) -> Result<(FrameHeader, usize), Refusal>
    requires { (known h.frame_type ≡ true) × (octets (format_of f) h.frame_type ≤ length s.now) }
    ensures { IntoCore (into_buffer (frame_with h (core_in (format_of f) h.frame_type (bits s.now))) (length core.old)) core.old core.new result }
{
    let t = usize::from(h.frame_type);
    let k = core_bits(t);
    let m = k.div_ceil(8);
    if core.len() < m {
        return Err(Refusal::OutputShort);
    }
    bits::put_run(s, header_bits(f, t), k, core, 0);
    Ok((h, m))
}

// Reads one frame: its fields in the answer, with how many octets its packed core takes in the buffer. An entry.
pub fn read_frame(format: u64, s: &[u8], core: &mut [u8]) -> Result<(FrameHeader, usize), Refusal>
    ensures { IntoCore (read_call format s.now (length core.old)) core.old core.new result }
{
    let f = Format::try_from(format)?;
    let (h, _) = judge(true, f, s)?;
    core_out(f, s, h, core)
}
