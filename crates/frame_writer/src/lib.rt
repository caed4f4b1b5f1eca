// Writing one frame. What is `pub` is for the crates that build frames, carry them over and join sub-flows: none is an entry.
#![tactic(auto)]

ghost use Rattle.std.specs.Prelude.{◌≡◌, Bool, true, false, List, ◌++◌, ℕ, ◌-◌, ◌<◌, ◌≤◌, length, drop};
ghost use Rattle.bits.specs.Bits.{digits, pack};
ghost use Rattle.definitions.specs.Frames.{if1, core_bits, octets, carries_modes, spare_before, layout};
ghost use Rattle.frame.specs.Answers.{format_of, frame_with};
ghost use Rattle.frame_writer.specs.Writing.{Writable, run_frame};

use frame::table::{carries_modes, class_a, core_bits, header_bits};
use frame::{Format, FrameHeader, IF1_CORE_AT};

// Where IF1 has the core, in bits.
const CORE_BIT: usize = 8 * IF1_CORE_AT;

// The octet of type and quality, with spare bits 0.
pub fn first_octet(f: Format, t: u8, q: u8) -> u8
    requires { (t < 16) × (q < 2) }
    ensures { digits 8 result ≡ digits (spare_before (format_of f)) 0 ++ (digits 4 t ++ (digits 1 q ++ digits (3 - spare_before (format_of f)) 0)) }
{
    let v = t * 2 + q;
    match f {
        Format::If1 | Format::If2 => v * 8,
        Format::Storage => v * 4,
    }
}

// Writes a frame whose header is within one octet. Here and below no struct holds what `Writable` asks: it asks of the output
// too, which is lent to be written.
fn write_short(f: Format, h: FrameHeader, src: &[u8], from: usize, out: &mut [u8])
    requires { Writable (format_of f) h src.now from out.old × (carries_modes (format_of f) h.frame_type ≡ false) }
    ensures { out.new ≡ layout (format_of f) (run_frame h src.now from) ++ drop (octets (format_of f) h.frame_type) out.old }
{
    let t = usize::from(h.frame_type);
    out[0] = first_octet(f, h.frame_type, h.quality);
    bits::put_run(src, from, core_bits(t), out, header_bits(f, t));
}

// Writes the three header octets of an IF1 frame of types 0 to 9 whose core is there. The CRC is taken from the core where it has been put,
// since there it begins an octet.
pub fn put_modes(h: FrameHeader, out: &mut [u8])
    requires { (carries_modes if1 h.frame_type ≡ true) × (h.quality < 2) × (h.indication < 16) × (h.request < 16) × (octets if1 h.frame_type ≤ length out.old) }
    ensures { (front rest : List ℕ) (core : List Bool) → length front ≡ 3 → length core ≡ core_bits h.frame_type → out.old ≡ front ++ (pack core ++ rest) → out.new ≡ layout if1 (frame_with h core) ++ rest }
{
    let crc = parity::crc_of(&out[IF1_CORE_AT..], class_a(usize::from(h.frame_type)));
    out[0] = first_octet(Format::If1, h.frame_type, h.quality);
    out[1] = h.indication * 16 + h.request;
    out[2] = crc;
}

// Writes an IF1 frame of types 0 to 9. `pub` for Up.
pub fn write_modes(h: FrameHeader, src: &[u8], from: usize, out: &mut [u8])
    requires { Writable if1 h src.now from out.old × (carries_modes if1 h.frame_type ≡ true) }
    ensures { out.new ≡ layout if1 (run_frame h src.now from) ++ drop (octets if1 h.frame_type) out.old }
{
    bits::put_run(
        src,
        from,
        core_bits(usize::from(h.frame_type)),
        out,
        CORE_BIT,
    );
    put_modes(h, out);
}

// Writes the frame of the header `h` whose core stands in `src` from bit `from` on.
pub fn write_frame(f: Format, h: FrameHeader, src: &[u8], from: usize, out: &mut [u8])
    requires { Writable (format_of f) h src.now from out.old }
    ensures { out.new ≡ layout (format_of f) (run_frame h src.now from) ++ drop (octets (format_of f) h.frame_type) out.old }
{
    if carries_modes(f, usize::from(h.frame_type)) {
        write_modes(h, src, from, out);
    } else {
        write_short(f, h, src, from, out);
    }
}
