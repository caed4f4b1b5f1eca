// Writing a recording that was read, in the same format or another. `write_recording` is `pub` for converter: nothing here is an entry.
#![tactic(auto)]

ghost use Rattle.std.specs.Prelude.{◌≡◌, ◌≢◌, List};
ghost use Rattle.definitions.specs.Frames.{Frame};
ghost use Rattle.definitions.specs.Reading.{overwritten};
ghost use Rattle.recordings.specs.Conversion.{converted};
ghost use Rattle.frame.specs.Answers.{format_of};
ghost use Rattle.recording_writer.specs.Output.{Convertible};

use bits::copy;
use frame::table::octets_by_bits;
pub use frame_carrier::Conversion;
use frame_carrier::carry_frame;
use frame_tests::type_in;
use recording_reader::{FILE_HEADER, header_octets};

// Writes the frames of `s` in another format, a frame at a time.
fn write_frames(c: Conversion, s: &[u8], out: &mut [u8])
    requires { (format_of c.from ≢ format_of c.to) × ((xs : List Frame) × Convertible (format_of c.from) (format_of c.to) c.request s.now xs out.old) }
    ensures { (xs : List Frame) → Convertible (format_of c.from) (format_of c.to) c.request s.now xs out.old → out.new ≡ overwritten (converted (format_of c.from) (format_of c.to) c.request xs) out.old }
{
    let mut at = header_octets(c.from);
    let mut to = header_octets(c.to);
    // Towards IF1 and IF2 this copies nothing.
    copy(&mut out[..to], &FILE_HEADER[..to]);
    // A while: both places move by whole frames. An iterator over the frames would hold the first alone, and the invariant is about both.
    while at < s.len() {
        let front = &s[at..];
        let t = usize::from(type_in(c.from, front));
        carry_frame(c, front, &mut out[to..]);
        at += octets_by_bits(c.from, t);
        to += octets_by_bits(c.to, t);
    }
}

// Writes a recording that was read; one that keeps its format is copied. Not inlined: within an export the compiler no longer knows that the two
// buffers do not overlap, and the copies take more time.
#[inline(never)]
pub fn write_recording(c: Conversion, s: &[u8], out: &mut [u8])
    requires { (xs : List Frame) × Convertible (format_of c.from) (format_of c.to) c.request s.now xs out.old }
    ensures { (xs : List Frame) → Convertible (format_of c.from) (format_of c.to) c.request s.now xs out.old → out.new ≡ overwritten (converted (format_of c.from) (format_of c.to) c.request xs) out.old }
{
    if c.from == c.to {
        copy(&mut out[..s.len()], s);
    } else {
        write_frames(c, s, out);
    }
}
