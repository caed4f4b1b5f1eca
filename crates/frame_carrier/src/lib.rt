// Carrying a valid frame over to another format, as the conversion does it: its core is moved, and the octets in front of it are written.
// `Conversion` and `carry_frame` are `pub` for recording_writer and converter.
#![tactic(auto)]

mod conversion;

ghost use Rattle.std.specs.Prelude.{◌≡◌, ◌++◌, drop};
ghost use Rattle.definitions.specs.Frames.{Frame, octets, layout};
ghost use Rattle.recordings.specs.Conversion.{carried};
ghost use Rattle.frame.specs.Answers.{format_of};
ghost use Rattle.core_mover.specs.Carriable.{Carriable};

pub use conversion::Conversion;
use core_mover::{core_at, move_core};
use frame::{Format, FrameHeader, SID, indication_of};
use frame_tests::{quality_in, type_in};
use frame_writer::{first_octet, put_modes};

// Writes the frame that `src` begins with in another format.
pub fn carry_frame(c: Conversion, src: &[u8], out: &mut [u8])
    requires { (x : Frame) × Carriable (format_of c.from) (format_of c.to) src.now x out.old }
    ensures { (x : Frame) → Carriable (format_of c.from) (format_of c.to) src.now x out.old → out.new ≡ layout (format_of c.to) (carried (format_of c.to) (format_of c.from) c.request x) ++ drop (octets (format_of c.to) x.type) out.old }
{
    let t = type_in(c.from, src);
    let q = quality_in(c.from, src);
    let first = first_octet(c.to, t, q);
    // Types 14 and 15 have no core.
    if SID < u64::from(t) {
        out[0] = first;
        return;
    }
    move_core(c.from, c.to, usize::from(t), src, out);
    match c.to {
        Format::If1 => {
            let h = FrameHeader {
                frame_type: t,
                quality: q,
                indication: indication_of(t),
                request: c.request,
            };
            put_modes(h, out);
        }
        Format::If2 => {
            out[0] = first + (src[core_at(c.from)] >> 5);
        }
        Format::Storage => {
            out[0] = first;
        }
    }
}
