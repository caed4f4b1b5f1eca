// Building one frame: judged first, then written. `build` is an entry.
#![tactic(auto)]

ghost use Rattle.std.specs.Prelude.{◌≡◌, ℕ, ◌-◌, ◌*◌, ◌<◌, length, drop};
ghost use Rattle.bits.specs.Bits.{bits, octets_for, clear};
ghost use Rattle.definitions.specs.Frames.{frame_by, core_bits, fields_good};
ghost use Rattle.definitions.specs.Reading.{buffer_core, build_check, build_frame};
ghost use Rattle.frame.specs.Answers.{format_of, reading_of};
ghost use Rattle.frame_builder.specs.Output.{IntoOutput};

use frame::fields::fields_good;
use frame::table::{core_bits, octets_known};
use frame::{Format, FrameHeader, Refusal, SID, SID_MODE_AT};
use frame_writer::write_frame;

// The filling bits of a packed core are 0. `pub` for the crates of codec order and of Up.
pub fn core_fill_clear(core: &[u8], k: usize) -> bool
    requires { (length core.now ≡ octets_for k) × (k < 65536) }
    ensures { result ≡ clear (8 * length core.now - k) (drop k (bits core.now)) }
{
    let n = core.len();
    n == 0 || bits::low_bits(core, n, 8 * n - k) == 0
}

// Refusal 6's test of a frame to be built. `pub` for Up. Not one function with frame_tests' `header_good`, which finds the SID mode in a frame.
pub fn core_fields_good(f: Format, t: u64, i: u64, r: u64, core: &[u8]) -> bool
    requires { length core.now ≡ octets_for (core_bits t) }
    ensures { (q : ℕ) → result ≡ fields_good (format_of f) (frame_by t q i r (buffer_core core.now t)) }
{
    let mode = if t == SID {
        bits::field_at(core, SID_MODE_AT, 4)
    } else {
        0
    };
    fields_good(f, t, i, r, u64::from(mode))
}

// The tests of a building call, in document 01's order. Its numbers are no header before they are judged, and then the casts lose nothing.
#[tactic(auto, unfolding(definitions::specs::Reading::build_check))]
fn judge(
    f: Format,
    t: u64,
    q: u64,
    i: u64,
    r: u64,
    core: &[u8],
    room: usize,
) -> Result<(FrameHeader, usize), Refusal>
    ensures { reading_of (buffer_core core.now) result ≡ build_check (format_of f) t q i r core.now room }
{
    if 15 < t || 1 < q {
        return Err(Refusal::ArgumentRange);
    }
    let n = octets_known(f, t as usize)?;
    let k = core_bits(t as usize);
    if core.len() != k.div_ceil(8) {
        return Err(Refusal::ArgumentRange);
    }
    if !core_fill_clear(core, k) {
        return Err(Refusal::SpareBit);
    }
    if !core_fields_good(f, t, i, r, core) {
        return Err(Refusal::FieldRange);
    }
    if room < n {
        return Err(Refusal::OutputShort);
    }
    let h = FrameHeader {
        frame_type: t as u8,
        quality: q as u8,
        indication: i as u8,
        request: r as u8,
    };
    Ok((h, n))
}

// Builds a frame from its fields and packed core: how many octets it takes. An entry.
pub fn build(
    f: Format,
    t: u64,
    q: u64,
    i: u64,
    r: u64,
    core: &[u8],
    out: &mut [u8],
) -> Result<usize, Refusal>
    ensures { IntoOutput (build_frame (format_of f) t q i r core.now (length out.old)) out.old out.new result }
{
    let (h, n) = judge(f, t, q, i, r, core, out.len())?;
    write_frame(f, h, core, 0, out);
    Ok(n)
}
