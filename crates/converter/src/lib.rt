// Converting a recording among the three formats: everything is read, and only then written. `convert` and `convert_length` are entries: formats and
// request are numbers there, as a call hands them in, and a `Conversion` behind them.
#![tactic(auto)]

ghost use Rattle.std.specs.Prelude.{◌≡◌, ℕ, length};
ghost use Rattle.recordings.specs.Conversion.{conversion, counted_at, convert_call, length_call};
ghost use Rattle.frame.specs.Answers.{format_of};
ghost use Rattle.recording_reader.specs.Answers.{counts_of};
ghost use Rattle.converter.specs.Output.{IntoBuffer};

use frame::Refusal;
use recording_reader::{Counts, LIMIT, RefusedAt, read_all};
use recording_writer::{Conversion, write_recording};

// Frames, and the octets that a conversion writes: what is judged before the output's room.
fn measure(c: Conversion, s: &[u8]) -> Result<Counts, RefusedAt>
    ensures { (r : ℕ) → counts_of result ≡ counted_at (conversion (format_of c.from) (format_of c.to) r s.now) }
{
    let counts = read_all(c.from, c.to, s)?;
    if LIMIT < counts.octets {
        return Err(Refusal::TooLong.into());
    }
    Ok(counts)
}

// Answers how many octets a conversion would write. An entry.
pub fn convert_length(from: u64, to: u64, request: u64, s: &[u8]) -> Result<Counts, RefusedAt>
    ensures { counts_of result ≡ length_call from to request s.now }
{
    let c = Conversion::new(from, to, request)?;
    measure(c, s)
}

// Converts a recording into the output buffer. An entry.
pub fn convert(
    from: u64,
    to: u64,
    request: u64,
    s: &[u8],
    out: &mut [u8],
) -> Result<Counts, RefusedAt>
    ensures { IntoBuffer (convert_call from to request s.now (length out.old)) out.old out.new result }
{
    let c = Conversion::new(from, to, request)?;
    let counts = measure(c, s)?;
    if out.len() < counts.octets {
        return Err(Refusal::OutputShort.into());
    }
    write_recording(c, s, out);
    Ok(counts)
}
