// A round trip, two calls of the conversion over plain slices: demand 3's claim about round trips as the contract of code that runs.
#![tactic(auto)]

ghost use Rattle.round_trip.specs.Trip.{MakesTrip};

use converter::convert;
use recording_reader::{Counts, RefusedAt};

// Converts `s` into `mid`, and what was written there back into `out`; the answer is the second call's, or the first's refusal.
pub fn round_trip(
    from: u64,
    to: u64,
    request: u64,
    s: &[u8],
    mid: &mut [u8],
    out: &mut [u8],
) -> Result<Counts, RefusedAt>
    ensures { MakesTrip from to request s.now mid.old mid.new out.old out.new result }
{
    let written = convert(from, to, request, s, mid)?;
    convert(to, from, request, &mid[..written.octets], out)
}
