// Up: three sub-flows joined into an IF1 frame. `up` is an entry.
#![tactic(auto)]

ghost use Rattle.std.specs.Prelude.{◌≡◌, Bool, List, ◌++◌, ℕ, ◌+◌, ◌*◌, ◌^◌, ◌<◌, ◌≤◌, length, take, drop};
ghost use Rattle.bits.specs.Bits.{bits, pack, octets_for};
ghost use Rattle.links.specs.Calls.{joined, up_frame, frame_written, up_call};
ghost use Rattle.uplink_judge.specs.Judging.{HasCore};
ghost use Rattle.frame_builder.specs.Output.{IntoOutput};
ghost use Rattle.uplink.specs.Subflows.{Joinable};

use combinations::NO_DATA;
use frame::table::core_octets;
use frame::{Format, FrameHeader, IF1_CORE_AT, Refusal, indication_of};
use frame_builder::{build, core_fields_good};
use frame_writer::write_modes;
use links::{Combination, Link};
use uplink_judge::{SubflowOctets, judge, quality_of};

// The octets of the longest core. There is no heap: a core is a buffer of so many octets, with its count beside it.
const CORE_MOST: usize = 60;

// Puts a sub-flow behind the first `at` bits of a core, behind which there is nothing but the filling. Most third sub-flows have no bits.
fn append(s: &[u8], size: u16, core: &mut [u8], at: usize)
    requires { (size ≤ 8 * length s.now) × (at + size ≤ 8 * length core.old) × (at < 2 ^ 31) }
    ensures { (x : List Bool) (d : List ℕ) → length x ≡ at → core.old ≡ pack x ++ drop (octets_for at) d → core.new ≡ pack (x ++ take size (bits s.now)) ++ drop (octets_for (at + size)) d }
{
    if 0 < size {
        bits::put_run(s, 0, usize::from(size), core, at);
    }
}

// Puts the sub-flows one behind the other.
fn join(c: Combination, s: SubflowOctets<'_>, core: &mut [u8])
    requires { Joinable c s.s1.now s.s2.now s.s3.now core.old }
    ensures { core.new ≡ pack (joined c s.entry.s1.now s.entry.s2.now s.entry.s3.now) ++ drop (octets_for (c.size1 + c.size2 + c.size3)) core.old }
{
    let n1 = usize::from(c.size1);
    let n2 = usize::from(c.size2);
    append(s.s1, c.size1, core, 0);
    append(s.s2, c.size2, core, n1);
    append(s.s3, c.size3, core, n1 + n2);
}

// Makes the frame of types 0 to 9 of sub-flows that are right: joined, judged and written.
fn build_joined(
    request: u16,
    fqc: u64,
    c: Combination,
    s: SubflowOctets<'_>,
    out: &mut [u8],
) -> Result<usize, Refusal>
    requires { HasCore c s.s1.now s.s2.now s.s3.now }
    ensures { IntoOutput (frame_written (up_frame request fqc c s.entry.s1.now s.entry.s2.now s.entry.s3.now) (length out.old)) out.old out.new result }
{
    let mut core = [0u8; CORE_MOST];
    join(c, s, &mut core);
    let t = c.frame_type;
    let m = core_octets(usize::from(t));
    let i = indication_of(t);
    if !core_fields_good(
        Format::If1,
        u64::from(t),
        u64::from(i),
        u64::from(request),
        &core[..m],
    ) {
        return Err(Refusal::FieldRange);
    }
    let n = IF1_CORE_AT + m;
    if out.len() < n {
        return Err(Refusal::OutputShort);
    }
    let h = FrameHeader {
        frame_type: t,
        quality: quality_of(fqc),
        indication: i,
        // At most 8, as judged: `try_from` would add a test, and an error that cannot occur.
        request: request as u8,
    };
    write_modes(h, &core, 0, out);
    Ok(n)
}

// Makes an IF1 frame of three sub-flows, by FQC and RFCI. An entry. The state is handed in by value and none comes back, as it stays the
// same. Link, FQC, RFCI and sub-flows are separate arguments, as C has them.
pub fn up(
    link: Link,
    fqc: u64,
    rfci: u64,
    s: SubflowOctets<'_>,
    out: &mut [u8],
) -> Result<usize, Refusal>
    ensures { IntoOutput (up_call link fqc rfci s.entry.s1.now s.entry.s2.now s.entry.s3.now (length out.old)) out.old out.new result }
{
    match judge(link, fqc, rfci, s)? {
        Some(c) => build_joined(link.request, fqc, c, s, out),
        None => {
            let quality = u64::from(quality_of(fqc));
            build(Format::If1, NO_DATA, quality, 0, 0, &[], out)
        }
    }
}
