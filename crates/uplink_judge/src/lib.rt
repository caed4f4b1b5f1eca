// What Up judges before it writes: FQC and RFCI, the combination and the sub-flows. What is `pub` is for the crate of Up: none is an entry.
#![tactic(auto)]

ghost use Rattle.std.specs.Prelude.{◌≡◌, cond, ◌<◌, eqb};
ghost use Rattle.links.specs.Answers.{fqc_number};
ghost use Rattle.links.specs.Calls.{subflow_good, subflows_good};
ghost use Rattle.uplink_judge.specs.Judging.{picked, picked_of, Judges};

use combinations::{HIGHEST_RFCI, lookup_rfci};
use frame::{Refusal, SID};
use frame_builder::core_fill_clear;
use links::{Combination, Fqc, Link};

// The octets of the three sub-flows.
#[derive(Clone, Copy)]
pub struct SubflowOctets<'a> {
    pub s1: &'a [u8],
    pub s2: &'a [u8],
    pub s3: &'a [u8],
}

// A sub-flow has exactly its octets, and its filling is 0.
fn subflow_good(s: &[u8], size: u16) -> bool
    ensures { result ≡ subflow_good size s.now }
{
    let n = usize::from(size);
    s.len() == n.div_ceil(8) && core_fill_clear(s, n)
}

fn subflows_good(c: Combination, s: SubflowOctets<'_>) -> bool
    ensures { result ≡ subflows_good c s.entry.s1.now s.entry.s2.now s.entry.s3.now }
{
    subflow_good(s.s1, c.size1) && subflow_good(s.s2, c.size2) && subflow_good(s.s3, c.size3)
}

// The quality that an FQC gives.
pub fn quality_of(fqc: u64) -> u8
    ensures { (result ≡ cond (eqb fqc 0) 1 0) × (result < 2) }
{
    u8::from(fqc == u64::from(Fqc::Good))
}

// The combination of an RFCI, or why Up is refused before a sub-flow is read.
#[tactic(auto, using(std::proofs::lemmas::Bool::Decides::nat_tests), unfolding(crate::specs::Judging::picked))]
fn pick(link: &Link, fqc: Fqc, rfci: u64) -> Result<Combination, Refusal>
    ensures { picked_of result ≡ picked link.now (fqc_number fqc) rfci }
{
    if HIGHEST_RFCI < rfci {
        return Err(Refusal::ArgumentRange);
    }
    if link.set.count == 0 {
        return Err(Refusal::NoSet);
    }
    if fqc == Fqc::Reserved {
        return Err(Refusal::FqcReserved);
    }
    // At most 63 behind the first test, so the cast loses nothing: `try_from` would add a test, and an error that cannot occur.
    lookup_rfci(&link.set, rfci as u8).ok_or(Refusal::NotInSet)
}

// What Up is to write. Some: the frame of a combination that has a core. None: a frame of type 15 with the FQC's quality. Of a bad frame
// no sub-flow is read. A function of its own: behind many early returns the compiler treats a call as cold and does not inline it.
pub fn judge(
    link: Link,
    fqc: u64,
    rfci: u64,
    s: SubflowOctets<'_>,
) -> Result<Option<Combination>, Refusal>
    ensures { Judges link fqc rfci s.entry.s1.now s.entry.s2.now s.entry.s3.now result }
{
    let q = Fqc::try_from(fqc)?;
    let c = pick(&link, q, rfci)?;
    if q == Fqc::Bad {
        return Ok(None);
    }
    if !subflows_good(c, s) {
        return Err(Refusal::SubflowBuffer);
    }
    let has_core = u64::from(c.frame_type) <= SID;
    Ok(has_core.then_some(c))
}
