// What Down writes into the three sub-flows and says of a frame. What is `pub` is for the crates of Down and of the
// link's answers: none is an entry.
#![tactic(auto)]

ghost use Rattle.std.specs.Prelude.{◌≡◌, Bool, true, cond, List, ◌++◌, ◌+◌, ◌*◌, ◌^◌, ◌<◌, ◌≤◌, eqb, length, take, drop};
ghost use Rattle.bits.specs.Bits.{bits, pack, octets_for};
ghost use Rattle.frame.specs.Answers.{frame_with};
ghost use Rattle.links.specs.declared.Link.{Link};
ghost use Rattle.links.specs.Calls.{nothing, request, forwards, split, roomy};
ghost use Rattle.downlink_flows.specs.Answers.{forward_of, subflows_of, numbers, SubflowsPut};

use frame::{FrameHeader, SID};
use links::Combination;

// What Down says of a frame: FQC, RFCI, the octets of each sub-flow, and the request that is forwarded, if one is.
#[derive(Clone, Copy, Default)]
pub struct Subflows {
    pub fqc: u8,
    pub rfci: u8,
    pub octets1: usize,
    pub octets2: usize,
    pub octets3: usize,
    pub forward: Option<u8>,
}

// The octets of a sub-flow.
fn octets_for(size: u16) -> usize
    ensures { result ≡ octets_for size }
{
    usize::from(size).div_ceil(8)
}

// The buffers have room.
pub fn is_roomy(c: Combination, n1: usize, n2: usize, n3: usize) -> bool
    ensures { result ≡ roomy c n1 n2 n3 }
{
    octets_for(c.size1) <= n1 && octets_for(c.size2) <= n2 && octets_for(c.size3) <= n3
}

// FQC of a quality: 0 good, 1 bad.
fn fqc_of(quality: u8) -> u8
    ensures { result ≡ cond (eqb quality 1) 0 1 }
{
    if quality == 1 { 0 } else { 1 }
}

// Puts the bits of `frame` from index `from` on into the front of a sub-flow's buffer. Most third sub-flows have no bits.
// Not one function with Up's `append`, which puts its run behind others: the test of no bits is all that the two share.
fn put_subflow(frame: &[u8], from: usize, size: u16, s: &mut [u8])
    requires { (from + size ≤ 8 * length frame.now) × (size ≤ 8 * length s.old) × (from + size < 2 ^ 32) }
    ensures { s.new ≡ pack (take size (drop from (bits frame.now))) ++ drop (octets_for size) s.old }
{
    if 0 < size {
        bits::put_run(frame, from, usize::from(size), s, 0);
    }
}

// Splits the core that begins at bit `from` of `frame`. Sub-flow 3 starts at size 1 + size 2.
// Three buffers are three arguments: a contract names the fields of a struct of `&mut` after the call by position only, as `b.exit.1.1.0`.
pub fn put_subflows(
    c: Combination,
    frame: &[u8],
    from: usize,
    s1: &mut [u8],
    s2: &mut [u8],
    s3: &mut [u8],
)
    requires { (from ≤ 24) × (from + c.size1 + c.size2 + c.size3 ≤ 8 * length frame.now) × (roomy c (length s1.old) (length s2.old) (length s3.old) ≡ true) }
    ensures { SubflowsPut c (drop from (bits frame.now)) s1.old s1.new s2.old s2.new s3.old s3.new }
{
    let second = from + usize::from(c.size1);
    let third = second + usize::from(c.size2);
    put_subflow(frame, from, c.size1, s1);
    put_subflow(frame, second, c.size2, s2);
    put_subflow(frame, third, c.size3, s3);
}

// The request that is forwarded, if one is.
fn forward_of(h: FrameHeader, last: u16) -> Option<u8>
    ensures { (core : List Bool) → forward_of result ≡ cond (forwards last (frame_with h core)) (request h.request) nothing }
{
    let is_forwarded = u64::from(h.frame_type) <= SID && u16::from(h.request) != last;
    is_forwarded.then_some(h.request)
}

// What is said of a frame with the combination of its type.
pub fn subflows_of(h: FrameHeader, last: u16, c: Combination) -> Subflows
    ensures { (l : Link) (core : List Bool) → l.forwarded ≡ last → length core ≡ c.size1 + c.size2 + c.size3 → subflows_of result ≡ numbers (split l c (frame_with h core)) }
{
    Subflows {
        fqc: fqc_of(h.quality),
        rfci: c.rfci,
        octets1: octets_for(c.size1),
        octets2: octets_for(c.size2),
        octets3: octets_for(c.size3),
        forward: forward_of(h, last),
    }
}
