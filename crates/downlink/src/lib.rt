// Down: an IF1 frame split into three sub-flows. `down` is an entry; `split_frame` and `forwarded_after` are `pub` for level three.
#![tactic(auto)]

ghost use Rattle.std.specs.Prelude.{◌≡◌, ◌≤◌, length};
ghost use Rattle.bits.specs.Bits.{bits};
ghost use Rattle.definitions.specs.Frames.{if1, octets, core_in};
ghost use Rattle.frame.specs.Answers.{frame_with};
ghost use Rattle.links.specs.declared.Link.{Link};
ghost use Rattle.links.specs.Calls.{link_by, down_frame, down_call};
ghost use Rattle.downlink.specs.Answers.{down_of, next_link, SplitInto, DownInto};

use combinations::lookup_type;
use downlink_flows::{Subflows, is_roomy, put_subflows, subflows_of};
use frame::table::header_bits;
use frame::{Format, FrameHeader, Refusal};
use frame_reader::read_if1;
use links::Link;

// What Down answers, and the state after the call.
#[derive(Clone, Copy)]
pub struct Answered {
    pub answer: Result<Subflows, Refusal>,
    pub link: Link,
}

// Splits a frame that was read, with the header `h`.
fn split_read(
    link: &Link,
    h: FrameHeader,
    frame: &[u8],
    s1: &mut [u8],
    s2: &mut [u8],
    s3: &mut [u8],
) -> Result<Subflows, Refusal>
    requires { octets if1 h.frame_type ≤ length frame.now }
    ensures { SplitInto (down_frame link.now (frame_with h (core_in if1 h.frame_type (bits frame.now))) (length s1.old) (length s2.old) (length s3.old)) s1.old s1.new s2.old s2.new s3.old s3.new result }
{
    let c = lookup_type(&link.set, h.frame_type).ok_or(Refusal::NotInSet)?;
    if !is_roomy(c, s1.len(), s2.len(), s3.len()) {
        return Err(Refusal::OutputShort);
    }
    put_subflows(
        c,
        frame,
        header_bits(Format::If1, usize::from(h.frame_type)),
        s1,
        s2,
        s3,
    );
    Ok(subflows_of(h, link.forwarded, c))
}

// Splits an IF1 frame into the sub-flows of its type's combination. `pub` for level three, which makes the state after the call itself:
// passing the state through costs a copy.
#[tactic(auto, using(std::proofs::lemmas::Bool::Decides::nat_tests), unfolding(links::specs::Calls::down_call))]
pub fn split_frame(
    link: Link,
    frame: &[u8],
    s1: &mut [u8],
    s2: &mut [u8],
    s3: &mut [u8],
) -> Result<Subflows, Refusal>
    ensures { SplitInto (down_call link frame.now (length s1.old) (length s2.old) (length s3.old)) s1.old s1.new s2.old s2.new s3.old s3.new result }
{
    if link.set.count == 0 {
        return Err(Refusal::NoSet);
    }
    let (h, _) = read_if1(frame)?;
    split_read(&link, h, frame, s1, s2, s3)
}

// The last request forwarded after an answer. `pub` for level three.
pub fn forwarded_after(last: u16, d: Result<Subflows, Refusal>) -> u16
    ensures { (l : Link) → l.forwarded ≡ last → link_by l.set l.request result ≡ next_link (down_of d) l }
{
    match d {
        Ok(s) => s.forward.map_or(last, u16::from),
        Err(_) => last,
    }
}

// Splits an IF1 frame, and records a request that is forwarded. An entry.
pub fn down(link: Link, frame: &[u8], s1: &mut [u8], s2: &mut [u8], s3: &mut [u8]) -> Answered
    ensures { DownInto (down_call link frame.now (length s1.old) (length s2.old) (length s3.old)) link s1.old s1.new s2.old s2.new s3.old s3.new result }
{
    let answer = split_frame(link, frame, s1, s2, s3);
    let forwarded = forwarded_after(link.forwarded, answer);
    Answered {
        answer,
        link: Link { forwarded, ..link },
    }
}
