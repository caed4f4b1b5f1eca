// The answers of the link's calls as numbers (include/amrwb.h), as specs/Flat.antt says. For level three.
#![tactic(auto)]

ghost use Rattle.std.specs.Prelude.{◌≡◌};
ghost use Rattle.link_state.specs.Answers.{moved_of};
ghost use Rattle.downlink.specs.Answers.{down_of};
ghost use Rattle.link_answers.specs.Flat.{link_numbers, down_numbers};
ghost use Rattle.link_answers.specs.Claims.{DownLentOctets};

use downlink::Answered;
use frame::Refusal;
use links::Link;

// Whether a call that changes the state was accepted, and the state after it. C fixes the layout, here and below.
#[repr(C)]
#[derive(Clone, Copy)]
pub struct LinkAnswer {
    pub refusal: u64,
    pub frame: u64,
    pub octet: u64,
    pub link: Link,
}

// What Down says of a frame, and the state after it; or a refusal.
#[repr(C)]
#[derive(Clone, Copy)]
pub struct DownNumbers {
    pub refusal: u64,
    pub frame: u64,
    pub octet: u64,
    pub fqc: u64,
    pub rfci: u64,
    pub n1: u64,
    pub n2: u64,
    pub n3: u64,
    pub forwarded: u64,
    pub request: u64,
    pub link: Link,
}

// The answer of a call that changes the state `link`: the state after it is the answer's, or after a refusal `link`. No From, which takes
// one value: this is made of two, the state before the call and the answer.
pub fn moved_answer(link: Link, r: Result<Link, Refusal>) -> LinkAnswer
    ensures { result ≡ link_numbers (moved_of link r) }
{
    LinkAnswer {
        refusal: r.err().map_or(0, u64::from),
        frame: 0,
        octet: 0,
        link: r.unwrap_or(link),
    }
}

// Casts: between usize and u64 there is no From; both have 64 bits, so none loses any.
impl From<Answered> for DownNumbers {
    ghost from_gives = { λ d n. n ≡ down_numbers (down_of d.answer) d.link };

    fn from(d: Answered) -> DownNumbers {
        let s = d.answer.unwrap_or_default();
        DownNumbers {
            refusal: d.answer.err().map_or(0, u64::from),
            frame: 0,
            octet: 0,
            fqc: u64::from(s.fqc),
            rfci: u64::from(s.rfci),
            n1: s.octets1 as u64,
            n2: s.octets2 as u64,
            n3: s.octets3 as u64,
            forwarded: u64::from(s.forward.is_some()),
            request: s.forward.map_or(0, u64::from),
            link: d.link,
        }
    }
}

// Does nothing. Its contract: demand 1 at the C interface, of Down. A refused call leaves every lent octet and the state, and another writes the
// front of each buffer alone.
pub fn lent_octets_claim()
    ensures { DownLentOctets }
{}
