// The link to a radio network as document 01 and TS 26.202 define it: its state by value, FQC, what each call answers, in specs/, and what
// is claimed of the calls, each theorem as the contract of a function that computes nothing. The crates of the link's calls stand above it.
#![tactic(auto)]

ghost use Rattle.std.specs.Prelude.{◌≡◌, leb};
ghost use Rattle.definitions.specs.Outcome.{ok, unless};
ghost use Rattle.links.specs.Answers.{fqc_number, numbered_of};
ghost use Rattle.links.specs.Calls.{fresh_link};
ghost use Rattle.links.specs.History.{link_step, Remembers};
ghost use Rattle.links.specs.UpAndDown.{AnswersByRule};
ghost use Rattle.links.specs.ThereAndBack.{ThereAndBack};
ghost use Rattle.links.specs.Refusals.{RefusesLink};
ghost use Rattle.links.specs.WrongLinks.{WrongLinks};

use frame::Refusal;

// How many combinations a set has at most.
pub const PLACES: usize = 11;

// No request has been forwarded: RFC 4867's number for no mode request. No Option: C holds the state.
pub const NO_REQUEST: u16 = 15;

// FQC, the quality that goes with the sub-flows of a frame, by document 01's numbers. Up refuses the reserved one behind the set's test.
#[derive(Clone, Copy, Default, PartialEq, Eq)]
pub enum Fqc {
    #[default]
    Good = 0,
    Bad = 1,
    BadRadio = 2,
    Reserved = 3,
}

// A RAB sub-flow combination (RFC), document 01's row: the frames of one type, and the bits of each sub-flow.
#[repr(C)]
#[derive(Clone, Copy, Default)]
pub struct Combination {
    pub rfci: u8,
    pub frame_type: u8,
    pub size1: u16,
    pub size2: u16,
    pub size3: u16,
}

// An RFC set (RFCS): the combinations in its first `count` places. No set is one without any. No slice and no Option: C holds the state.
#[repr(C)]
#[derive(Clone, Copy, Default)]
pub struct RfcSet {
    pub places: [Combination; PLACES],
    pub count: u32,
}

// A link's state: the set, the stored request (CMR), and the request that was last forwarded. It takes 96 octets, a multiple of 16: a 92-octet copy
// ends in an overlapping store, which stalls the next load.
#[repr(C)]
#[derive(Clone, Copy)]
pub struct Link {
    pub set: RfcSet,
    pub request: u16,
    pub forwarded: u16,
}

impl TryFrom<u64> for Fqc {
    type Error = Refusal;

    ghost try_from_gives = { λ n r. numbered_of r ≡ unless 11 (leb n 3) (ok n) };

    fn try_from(n: u64) -> Result<Fqc, Refusal> {
        match n {
            0 => Ok(Fqc::Good),
            1 => Ok(Fqc::Bad),
            2 => Ok(Fqc::BadRadio),
            3 => Ok(Fqc::Reserved),
            _ => Err(Refusal::ArgumentRange),
        }
    }
}

impl From<Fqc> for u64 {
    ghost from_gives = { λ q n. n ≡ fqc_number q };

    fn from(q: Fqc) -> u64 {
        // A cast alone reads a discriminant.
        q as u64
    }
}

// Does nothing. Its contract: after any list of calls from a fresh link the state is what the accepted calls said; a refused call leaves
// it; and Assign, Release and Rate command are accepted exactly where no refusal has its reason.
pub fn history_claim()
    ensures { Remembers fresh_link link_step }
{}

// Does nothing. Its contract: after any list of calls from a fresh link, what Up writes has the request of the last accepted rate command,
// and Down says that a request is forwarded, and which, exactly where it is unlike the last one that it said.
pub fn answers_claim()
    ensures { AnswersByRule fresh_link link_step }
{}

// Does nothing. Its contract: wrong links do not meet these claims: one that keeps its first request, one that keeps the first that it
// forwarded, one that records and does not say so, one that answers 15 for 11, and others.
pub fn wrong_links_claim()
    ensures { WrongLinks }
{}

// Does nothing. Its contract: Up joins what Down split, and Down splits what Up joined, for any sizes.
pub fn there_and_back_claim()
    ensures { ThereAndBack link_step }
{}

// Does nothing. Its contract: in any state each call is refused by the first number whose condition holds, and by no other; and with FQC 1
// an Up that is not refused writes a frame of type 15 and quality 0, whatever the sub-flows are.
pub fn refusals_claim()
    ensures { RefusesLink link_step }
{}
