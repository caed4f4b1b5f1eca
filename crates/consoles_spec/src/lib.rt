// Eight consoles that share one adapter: their state, by value. What each call answers is defined in specs/, and each claim about the calls is the
// contract of a function that computes nothing. The crate of the calls stands above it.
#![tactic(auto)]

ghost use Rattle.consoles_spec.specs.Calls.{fresh_consoles, consoles_step};
ghost use Rattle.consoles_spec.specs.Claims.{KeepsCount, RoundRobin, RefusesConsoles, ConsolesAgree};
ghost use Rattle.consoles_spec.specs.WrongConsoles.{WrongConsoles};

// How many consoles there are.
pub const CONSOLES: usize = 8;

// How many frames wait at a console at most.
pub const MOST_WAITING: u8 = 100;

// How many frames wait at each console, and the console at which the next search starts. C fixes the layout.
#[repr(C)]
#[derive(Clone, Copy)]
pub struct Consoles {
    pub waiting: [u8; CONSOLES],
    pub next: u8,
}

// Does nothing. Its contract: after any list of calls from a fresh state, frames taken in equal frames served plus frames waiting, for each
// console, and never more than 100 wait at one.
pub fn count_claim()
    ensures { KeepsCount fresh_consoles consoles_step }
{}

// Does nothing. Its contract: the turn goes around the ring, and a console with a frame waiting is served within eight slots.
pub fn round_robin_claim()
    ensures { RoundRobin fresh_consoles consoles_step }
{}

// Does nothing. Its contract: in any state an add is refused exactly on the condition of 11 or 27, and else taken in, and a slot serves a console
// with a frame waiting, if one is there; a refused call and a slot with nobody waiting change nothing.
pub fn refusals_claim()
    ensures { RefusesConsoles consoles_step }
{}

// Does nothing. Its contract: two programs that meet these claims give the same replies to any list of calls.
pub fn replies_claim()
    ensures { ConsolesAgree }
{}

// Does nothing. Its contract: wrong programs do not meet the claims: one that always serves the lowest console that waits, one that starts at
// console 0 again after each add, one that moves the turn on at a slot with nobody waiting, one that loses a frame at a full console, and others.
pub fn wrong_consoles_claim()
    ensures { WrongConsoles }
{}
