// The calls of the consoles: a fresh state, a frame taken in, and a slot; and their answers as numbers (include/amrwb.h), for level two.
#![tactic(auto)]

ghost use Rattle.std.specs.Prelude.{◌≡◌, ◌<◌, ◌≤◌, IfSome};
ghost use Rattle.consoles_spec.specs.Calls.{console_count, waiting_at, fresh_consoles, next_waiting, consoles_step};
ghost use Rattle.consoles_spec.specs.Calls as call;
ghost use Rattle.consoles.specs.Answers.{added_of, served_of};
ghost use Rattle.consoles.specs.Flat.{consoles_numbers};

use consoles_spec::{CONSOLES, Consoles, MOST_WAITING};
use frame::Refusal;

// The console that a slot served, and the state after it.
#[derive(Clone, Copy)]
pub struct Served {
    pub console: u8,
    pub consoles: Consoles,
}

// What a call answers, with the state after it: a refusal, or whether a console was served, and which. C fixes the layout.
#[repr(C)]
#[derive(Clone, Copy)]
pub struct ConsolesAnswer {
    pub refusal: u64,
    pub frame: u64,
    pub octet: u64,
    pub served: u64,
    pub console: u64,
    pub consoles: Consoles,
}

// ---- the calls

// Nothing waits, and the first search starts at console 0. An entry.
pub fn fresh() -> Consoles
    ensures { result ≡ fresh_consoles }
{
    Consoles {
        waiting: [0; CONSOLES],
        next: 0,
    }
}

// Takes in a frame of a console. An entry.
#[tactic(auto, using(std::proofs::lemmas::Bool::Decides::nat_tests), unfolding(consoles_spec::specs::Calls::add_call))]
pub fn add(consoles: Consoles, console: u64) -> Result<Consoles, Refusal>
    ensures { added_of consoles result ≡ consoles_step consoles (call.add console) }
{
    if console >= CONSOLES as u64 {
        return Err(Refusal::ArgumentRange);
    }
    // At most 7: the cast loses nothing.
    let at = console as usize;
    let mut waiting = consoles.waiting;
    if waiting[at] >= MOST_WAITING {
        return Err(Refusal::ConsoleFull);
    }
    waiting[at] += 1;
    Ok(Consoles {
        waiting,
        ..consoles
    })
}

// The first console with a frame waiting, around the ring from where the search starts.
fn next_waiting(consoles: Consoles) -> Option<usize>
    ensures first { result ≡ next_waiting consoles }
    ensures waits { IfSome result (λ c. (c < console_count) × (1 ≤ waiting_at c consoles)) }
{
    let start = usize::from(consoles.next);
    for k in 0..CONSOLES {
        let at = (start + k) % CONSOLES;
        if consoles.waiting[at] > 0 {
            return Some(at);
        }
    }
    None
}

// Serves the next console with a frame waiting. An entry.
pub fn slot(consoles: Consoles) -> Option<Served>
    ensures { served_of consoles result ≡ consoles_step consoles call.slot }
{
    let at = next_waiting(consoles)?;
    let mut waiting = consoles.waiting;
    waiting[at] -= 1;
    // At most 7: the casts lose nothing.
    let next = ((at + 1) % CONSOLES) as u8;
    Some(Served {
        console: at as u8,
        consoles: Consoles { waiting, next },
    })
}

// ---- their answers as numbers

// The answer of an add in the state `consoles`.
pub fn added_answer(consoles: Consoles, r: Result<Consoles, Refusal>) -> ConsolesAnswer
    ensures { result ≡ consoles_numbers (added_of consoles r) }
{
    ConsolesAnswer {
        refusal: r.err().map_or(0, u64::from),
        frame: 0,
        octet: 0,
        served: 0,
        console: 0,
        consoles: r.unwrap_or(consoles),
    }
}

// The answer of a slot in the state `consoles`.
pub fn served_answer(consoles: Consoles, r: Option<Served>) -> ConsolesAnswer
    ensures { result ≡ consoles_numbers (served_of consoles r) }
{
    ConsolesAnswer {
        refusal: 0,
        frame: 0,
        octet: 0,
        served: u64::from(r.is_some()),
        console: r.map_or(0, |s| u64::from(s.console)),
        consoles: r.map_or(consoles, |s| s.consoles),
    }
}
