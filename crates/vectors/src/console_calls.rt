// Eight consoles that share one adapter (document 02, m): a list of calls, each with its answer and the state after it, which each function here
// answers too.
use consoles_spec::Consoles;
use std::io::Result;

// How many frames wait at a console at most.
const MOST_WAITING: usize = 100;

fn print_state(rt: &impl Print, consoles: Consoles) -> Result<Consoles> {
    print!(rt; " waiting")?;
    for count in &consoles.waiting {
        print!(rt; " {count}")?;
    }
    println!(rt; " next {}", consoles.next)?;
    Ok(consoles)
}

fn print_add(rt: &impl Print, before: Consoles, console: u64) -> Result<Consoles> {
    let a = level_three::amrwb_consoles_add(before, console);
    print!(rt; "consoles add {console} refusal {}", a.refusal)?;
    print_state(rt, a.consoles)
}

fn print_slot(rt: &impl Print, before: Consoles) -> Result<Consoles> {
    let a = level_three::amrwb_consoles_slot(before);
    print!(rt; "consoles slot served {} console {}", a.served, a.console)?;
    print_state(rt, a.consoles)
}

// So many slots, one after another.
fn print_slots(rt: &impl Print, before: Consoles, slots: usize) -> Result<Consoles> {
    let mut consoles = before;
    for _ in 0..slots {
        consoles = print_slot(rt, consoles)?;
    }
    Ok(consoles)
}

// So many frames of a console taken in, and nothing printed.
fn added(before: Consoles, console: u64, frames: usize) -> Consoles {
    let mut consoles = before;
    for _ in 0..frames {
        consoles = level_three::amrwb_consoles_add(consoles, console).consoles;
    }
    consoles
}

// From console 0 on, around the ring; a slot with nobody waiting leaves the turn.
fn print_turns(rt: &impl Print) -> Result<Consoles> {
    let mut consoles = print_slot(rt, level_three::amrwb_consoles_fresh())?;
    for console in &[7, 0, 3, 0] {
        consoles = print_add(rt, consoles, *console)?;
    }
    print_slots(rt, consoles, 5)
}

// The ring, and a slot with nobody waiting; numbers out of their range; the 100th and the 101st frame of a console.
pub fn print_calls(rt: &impl Print) -> Result<()> {
    let turns = print_turns(rt)?;
    let out_of_range = print_add(rt, print_add(rt, turns, 8)?, 257)?;
    let one_short = added(out_of_range, 1, MOST_WAITING - 1);
    let full = print_add(rt, one_short, 1)?;
    let refused = print_add(rt, full, 1)?;
    let served = print_slots(rt, refused, 2)?;
    print_add(rt, served, 1)?;
    Ok(())
}
