// The link's state: made, given a set, released and given a request. `fresh`, `assign`, `release` and `rate_command` are entries.
#![tactic(auto)]

ghost use Rattle.std.specs.Prelude.{◌≡◌};
ghost use Rattle.definitions.specs.Outcome.{ok, unless};
ghost use Rattle.links.specs.Sets.{combination_good, unlike};
ghost use Rattle.links.specs.Calls.{fresh_link};
ghost use Rattle.links.specs.History as call;
ghost use Rattle.combinations.specs.Answers.{found_of};
ghost use Rattle.link_state.specs.Answers.{moved_of, five, set_of};

use combinations::combination_good;
use frame::{Refusal, mode_numbered};
use links::{Combination, Link, NO_REQUEST, PLACES, RfcSet};

// How many numbers a combination is written by.
const NUMBERS: usize = 5;

// ---- a set from numbers

// The combination that five numbers write, if it is a good one.
#[tactic(auto, using(crate::proofs::StateLaws::core_within, std::proofs::lemmas::Bool::Decides::nat_tests), unfolding(links::specs::Sets::combination_good))]
fn combination_in(row: &[u64; NUMBERS]) -> Option<Combination>
    ensures { found_of 11 result ≡ unless 11 (combination_good (five row.now)) (ok (five row.now)) }
{
    let [rfci, t, size1, size2, size3] = *row;
    let c = Combination {
        rfci: u8::try_from(rfci).ok()?,
        frame_type: u8::try_from(t).ok()?,
        size1: u16::try_from(size1).ok()?,
        size2: u16::try_from(size2).ok()?,
        size3: u16::try_from(size3).ok()?,
    };
    combination_good(c).then_some(c)
}

// RFCI and type of `c` are none of those of `others`.
fn is_apart(c: Combination, others: &[Combination]) -> bool
    ensures { result ≡ unlike c others.now }
{
    others
        .iter()
        .all(|d| c.rfci != d.rfci && c.frame_type != d.frame_type)
}

// The set of the combinations that numbers write, five for each, if it is a good one.
#[tactic(auto, using(crate::proofs::RowLaws::not_whole, crate::proofs::RowLaws::too_few, crate::proofs::RowLaws::too_many, crate::proofs::RowLaws::stored_next, crate::proofs::RowLaws::good_next))]
fn set_in(numbers: &[u64]) -> Option<RfcSet>
    ensures { result ≡ set_of numbers.now }
{
    let (rows, rest) = numbers.as_chunks::<NUMBERS>();
    if !rest.is_empty() || rows.is_empty() || PLACES < rows.len() {
        return None;
    }
    let mut places = [Combination::default(); PLACES];
    for (n, row) in rows.iter().enumerate() {
        let c = combination_in(row)?;
        if !is_apart(c, &places[..n]) {
            return None;
        }
        places[n] = c;
    }
    // At most PLACES: the cast loses nothing.
    let count = rows.len() as u32;
    Some(RfcSet { places, count })
}

// ---- the calls

// A link with no set, request 0, and no request forwarded. An entry.
pub fn fresh() -> Link
    ensures { result ≡ fresh_link }
{
    Link {
        set: RfcSet::default(),
        request: 0,
        forwarded: NO_REQUEST,
    }
}

// Stores the combinations that `rows` writes, five numbers for each: RFCI, type and three sizes. An entry.
#[tactic(auto, using(std::proofs::lemmas::Bool::Decides::nat_tests), unfolding(links::specs::Calls::assign_call))]
pub fn assign(link: Link, rows: &[u64]) -> Result<Link, Refusal>
    ensures { moved_of link result ≡ call.link_step link (call.assign rows.now) }
{
    let set = set_in(rows).ok_or(Refusal::ArgumentRange)?;
    if link.set.count > 0 {
        return Err(Refusal::SetPresent);
    }
    Ok(Link { set, ..link })
}

// Back to no set; the two requests stay. An entry.
#[tactic(auto, using(std::proofs::lemmas::Bool::Decides::nat_tests), unfolding(links::specs::Calls::release_call))]
pub fn release(link: Link) -> Result<Link, Refusal>
    ensures { moved_of link result ≡ call.link_step link call.release }
{
    if link.set.count == 0 {
        return Err(Refusal::NoSet);
    }
    let set = RfcSet::default();
    Ok(Link { set, ..link })
}

// Stores a request, with a set or without. An entry.
#[tactic(auto, using(std::proofs::lemmas::Bool::Decides::nat_tests), unfolding(links::specs::Calls::rate_call))]
pub fn rate_command(link: Link, mode: u64) -> Result<Link, Refusal>
    ensures { moved_of link result ≡ call.link_step link (call.rate mode) }
{
    let request = u16::from(mode_numbered(mode)?);
    Ok(Link { request, ..link })
}
