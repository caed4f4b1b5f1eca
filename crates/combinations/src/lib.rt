// One combination of a link's set judged, and a combination looked up in the set. What is `pub` is for the crates of the link's state, Up and
// Down: none is an entry.
#![tactic(auto)]

ghost use Rattle.std.specs.Prelude.{◌≡◌, ℕ, Bool};
ghost use Rattle.links.specs.declared.Combination.{Combination};
ghost use Rattle.links.specs.Sets.{link_type, combination_good, combinations, Key, by_rfci, by_type, has, lookup};
ghost use Rattle.combinations.specs.Answers.{found_of};

use frame::SID;
use frame::table::core_bits;
use links::{Combination, RfcSet};

// The highest RFCI, and the type above a SID frame's that a combination may have.
pub const HIGHEST_RFCI: u64 = 63;

pub const NO_DATA: u64 = 15;

// ---- one combination

#[tactic(auto, using(std::proofs::lemmas::Bool::Decides::nat_tests))]
fn link_type(t: u8) -> bool
    ensures { result ≡ link_type t }
{
    u64::from(t) <= SID || u64::from(t) == NO_DATA
}

#[tactic(auto, using(std::proofs::lemmas::Bool::Decides::nat_tests), unfolding(links::specs::Sets::combination_good))]
pub fn combination_good(c: Combination) -> bool
    ensures { result ≡ combination_good c }
{
    u64::from(c.rfci) <= HIGHEST_RFCI
        && link_type(c.frame_type)
        && usize::from(c.size1) + usize::from(c.size2) + usize::from(c.size3)
            == core_bits(usize::from(c.frame_type))
}

// ---- lookup

// The first good combination of the set that a test picks. The count is a cast, since usize has no `From` of a u32; it loses nothing.
fn first_good<F: Fn(Combination) -> bool>(set: &RfcSet, picks: F) -> Option<Combination>
    requires { F.IsAlwaysCallable picks }
    ensures { (k : Key) (n : ℕ) → ((c : Combination) (b : Bool) → F.post picks c b → b ≡ has k n c) → found_of 16 result ≡ lookup k n (combinations set.now) }
{
    set.places
        .iter()
        .take(set.count as usize)
        .copied()
        .find(|c| picks(*c) && combination_good(*c))
}

// The combination with an RFCI, for Up.
pub fn lookup_rfci(set: &RfcSet, rfci: u8) -> Option<Combination>
    ensures { found_of 16 result ≡ lookup by_rfci rfci (combinations set.now) }
{
    first_good(set, |c| c.rfci == rfci)
}

// The combination of a type, for Down.
pub fn lookup_type(set: &RfcSet, t: u8) -> Option<Combination>
    ensures { found_of 16 result ≡ lookup by_type t (combinations set.now) }
{
    first_good(set, |c| c.frame_type == t)
}
