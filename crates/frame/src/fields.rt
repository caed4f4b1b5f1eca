// Refusal 6's test: the modes of a frame that is read or to be built.
ghost use Rattle.std.specs.Prelude.{◌≡◌, Bool, List, ℕ, drop};
ghost use Rattle.bits.specs.Bits.{num};
ghost use Rattle.definitions.specs.Frames.{frame_by, sid_good, uncarried_zero, fields_good};
ghost use Rattle.frame.specs.Answers.{format_of};

use crate::table::carries_modes;
use crate::{Format, HIGHEST_MODE, SID};

// Of a SID frame the indication is 0, and the mode at most 8; of another the mode doesn't count, and those who judge give 0. No Option: the
// definition's test takes a number.
fn sid_good(t: u64, i: u64, mode: u64) -> bool
    ensures { result ≡ sid_good t i mode }
{
    t != SID || (i == 0 && mode <= HIGHEST_MODE)
}

// A field that the frame does not carry is 0.
fn uncarried_zero(f: Format, t: usize, i: u64, r: u64) -> bool
    ensures { result ≡ uncarried_zero (format_of f) t i r }
{
    carries_modes(f, t) || (i == 0 && r == 0)
}

// Refusal 6's test, by the fields and, of a SID frame, its mode; of another frame the mode doesn't count.
#[tactic(auto, unfolding(definitions::specs::Frames::fields_good))]
pub fn fields_good(f: Format, t: u64, i: u64, r: u64, mode: u64) -> bool
    ensures { (q : ℕ) (core : List Bool) → (t ≡ 9 → mode ≡ num 4 (drop 36 core)) → result ≡ fields_good (format_of f) (frame_by t q i r core) }
{
    if HIGHEST_MODE < i || HIGHEST_MODE < r {
        return false;
    }
    sid_good(t, i, mode) && uncarried_zero(f, t as usize, i, r)
}
