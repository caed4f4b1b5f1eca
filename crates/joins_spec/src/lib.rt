// One recording made of two of its format: what such a call answers, and two recordings merged, is defined in specs/, and each claim about it is the
// contract of a function that computes nothing. The crate of the calls stands above it.
#![tactic(auto)]

ghost use Rattle.joins_spec.specs.Joining.{merge_call};
ghost use Rattle.joins_spec.specs.Merging.{Merges, MergesAgree};
ghost use Rattle.joins_spec.specs.WrongMerges.{WrongMerges};

// Does nothing. Its contract: two recordings are merged slot by slot to a valid recording, each refusal comes on its condition and on no other, and
// a first without gaps, no shorter than the second, comes out unchanged.
pub fn merge_claim()
    ensures { Merges merge_call }
{}

// Does nothing. Its contract: two programs that meet this claim give the same answers.
pub fn answers_claim()
    ensures { MergesAgree }
{}

// Does nothing. Its contract: wrong merges do not meet the claim: one that replaces bad frames, one that keeps an empty frame where the second has
// speech, one that loses the tail of the longer second, one that judges the second first, and others.
pub fn wrong_merges_claim()
    ensures { WrongMerges }
{}
