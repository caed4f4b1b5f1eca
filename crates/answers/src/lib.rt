// The answers that the levels of the C interface share (include/amrwb.h), and how the entries' answers become them. Each has a number for each
// thing, and 0 for what is not there: no export may hand an enum to C, and Result and Option are enums. Refusal, frame and octet are fields
// of each, as C declares them: a struct of the three would have the same layout, and need one more name wherever one is read.
#![tactic(auto)]

ghost use Rattle.std.specs.Prelude.{◌≡◌, List, Bool, ℕ};
ghost use Rattle.definitions.specs.Outcome.{refused};
ghost use Rattle.frame.specs.Answers.{number_of, reading_of, built_of};
ghost use Rattle.recording_reader.specs.Answers.{counts_of};
ghost use Rattle.answers.specs.Flat.{placed_numbers, answer_numbers, frame_numbers};
ghost use Rattle.answers.specs.Claims.{LentOctets};

use frame::{FrameHeader, Refusal};
use recording_reader::{Counts, RefusedAt};

// Frames read, and octets written or to be written; or a refusal with its place.
#[repr(C)]
#[derive(Clone, Copy, Default)]
pub struct Answer {
    pub refusal: u64,
    pub frame: u64,
    pub octet: u64,
    pub frames: u64,
    pub octets: u64,
}

// A frame's fields, and the octets of its packed core; or a refusal.
#[repr(C)]
#[derive(Clone, Copy, Default)]
pub struct FrameAnswer {
    pub refusal: u64,
    pub frame: u64,
    pub octet: u64,
    pub frame_type: u64,
    pub quality: u64,
    pub indication: u64,
    pub request: u64,
    pub core_octets: u64,
}

// A refusal outside a recording; below the same for a frame. A function for both would need a trait with the field that it sets.
impl From<Refusal> for Answer {
    ghost from_gives = { λ e a. a ≡ answer_numbers (refused (number_of e)) };

    fn from(e: Refusal) -> Answer {
        Answer {
            refusal: u64::from(e),
            ..Answer::default()
        }
    }
}

impl From<Refusal> for FrameAnswer {
    ghost from_gives = { λ e a. a ≡ frame_numbers (refused (number_of e)) };

    fn from(e: Refusal) -> FrameAnswer {
        FrameAnswer {
            refusal: u64::from(e),
            ..FrameAnswer::default()
        }
    }
}

// A call over a recording. Its counts, and those below, are cast, since u64 has no `From` of a usize.
impl From<Result<Counts, RefusedAt>> for Answer {
    ghost from_gives = { λ r a. a ≡ placed_numbers (counts_of r) };

    fn from(r: Result<Counts, RefusedAt>) -> Answer {
        match r {
            Ok(c) => Answer {
                frames: c.frames as u64,
                octets: c.octets as u64,
                ..Answer::default()
            },
            Err(e) => Answer {
                frame: e.frame,
                octet: e.octet,
                ..Answer::from(e.refusal)
            },
        }
    }
}

// A call that builds a frame.
impl From<Result<usize, Refusal>> for Answer {
    ghost from_gives = { λ r a. a ≡ answer_numbers (built_of r) };

    fn from(r: Result<usize, Refusal>) -> Answer {
        match r {
            Ok(n) => Answer {
                octets: n as u64,
                ..Answer::default()
            },
            Err(e) => Answer::from(e),
        }
    }
}

// A call that reads a frame; where its core is doesn't matter here.
impl From<Result<(FrameHeader, usize), Refusal>> for FrameAnswer {
    ghost from_gives = { λ r a. (core : ℕ → List Bool) → a ≡ frame_numbers (reading_of core r) };

    fn from(r: Result<(FrameHeader, usize), Refusal>) -> FrameAnswer {
        match r {
            Ok((h, n)) => FrameAnswer {
                frame_type: u64::from(h.frame_type),
                quality: u64::from(h.quality),
                indication: u64::from(h.indication),
                request: u64::from(h.request),
                core_octets: n as u64,
                ..FrameAnswer::default()
            },
            Err(e) => FrameAnswer::from(e),
        }
    }
}

// Does nothing. Its contract: demand 1 at the C interface. A refused call leaves every lent octet, and another writes the front of its buffer alone.
pub fn lent_octets_claim()
    ensures { LentOctets }
{}
