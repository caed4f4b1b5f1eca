// Level one's C interface (include/amrwb.h): recordings and single frames in IF1 and IF2. Each function calls one entry and hands its answer
// on as numbers. Every public function is an entry; crates/level_one_c exports them. Of those that take a
// format, level two's take format 3 too, which these refuse: so each has a contract of its own, and calls the entry itself, which is one line, as a
// call of the other level's would be.
#![tactic(auto)]

ghost use Rattle.std.specs.Prelude.{◌≡◌, ◌&&◌, leb, length};
ghost use Rattle.definitions.specs.Frames.{if1, if2};
ghost use Rattle.definitions.specs.Reading.{build_frame};
ghost use Rattle.joins.specs.Flat.{FlatJoined};
ghost use Rattle.answers.specs.Flat.{placed_numbers, FlatConversion, FlatOutput, FlatFrame};
ghost use Rattle.level_one.specs.Formats.{validate_one, convert_one, length_one, merge_one, read_one};
ghost use Rattle.level_one.specs.Claims.{JoinedLentOctets};

use answers::{Answer, FrameAnswer};
use frame::{Format, Refusal};
use joins::JoinedAnswer;

// The highest number of a format that level one has. It bounds the number that C hands in, of which the entry makes a `Format`.
const LAST_FORMAT: u64 = 2;

// Both formats are level one's.
fn both_here(from: u64, to: u64) -> bool
    ensures { result ≡ (leb from 2 && leb to 2) }
{
    from <= LAST_FORMAT && to <= LAST_FORMAT
}

pub fn amrwb_validate(format: u64, rec: &[u8]) -> Answer
    ensures { result ≡ placed_numbers (validate_one format rec.now) }
{
    if LAST_FORMAT < format {
        return Refusal::ArgumentRange.into();
    }
    recording_reader::validate(format, rec).into()
}

pub fn amrwb_convert(from: u64, to: u64, request: u64, rec: &[u8], out: &mut [u8]) -> Answer
    ensures { FlatConversion (convert_one from to request rec.now (length out.old)) out.old out.new result }
{
    if !both_here(from, to) {
        return Refusal::ArgumentRange.into();
    }
    converter::convert(from, to, request, rec, out).into()
}

pub fn amrwb_convert_length(from: u64, to: u64, request: u64, rec: &[u8]) -> Answer
    ensures { result ≡ placed_numbers (length_one from to request rec.now) }
{
    if !both_here(from, to) {
        return Refusal::ArgumentRange.into();
    }
    converter::convert_length(from, to, request, rec).into()
}

pub fn amrwb_merge(format: u64, a: &[u8], b: &[u8], out: &mut [u8]) -> JoinedAnswer
    ensures { FlatJoined (merge_one format a.now b.now (length out.old)) out.old out.new result }
{
    if LAST_FORMAT < format {
        return Refusal::ArgumentRange.into();
    }
    joins::merge(format, a, b, out).into()
}

pub fn amrwb_read_frame(format: u64, octets: &[u8], core: &mut [u8]) -> FrameAnswer
    ensures { FlatFrame (read_one format octets.now (length core.old)) core.old core.new result }
{
    if LAST_FORMAT < format {
        return Refusal::ArgumentRange.into();
    }
    frame_reader::read_frame(format, octets, core).into()
}

pub fn amrwb_build_if1(
    frame_type: u64,
    quality: u64,
    indication: u64,
    request: u64,
    core: &[u8],
    out: &mut [u8],
) -> Answer
    ensures { FlatOutput (build_frame if1 frame_type quality indication request core.now (length out.old)) out.old out.new result }
{
    frame_builder::build(
        Format::If1,
        frame_type,
        quality,
        indication,
        request,
        core,
        out,
    )
    .into()
}

pub fn amrwb_build_if2(frame_type: u64, quality: u64, core: &[u8], out: &mut [u8]) -> Answer
    ensures { FlatOutput (build_frame if2 frame_type quality 0 0 core.now (length out.old)) out.old out.new result }
{
    frame_builder::build(Format::If2, frame_type, quality, 0, 0, core, out).into()
}

// Does nothing. Its contract: demand 1 at the C interface, of a merge. A refused call leaves every lent octet, and another writes the front of its
// buffer alone.
pub fn lent_octets_claim()
    ensures { JoinedLentOctets }
{}
