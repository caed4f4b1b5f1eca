// Level one's static library (include/amrwb.h): each export calls level_one's function of its name, under the same clauses.
// They are written out for each library: it exports only functions that it defines itself, and neither a `pub use` nor a macro defines one.
#![tactic(auto)]

ghost use Rattle.std.specs.Prelude.{◌≡◌, length};
ghost use Rattle.definitions.specs.Frames.{if1, if2};
ghost use Rattle.definitions.specs.Reading.{build_frame};
ghost use Rattle.joins.specs.Flat.{FlatJoined};
ghost use Rattle.answers.specs.Flat.{placed_numbers, FlatConversion, FlatOutput, FlatFrame};
ghost use Rattle.level_one.specs.Formats.{validate_one, convert_one, length_one, merge_one, read_one};

use answers::{Answer, FrameAnswer};
use joins::JoinedAnswer;

#[unsafe(no_mangle)]
pub extern "C" fn amrwb_validate(format: u64, rec: &[u8]) -> Answer
    ensures { result ≡ placed_numbers (validate_one format rec.now) }
{
    level_one::amrwb_validate(format, rec)
}

#[unsafe(no_mangle)]
pub extern "C" fn amrwb_convert(
    from: u64,
    to: u64,
    request: u64,
    rec: &[u8],
    out: &mut [u8],
) -> Answer
    ensures { FlatConversion (convert_one from to request rec.now (length out.old)) out.old out.new result }
{
    level_one::amrwb_convert(from, to, request, rec, out)
}

#[unsafe(no_mangle)]
pub extern "C" fn amrwb_convert_length(from: u64, to: u64, request: u64, rec: &[u8]) -> Answer
    ensures { result ≡ placed_numbers (length_one from to request rec.now) }
{
    level_one::amrwb_convert_length(from, to, request, rec)
}

#[unsafe(no_mangle)]
pub extern "C" fn amrwb_merge(format: u64, a: &[u8], b: &[u8], out: &mut [u8]) -> JoinedAnswer
    ensures { FlatJoined (merge_one format a.now b.now (length out.old)) out.old out.new result }
{
    level_one::amrwb_merge(format, a, b, out)
}

#[unsafe(no_mangle)]
pub extern "C" fn amrwb_read_frame(format: u64, octets: &[u8], core: &mut [u8]) -> FrameAnswer
    ensures { FlatFrame (read_one format octets.now (length core.old)) core.old core.new result }
{
    level_one::amrwb_read_frame(format, octets, core)
}

#[unsafe(no_mangle)]
pub extern "C" fn amrwb_build_if1(
    frame_type: u64,
    quality: u64,
    indication: u64,
    request: u64,
    core: &[u8],
    out: &mut [u8],
) -> Answer
    ensures { FlatOutput (build_frame if1 frame_type quality indication request core.now (length out.old)) out.old out.new result }
{
    level_one::amrwb_build_if1(frame_type, quality, indication, request, core, out)
}

#[unsafe(no_mangle)]
pub extern "C" fn amrwb_build_if2(
    frame_type: u64,
    quality: u64,
    core: &[u8],
    out: &mut [u8],
) -> Answer
    ensures { FlatOutput (build_frame if2 frame_type quality 0 0 core.now (length out.old)) out.old out.new result }
{
    level_one::amrwb_build_if2(frame_type, quality, core, out)
}
