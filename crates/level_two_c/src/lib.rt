// Level two's static library (include/amrwb.h): each export calls level_two's function of its name, under the same clauses.
// They are written out for each library: it exports only functions that it defines itself, and neither a `pub use` nor a macro defines one.
#![tactic(auto)]

ghost use Rattle.std.specs.Prelude.{◌≡◌, length};
ghost use Rattle.definitions.specs.Frames.{if1, if2, storage};
ghost use Rattle.definitions.specs.Reading.{read_call, build_frame};
ghost use Rattle.definitions.specs.Order.{to_core_call, to_row_call};
ghost use Rattle.definitions.specs.Reception.{reception_class};
ghost use Rattle.recordings.specs.Recordings.{validate_call};
ghost use Rattle.recordings.specs.Conversion.{convert_call, length_call};
ghost use Rattle.recordings.specs.Viewer.{open_call, view_call};
ghost use Rattle.recordings.specs.Report.{report_call};
ghost use Rattle.order_sheets_spec.specs.Sheets.{sheet_call};
ghost use Rattle.order_sheets.specs.Flat.{FlatSheet};
ghost use Rattle.joins_spec.specs.Joining.{merge_call};
ghost use Rattle.joins.specs.Flat.{FlatJoined};
ghost use Rattle.consoles_spec.specs.Calls.{fresh_consoles, add, slot, consoles_step};
ghost use Rattle.consoles.specs.Flat.{consoles_numbers};
ghost use Rattle.answers.specs.Flat.{placed_numbers, FlatConversion, FlatOutput, FlatFrame};
ghost use Rattle.level_two.specs.Flat.{class_numbers, open_numbers, FlatView, report_numbers};

use answers::{Answer, FrameAnswer};
use consoles::ConsolesAnswer;
use consoles_spec::Consoles;
use joins::JoinedAnswer;
use level_two::{ClassAnswer, ReportAnswer, ViewAnswer};
use order_sheets::SheetAnswer;

#[unsafe(no_mangle)]
pub extern "C" fn amrwb_validate(format: u64, rec: &[u8]) -> Answer
    ensures { result ≡ placed_numbers (validate_call format rec.now) }
{
    level_two::amrwb_validate(format, rec)
}

#[unsafe(no_mangle)]
pub extern "C" fn amrwb_convert(
    from: u64,
    to: u64,
    request: u64,
    rec: &[u8],
    out: &mut [u8],
) -> Answer
    ensures { FlatConversion (convert_call from to request rec.now (length out.old)) out.old out.new result }
{
    level_two::amrwb_convert(from, to, request, rec, out)
}

#[unsafe(no_mangle)]
pub extern "C" fn amrwb_convert_length(from: u64, to: u64, request: u64, rec: &[u8]) -> Answer
    ensures { result ≡ placed_numbers (length_call from to request rec.now) }
{
    level_two::amrwb_convert_length(from, to, request, rec)
}

#[unsafe(no_mangle)]
pub extern "C" fn amrwb_merge(format: u64, a: &[u8], b: &[u8], out: &mut [u8]) -> JoinedAnswer
    ensures { FlatJoined (merge_call format a.now b.now (length out.old)) out.old out.new result }
{
    level_two::amrwb_merge(format, a, b, out)
}

#[unsafe(no_mangle)]
pub extern "C" fn amrwb_read_frame(format: u64, octets: &[u8], core: &mut [u8]) -> FrameAnswer
    ensures { FlatFrame (read_call format octets.now (length core.old)) core.old core.new result }
{
    level_two::amrwb_read_frame(format, octets, core)
}

#[unsafe(no_mangle)]
pub extern "C" fn amrwb_build_if1(
    frame_type: u64,
    quality: u64,
    indication: u64,
    request: u64,
    core: &[u8],
    out: &mut [u8],
) -> Answer
    ensures { FlatOutput (build_frame if1 frame_type quality indication request core.now (length out.old)) out.old out.new result }
{
    level_two::amrwb_build_if1(frame_type, quality, indication, request, core, out)
}

#[unsafe(no_mangle)]
pub extern "C" fn amrwb_build_if2(
    frame_type: u64,
    quality: u64,
    core: &[u8],
    out: &mut [u8],
) -> Answer
    ensures { FlatOutput (build_frame if2 frame_type quality 0 0 core.now (length out.old)) out.old out.new result }
{
    level_two::amrwb_build_if2(frame_type, quality, core, out)
}

#[unsafe(no_mangle)]
pub extern "C" fn amrwb_build_stored(
    frame_type: u64,
    quality: u64,
    core: &[u8],
    out: &mut [u8],
) -> Answer
    ensures { FlatOutput (build_frame storage frame_type quality 0 0 core.now (length out.old)) out.old out.new result }
{
    level_two::amrwb_build_stored(frame_type, quality, core, out)
}

#[unsafe(no_mangle)]
pub extern "C" fn amrwb_order_to_core(
    mode: u64,
    sheet: &[u16],
    row: &[u8],
    core: &mut [u8],
) -> Answer
    ensures { FlatOutput (to_core_call mode sheet.now row.now (length core.old)) core.old core.new result }
{
    level_two::amrwb_order_to_core(mode, sheet, row, core)
}

#[unsafe(no_mangle)]
pub extern "C" fn amrwb_order_to_row(
    mode: u64,
    sheet: &[u16],
    core: &[u8],
    row: &mut [u8],
) -> Answer
    ensures { FlatOutput (to_row_call mode sheet.now core.now (length row.old)) row.old row.new result }
{
    level_two::amrwb_order_to_row(mode, sheet, core, row)
}

#[unsafe(no_mangle)]
pub extern "C" fn amrwb_sheet_read(text: &[u8], numbers: &mut [u16]) -> SheetAnswer
    ensures { FlatSheet (sheet_call text.now (length numbers.old)) numbers.old numbers.new result }
{
    level_two::amrwb_sheet_read(text, numbers)
}

#[unsafe(no_mangle)]
pub extern "C" fn amrwb_class(frame_type: u64, quality: u64, sti: u64) -> ClassAnswer
    ensures { result ≡ class_numbers (reception_class frame_type quality sti) }
{
    level_two::amrwb_class(frame_type, quality, sti)
}

#[unsafe(no_mangle)]
pub extern "C" fn amrwb_view_open(format: u64, rec: &[u8]) -> ViewAnswer
    ensures { result ≡ open_numbers (open_call format rec.now) }
{
    level_two::amrwb_view_open(format, rec)
}

#[unsafe(no_mangle)]
pub extern "C" fn amrwb_view_next(
    format: u64,
    offset: u64,
    number: u64,
    rec: &[u8],
    core: &mut [u8],
) -> ViewAnswer
    ensures { FlatView (view_call format offset number rec.now (length core.old)) (number, offset) core.old core.new result }
{
    level_two::amrwb_view_next(format, offset, number, rec, core)
}

#[unsafe(no_mangle)]
pub extern "C" fn amrwb_report(rec: &[u8]) -> ReportAnswer
    ensures { result ≡ report_numbers (report_call rec.now) }
{
    level_two::amrwb_report(rec)
}

#[unsafe(no_mangle)]
pub extern "C" fn amrwb_consoles_fresh() -> Consoles
    ensures { result ≡ fresh_consoles }
{
    level_two::amrwb_consoles_fresh()
}

#[unsafe(no_mangle)]
pub extern "C" fn amrwb_consoles_add(consoles: Consoles, console: u64) -> ConsolesAnswer
    ensures { result ≡ consoles_numbers (consoles_step consoles (add console)) }
{
    level_two::amrwb_consoles_add(consoles, console)
}

#[unsafe(no_mangle)]
pub extern "C" fn amrwb_consoles_slot(consoles: Consoles) -> ConsolesAnswer
    ensures { result ≡ consoles_numbers (consoles_step consoles slot) }
{
    level_two::amrwb_consoles_slot(consoles)
}
