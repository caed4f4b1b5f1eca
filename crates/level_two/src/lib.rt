// Level two's C interface (include/amrwb.h): each function calls one entry and hands its answer on as numbers, as specs/Flat.antt says; the
// viewer's answer has the reception class of its frame too. Every public function is an entry, and so are the two of level one's that are the
// same here; crates/level_two_c exports them. The answers are structs with a number for each thing, and 0 for what is not there: no export may
// hand an enum to C, and Result and Option are enums. One function for several calls would save no line: each is a name of C's and one call.
#![tactic(auto)]

ghost use Rattle.std.specs.Prelude.{◌≡◌, length};
ghost use Rattle.definitions.specs.Frames.{storage, core_octets};
ghost use Rattle.definitions.specs.Reading.{read_call, build_frame};
ghost use Rattle.definitions.specs.Order.{to_core_call, to_row_call};
ghost use Rattle.definitions.specs.Reception.{reception_class};
ghost use Rattle.recordings.specs.Recordings.{validate_call};
ghost use Rattle.recordings.specs.Conversion.{convert_call, length_call};
ghost use Rattle.recordings.specs.Viewer.{open_call, view_call};
ghost use Rattle.recordings.specs.Report.{report_call};
ghost use Rattle.frame.specs.Answers.{number_of};
ghost use Rattle.order_sheets_spec.specs.Sheets.{sheet_call};
ghost use Rattle.order_sheets.specs.Flat.{FlatSheet};
ghost use Rattle.joins_spec.specs.Joining.{merge_call};
ghost use Rattle.joins.specs.Flat.{FlatJoined};
ghost use Rattle.consoles_spec.specs.Calls.{fresh_consoles, add, slot, consoles_step};
ghost use Rattle.consoles.specs.Flat.{consoles_numbers};
ghost use Rattle.answers.specs.Flat.{placed_numbers, FlatConversion, FlatOutput, FlatFrame};
ghost use Rattle.level_two.specs.Flat.{class_number, class_numbers, unshown, open_numbers, FlatView, report_numbers};
ghost use Rattle.level_two.specs.Claims.{ViewerLentOctets, SheetLentNumbers};
ghost use Rattle.reception.specs.Classes.{reception_of, classified_of};
ghost use Rattle.report.specs.Answers.{reported_of};

use answers::{Answer, FrameAnswer};
use consoles::{ConsolesAnswer, added_answer, served_answer};
use consoles_spec::Consoles;
use frame::table::core_octets;
use frame::{Format, Refusal, SID};
use joins::JoinedAnswer;
pub use level_one::{amrwb_build_if1, amrwb_build_if2};
use order_sheets::SheetAnswer;
use reception::{Reception, SidClass, SpeechClass};
use recording_reader::RefusedAt;
use report::Reported;
use viewer::Place;

// A reception class by its number; or a refusal.
#[repr(C)]
#[derive(Clone, Copy, Default)]
pub struct ClassAnswer {
    pub refusal: u64,
    pub frame: u64,
    pub octet: u64,
    pub class: u64,
}

// A frame that is shown, with its reception class, or the end, or a refusal; with the place for the next call.
#[repr(C)]
#[derive(Clone, Copy, Default)]
pub struct ViewAnswer {
    pub refusal: u64,
    pub frame: u64,
    pub octet: u64,
    pub end: u64,
    pub frame_type: u64,
    pub quality: u64,
    pub indication: u64,
    pub request: u64,
    pub core_octets: u64,
    pub offset: u64,
    pub number: u64,
    pub class: u64,
}

// A report by document 01's words; or a refusal.
#[repr(C)]
#[derive(Clone, Copy, Default)]
pub struct ReportAnswer {
    pub refusal: u64,
    pub frame: u64,
    pub octet: u64,
    pub octets: u64,
    pub frames: u64,
    pub speech: u64,
    pub comfort: u64,
    pub lost: u64,
    pub empty: u64,
}

// The C interface's number for a class. No `From`: neither type is this crate's, and in crate reception it would be about C.
fn class_number(c: Reception) -> u64
    ensures { result ≡ class_number (reception_of c) }
{
    match c {
        Reception::Speech(SpeechClass::Good) => 1,
        Reception::Speech(SpeechClass::Bad) => 2,
        Reception::Sid(SidClass::First) => 3,
        Reception::Sid(SidClass::Update) => 4,
        Reception::Sid(SidClass::Bad) => 5,
        Reception::SpeechLost => 6,
        Reception::NoData => 7,
    }
}

impl From<Result<Reception, Refusal>> for ClassAnswer {
    ghost from_gives = { λ r a. a ≡ class_numbers (classified_of r) };

    fn from(r: Result<Reception, Refusal>) -> ClassAnswer {
        match r {
            Ok(c) => ClassAnswer {
                class: class_number(c),
                ..ClassAnswer::default()
            },
            Err(e) => ClassAnswer {
                refusal: u64::from(e),
                ..ClassAnswer::default()
            },
        }
    }
}

// A place, and no frame.
impl From<Place> for ViewAnswer {
    ghost from_gives = { λ p a. a ≡ unshown 0 0 0 0 p.number p.offset };

    fn from(p: Place) -> ViewAnswer {
        ViewAnswer {
            number: p.number,
            offset: p.offset,
            ..ViewAnswer::default()
        }
    }
}

impl From<RefusedAt> for ViewAnswer {
    ghost from_gives = { λ e a. a ≡ unshown (number_of e.refusal) e.frame e.octet 0 0 0 };

    fn from(e: RefusedAt) -> ViewAnswer {
        ViewAnswer {
            refusal: u64::from(e.refusal),
            frame: e.frame,
            octet: e.octet,
            ..ViewAnswer::default()
        }
    }
}

// The counts are cast, as is what `packed_octets` answers below, since u64 has no `From` of a usize.
impl From<Reported> for ReportAnswer {
    ghost from_gives = { λ r a. a ≡ report_numbers (reported_of r) };

    fn from(r: Reported) -> ReportAnswer {
        match r {
            Ok(r) => ReportAnswer {
                octets: r.octets as u64,
                frames: r.frames as u64,
                speech: r.speech as u64,
                comfort: r.sid as u64,
                lost: r.speech_lost as u64,
                empty: r.no_data as u64,
                ..ReportAnswer::default()
            },
            Err(e) => ReportAnswer {
                refusal: u64::from(e.refusal),
                frame: e.frame,
                octet: e.octet,
                ..ReportAnswer::default()
            },
        }
    }
}

pub fn amrwb_validate(format: u64, rec: &[u8]) -> Answer
    ensures { result ≡ placed_numbers (validate_call format rec.now) }
{
    recording_reader::validate(format, rec).into()
}

pub fn amrwb_convert(from: u64, to: u64, request: u64, rec: &[u8], out: &mut [u8]) -> Answer
    ensures { FlatConversion (convert_call from to request rec.now (length out.old)) out.old out.new result }
{
    converter::convert(from, to, request, rec, out).into()
}

pub fn amrwb_convert_length(from: u64, to: u64, request: u64, rec: &[u8]) -> Answer
    ensures { result ≡ placed_numbers (length_call from to request rec.now) }
{
    converter::convert_length(from, to, request, rec).into()
}

pub fn amrwb_merge(format: u64, a: &[u8], b: &[u8], out: &mut [u8]) -> JoinedAnswer
    ensures { FlatJoined (merge_call format a.now b.now (length out.old)) out.old out.new result }
{
    joins::merge(format, a, b, out).into()
}

pub fn amrwb_read_frame(format: u64, octets: &[u8], core: &mut [u8]) -> FrameAnswer
    ensures { FlatFrame (read_call format octets.now (length core.old)) core.old core.new result }
{
    frame_reader::read_frame(format, octets, core).into()
}

pub fn amrwb_build_stored(frame_type: u64, quality: u64, core: &[u8], out: &mut [u8]) -> Answer
    ensures { FlatOutput (build_frame storage frame_type quality 0 0 core.now (length out.old)) out.old out.new result }
{
    frame_builder::build(Format::Storage, frame_type, quality, 0, 0, core, out).into()
}

pub fn amrwb_order_to_core(mode: u64, sheet: &[u16], row: &[u8], core: &mut [u8]) -> Answer
    ensures { FlatOutput (to_core_call mode sheet.now row.now (length core.old)) core.old core.new result }
{
    codec_order::order_to_core(mode, sheet, row, core).into()
}

pub fn amrwb_order_to_row(mode: u64, sheet: &[u16], core: &[u8], row: &mut [u8]) -> Answer
    ensures { FlatOutput (to_row_call mode sheet.now core.now (length row.old)) row.old row.new result }
{
    codec_order::order_to_row(mode, sheet, core, row).into()
}

pub fn amrwb_sheet_read(text: &[u8], numbers: &mut [u16]) -> SheetAnswer
    ensures { FlatSheet (sheet_call text.now (length numbers.old)) numbers.old numbers.new result }
{
    order_sheets::read_sheet(text, numbers).into()
}

pub fn amrwb_class(frame_type: u64, quality: u64, sti: u64) -> ClassAnswer
    ensures { result ≡ class_numbers (reception_class frame_type quality sti) }
{
    reception::reception_class(frame_type, quality, sti).into()
}

// The octets of a packed core; types above a SID frame's have none.
#[tactic(auto, using(std::proofs::lemmas::Bool::Decides::nat_tests), unfolding(definitions::specs::Frames::core_bits))]
fn packed_octets(t: u8) -> u64
    ensures { result ≡ core_octets t }
{
    if u64::from(t) <= SID {
        core_octets(usize::from(t)) as u64
    } else {
        0
    }
}

pub fn amrwb_view_open(format: u64, rec: &[u8]) -> ViewAnswer
    ensures { result ≡ open_numbers (open_call format rec.now) }
{
    match viewer::view_open(format, rec) {
        Ok(place) => place.into(),
        Err(e) => e.into(),
    }
}

pub fn amrwb_view_next(
    format: u64,
    offset: u64,
    number: u64,
    rec: &[u8],
    core: &mut [u8],
) -> ViewAnswer
    ensures { FlatView (view_call format offset number rec.now (length core.old)) (number, offset) core.old core.new result }
{
    // No `From`: at the end and at a refusal the place stays, which the entry's answer does not hold.
    let place = Place { number, offset };
    match viewer::view_next(format, place, rec, core) {
        // The header's fields as in a `FrameAnswer`: C declares each struct by itself, and a part in common would be one more struct.
        Ok(Some((h, behind))) => ViewAnswer {
            frame_type: u64::from(h.frame_type),
            quality: u64::from(h.quality),
            indication: u64::from(h.indication),
            request: u64::from(h.request),
            core_octets: packed_octets(h.frame_type),
            class: class_number(reception::frame_class(h, core)),
            ..behind.into()
        },
        Ok(None) => ViewAnswer {
            end: 1,
            ..place.into()
        },
        Err(e) => ViewAnswer {
            number,
            offset,
            ..e.into()
        },
    }
}

pub fn amrwb_report(rec: &[u8]) -> ReportAnswer
    ensures { result ≡ report_numbers (report_call rec.now) }
{
    report::report_recording(rec).into()
}

pub fn amrwb_consoles_fresh() -> Consoles
    ensures { result ≡ fresh_consoles }
{
    consoles::fresh()
}

pub fn amrwb_consoles_add(consoles: Consoles, console: u64) -> ConsolesAnswer
    ensures { result ≡ consoles_numbers (consoles_step consoles (add console)) }
{
    added_answer(consoles, consoles::add(consoles, console))
}

pub fn amrwb_consoles_slot(consoles: Consoles) -> ConsolesAnswer
    ensures { result ≡ consoles_numbers (consoles_step consoles slot) }
{
    served_answer(consoles, consoles::slot(consoles))
}

// Does nothing. Its contract: demand 1 at the C interface, of the viewer and of a sheet that is read. A refused call, and the viewer's at the end,
// leave all that is lent, and the place; another writes the front of its buffer alone.
pub fn lent_octets_claim()
    ensures { ViewerLentOctets × SheetLentNumbers }
{}
