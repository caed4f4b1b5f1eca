// Viewing a recording, a frame a call (document 01, "Recordings and conversion", last paragraph). A `Viewer` carries the recording and the
// place of the next frame; it is for programs in Rattle. `view_open` and `view_next` are entries: they hand the place out and take it in.
// `usize` and `u64` become each other by `as`, since they have no `From`: the check proves that nothing is lost.
#![tactic(auto)]

ghost use Rattle.std.specs.Prelude.{◌≡◌, IfOk, length};
ghost use Rattle.definitions.specs.Outcome.{ok};
ghost use Rattle.definitions.specs.Reading.{format_numbered};
ghost use Rattle.recordings.specs.Viewer.{open_call, view_call};
ghost use Rattle.frame.specs.Answers.{format_of};
ghost use Rattle.recording_reader.specs.Answers.{placed_of};
ghost use Rattle.viewer.specs.Answers.{number_and_offset, opened_of, Nexts, ViewsInto};

use frame::{Format, FrameHeader, Refusal};
use frame_reader::{core_out, read_next};
use recording_reader::{LIMIT, RefusedAt, header_octets, judge_front};

// The place of a frame: its number, and the octet at which it begins.
#[derive(Clone, Copy)]
pub struct Place {
    pub number: u64,
    pub offset: u64,
}

// A recording, its format's number, and the place of the next frame.
#[derive(Clone, Copy)]
pub struct Viewer<'a> {
    pub rec: &'a [u8],
    pub format: u64,
    pub place: Place,
}

impl<'a> Viewer<'a> {
    // Opens a recording, at its first frame.
    #[tactic(auto, unfolding(recordings::specs::Viewer::open_call))]
    pub fn open(format: u64, rec: &'a [u8]) -> Result<Viewer<'a>, RefusedAt>
        ensures place { placed_of (λ v. number_and_offset v.place) result ≡ open_call format rec.now }
        ensures over { IfOk result (λ v. (v.rec ≡ rec.entry) × (v.format ≡ format) × ((f : Format) × (format_numbered format ≡ ok (format_of f)))) }
    {
        let f = Format::try_from(format)?;
        judge_front(f, LIMIT, rec)?;
        let first = Place {
            number: 0,
            offset: header_octets(f) as u64,
        };
        Ok(Viewer::new(rec, format, first))
    }

    // A viewer at a place.
    pub fn new(rec: &'a [u8], format: u64, place: Place) -> Viewer<'a>
        ensures { (result.rec ≡ rec.entry) × (result.format ≡ format) × (result.place ≡ place) }
    {
        Viewer { rec, format, place }
    }

    // The next frame with the place behind it, or the end. A number that is no format is refused here: `new` takes any.
    #[tactic(auto, using(crate::proofs::NextLaws::viewed), unfolding(recordings::specs::Viewer::next_call))]
    pub fn next(&self) -> Result<Option<(FrameHeader, Place)>, RefusedAt>
        ensures { Nexts self.now.format self.now.place.offset self.now.place.number self.now.rec.now result }
    {
        let f = Format::try_from(self.format)?;
        let Place { number, offset } = self.place;
        let len = self.rec.len() as u64;
        if len < offset || offset < number {
            return Err(Refusal::ArgumentRange.into());
        }
        if offset == len {
            return Ok(None);
        }
        let (h, n) = read_next(f, &self.rec[offset as usize..]).map_err(|refusal| {
            RefusedAt {
                refusal,
                frame: number,
                octet: offset,
            }
        })?;
        let behind = Place {
            number: number + 1,
            offset: offset + n as u64,
        };
        Ok(Some((h, behind)))
    }

    // The viewer at another place of its recording.
    pub fn moved(self, place: Place) -> Viewer<'a>
        ensures { (result.rec ≡ self.entry.rec) × (result.format ≡ self.entry.format) × (result.place ≡ place) }
    {
        Viewer { place, ..self }
    }
}

// The next frame, for a caller that has no viewer.
pub fn next_of(
    format: u64,
    place: Place,
    rec: &[u8],
) -> Result<Option<(FrameHeader, Place)>, RefusedAt>
    ensures { Nexts format place.offset place.number rec.now result }
{
    Viewer::new(rec, format, place).next()
}

// Opens a recording: the place of its first frame, or the refusal. An entry.
pub fn view_open(format: u64, rec: &[u8]) -> Result<Place, RefusedAt>
    ensures { opened_of result ≡ open_call format rec.now }
{
    Ok(Viewer::open(format, rec)?.place)
}

// The next frame with the place behind it, its packed core put into a buffer; or the end. An entry.
pub fn view_next(
    format: u64,
    place: Place,
    rec: &[u8],
    core: &mut [u8],
) -> Result<Option<(FrameHeader, Place)>, RefusedAt>
    ensures { ViewsInto (view_call format place.offset place.number rec.now (length core.old)) (number_and_offset place) core.old core.new result }
{
    let f = Format::try_from(format)?;
    let Some((h, behind)) = next_of(format, place, rec)? else {
        return Ok(None);
    };
    core_out(f, &rec[place.offset as usize..], h, core)?;
    Ok(Some((h, behind)))
}
