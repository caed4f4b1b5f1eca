// Reading a recording: the tests in front of its frames, then the scan, a frame at a time. `validate` is an entry; the other `pub`
// functions, `Counts` and `RefusedAt` are for the crates that convert, report and view. A `usize` becomes a `u64` by `as`, since it has no `From`:
// the check proves that nothing is lost.
#![tactic(auto)]

ghost use Rattle.std.specs.Prelude.{◌≡◌, ℕ, ◌≤◌, leb, length};
ghost use Rattle.recordings.specs.Placed.{done, unless_at, and_then_at};
ghost use Rattle.recordings.specs.Recordings.{limit, file_header, headed, scan_frames, read_recording, validate_call};
ghost use Rattle.recordings.specs.Conversion.{converted};
ghost use Rattle.frame.specs.Answers.{format_of};
ghost use Rattle.recording_reader.specs.Answers.{outside, placed_of, counts_of};

use frame::table::octets_of;
use frame::{Format, Refusal};
use frame_reader::read_front;

// The most octets of a recording.
pub const LIMIT: usize = 16777215;

// What a recording in storage format begins with.
pub const FILE_HEADER: [u8; 9] = *b"#!AMR-WB\n";

// What a call over a recording counts: frames read, and octets written or to be written.
#[derive(Clone, Copy)]
pub struct Counts {
    pub frames: usize,
    pub octets: usize,
}

// A refusal with its place: the frame's number and its first octet. Where a frame is refused it is written out: a constructor would be as long as
// what it saves, and take the two numbers by their order.
#[derive(Clone, Copy)]
pub struct RefusedAt {
    pub refusal: Refusal,
    pub frame: u64,
    pub octet: u64,
}

// Outside the frames the place is (0, 0), which the first of a recording's frames can have too: the definition and C's answer have it so. The number
// tells: a frame is refused by 2 to 7, and what is outside by 8 to 11.
impl From<Refusal> for RefusedAt {
    ghost from_gives = { λ e r. r ≡ outside e };

    fn from(refusal: Refusal) -> RefusedAt {
        RefusedAt {
            refusal,
            frame: 0,
            octet: 0,
        }
    }
}

// The octets in front of a recording's frames.
pub fn header_octets(f: Format) -> usize
    ensures { (result ≡ length (file_header (format_of f))) × (result ≤ 9) }
{
    match f {
        Format::If1 | Format::If2 => 0,
        Format::Storage => FILE_HEADER.len(),
    }
}

// The recording begins with its format's file header.
fn headed(f: Format, s: &[u8]) -> bool
    ensures { result ≡ headed (format_of f) s.now }
{
    match f {
        Format::If1 | Format::If2 => true,
        Format::Storage => s.starts_with(&FILE_HEADER),
    }
}

// The tests in front of a recording's frames: its length, which the report limits more, and its file header. `pub` for the report and the viewer.
pub fn judge_front(f: Format, most: usize, s: &[u8]) -> Result<(), RefusedAt>
    ensures { placed_of (λ u. u) result ≡ unless_at 9 (leb (length s.now) most) (unless_at 8 (headed (format_of f) s.now) (done tt)) }
{
    if most < s.len() {
        return Err(Refusal::TooLong.into());
    }
    if !headed(f, s) {
        return Err(Refusal::StorageHeader.into());
    }
    Ok(())
}

// Scans the frames behind the file header, up to the first that is refused, and adds up the octets that a conversion to `g` writes.
fn scan_frames(f: Format, g: Format, s: &[u8]) -> Result<Counts, RefusedAt>
    requires { (length (file_header (format_of f)) ≤ length s.now) × (length s.now ≤ limit) }
    ensures { (r : ℕ) → counts_of result ≡ and_then_at (scan_frames (format_of f) s.now) (λ xs. done (length xs, length (converted (format_of f) (format_of g) r xs))) }
{
    let mut at = header_octets(f);
    let mut counts = Counts {
        frames: 0,
        octets: header_octets(g),
    };
    // A while: the place moves by whole frames. An iterator over them needs the same invariant, and ends behind its first refusal; and this loop
    // is to be compiled as a whole, since its speed is measured. `Viewer` hands frames out one by one.
    while at < s.len() {
        let (h, n) = read_front(f, &s[at..]).map_err(|refusal| RefusedAt {
            refusal,
            frame: counts.frames as u64,
            octet: at as u64,
        })?;
        counts.octets += octets_of(g, usize::from(h.frame_type));
        at += n;
        counts.frames += 1;
    }
    Ok(counts)
}

// Reads a whole recording: its frames, and the octets that a conversion to `g` writes.
#[tactic(auto, unfolding(recordings::specs::Recordings::read_recording))]
pub fn read_all(f: Format, g: Format, s: &[u8]) -> Result<Counts, RefusedAt>
    ensures { (r : ℕ) → counts_of result ≡ and_then_at (read_recording (format_of f) s.now) (λ xs. done (length xs, length (converted (format_of f) (format_of g) r xs))) }
{
    judge_front(f, LIMIT, s)?;
    scan_frames(f, g, s)
}

// Validates a recording: how many frames it has, or the refusal with its place. An entry.
#[tactic(auto, unfolding(recordings::specs::Recordings::validate_call))]
pub fn validate(format: u64, s: &[u8]) -> Result<Counts, RefusedAt>
    ensures { counts_of result ≡ validate_call format s.now }
{
    let f = Format::try_from(format)?;
    let counts = read_all(f, f, s)?;
    Ok(Counts {
        octets: 0,
        ..counts
    })
}
