// One recording made of two of its format: both are read, and only then written. `merge` is an entry, and its answer as numbers is for the levels'
// C interface. Octets are copied, and no frame is converted: so IF1's fields come across as they are.
#![tactic(auto)]

ghost use Rattle.std.specs.Prelude.{◌≡◌, List, ◌∷◌, ℕ, ◌+◌, ◌≤◌, max, length};
ghost use Rattle.definitions.specs.Frames.{Frame, layout};
ghost use Rattle.definitions.specs.Reading.{overwritten};
ghost use Rattle.recordings.specs.Recordings.{layouts};
ghost use Rattle.frame.specs.Answers.{number_of, format_of};
ghost use Rattle.recording_reader.specs.Answers.{outside};
ghost use Rattle.joins_spec.specs.Joined.{refused_in};
ghost use Rattle.joins_spec.specs.Joining.{merged, merge_call};
ghost use Rattle.joins.specs.Answers.{refused_of, joined_of, joined_counts, IntoJoined, put_at, Body, NextSlot, both_of, both_read};
ghost use Rattle.joins.specs.Flat.{joined_numbers};

use bits::copy;
use frame::table::octets_of;
use frame::{Format, Refusal, SID};
use frame_tests::type_in;
use recording_reader::{Counts, LIMIT, RefusedAt, header_octets, read_all};

// A refusal with its place, and the recording that is refused: 0 the first, 1 the second; 0 too where neither is.
#[derive(Clone, Copy)]
pub struct RefusedIn {
    pub recording: u64,
    pub at: RefusedAt,
}

impl From<RefusedAt> for RefusedIn {
    ghost from_gives = { λ e r. r ≡ refused_of 0 e };

    fn from(at: RefusedAt) -> RefusedIn {
        RefusedIn { recording: 0, at }
    }
}

impl From<Refusal> for RefusedIn {
    ghost from_gives = { λ e r. r ≡ refused_of 0 (outside e) };

    fn from(refusal: Refusal) -> RefusedIn {
        RefusedIn {
            recording: 0,
            at: refusal.into(),
        }
    }
}

// What the call answers: frames of the result, and octets written; or a refusal. C fixes the layout.
#[repr(C)]
#[derive(Clone, Copy, Default)]
pub struct JoinedAnswer {
    pub refusal: u64,
    pub frame: u64,
    pub octet: u64,
    pub recording: u64,
    pub frames: u64,
    pub octets: u64,
}

// A refusal that concerns neither recording.
impl From<Refusal> for JoinedAnswer {
    ghost from_gives = { λ e a. a ≡ joined_numbers (refused_in 0 (number_of e) 0 0) };

    fn from(e: Refusal) -> JoinedAnswer {
        JoinedAnswer {
            refusal: u64::from(e),
            ..JoinedAnswer::default()
        }
    }
}

impl From<Result<Counts, RefusedIn>> for JoinedAnswer {
    ghost from_gives = { λ r a. a ≡ joined_numbers (joined_counts r) };

    fn from(r: Result<Counts, RefusedIn>) -> JoinedAnswer {
        match r {
            Ok(c) => JoinedAnswer {
                frames: c.frames as u64,
                octets: c.octets as u64,
                ..JoinedAnswer::default()
            },
            Err(e) => JoinedAnswer {
                frame: e.at.frame,
                octet: e.at.octet,
                recording: e.recording,
                ..JoinedAnswer::from(e.at.refusal)
            },
        }
    }
}

// ---- slots

// The octets of the frame that `s` begins with, and those behind them.
fn split_frame(f: Format, s: &[u8]) -> (&[u8], &[u8])
    requires { (x : Frame) × (xs : List Frame) × Body (format_of f) s.now (x ∷ xs) }
    ensures { (x : Frame) (xs : List Frame) → Body (format_of f) s.now (x ∷ xs) → (result.0.now ≡ layout (format_of f) x) × Body (format_of f) result.1.now xs }
{
    let n = octets_of(f, usize::from(type_in(f, s)));
    s.split_at(n)
}

// A slot that both have: the octets of its frame, which is the first's, but the second's where the first's is SPEECH_LOST or NO_DATA; and the octets
// behind it in both.
fn next_slot<'a>(f: Format, a: &'a [u8], b: &'a [u8]) -> (&'a [u8], &'a [u8], &'a [u8])
    requires { (1 ≤ length a.now) × (1 ≤ length b.now) × ((us : List Frame) × Body (format_of f) a.now us) × ((vs : List Frame) × Body (format_of f) b.now vs) }
    ensures { NextSlot (format_of f) a.now b.now result.0.now result.1.now result.2.now }
{
    let (x, behind_x) = split_frame(f, a);
    let (y, behind_y) = split_frame(f, b);
    if u64::from(type_in(f, x)) <= SID {
        (x, behind_x, behind_y)
    } else {
        (y, behind_x, behind_y)
    }
}

// The octets of the merged frames, from the frames of both.
fn merged_octets(f: Format, first: &[u8], second: &[u8]) -> usize
    requires { (xs ys : List Frame) × Body (format_of f) first.now xs × Body (format_of f) second.now ys }
    ensures { ((xs ys : List Frame) → Body (format_of f) first.now xs → Body (format_of f) second.now ys → result ≡ length (layouts (format_of f) (merged xs ys))) × (result ≤ length first.now + length second.now) }
{
    let mut a = first;
    let mut b = second;
    let mut n = 0;
    while a.len() != 0 && b.len() != 0 {
        let (z, behind_a, behind_b) = next_slot(f, a, b);
        n += z.len();
        a = behind_a;
        b = behind_b;
    }
    n + a.len() + b.len()
}

// Puts `s` into `out` from `to` on.
fn put(s: &[u8], out: &mut [u8], to: usize)
    requires { to + length s.now ≤ length out.old }
    ensures { out.new ≡ put_at s.now to out.old }
{
    copy(&mut out[to..to + s.len()], s);
}

// Writes the merged frames into the front of `out`. Behind the slots that both have, at most one of the two has octets left.
fn write_merged(f: Format, first: &[u8], second: &[u8], out: &mut [u8])
    requires { (xs ys : List Frame) × Body (format_of f) first.now xs × Body (format_of f) second.now ys × (length (layouts (format_of f) (merged xs ys)) ≤ length out.old) }
    ensures { (xs ys : List Frame) → Body (format_of f) first.now xs → Body (format_of f) second.now ys → out.new ≡ overwritten (layouts (format_of f) (merged xs ys)) out.old }
{
    let mut a = first;
    let mut b = second;
    let mut to = 0;
    while a.len() != 0 && b.len() != 0 {
        let (z, behind_a, behind_b) = next_slot(f, a, b);
        put(z, out, to);
        to += z.len();
        a = behind_a;
        b = behind_b;
    }
    put(a, out, to);
    put(b, out, to + a.len());
}

// ---- the call

// Two valid recordings of one format: how many frames each has.
#[derive(Clone, Copy)]
struct Both {
    format: Format,
    first_frames: usize,
    second_frames: usize,
}

// Reads two recordings of a format, the first whole before the second.
fn read_both(format: u64, a: &[u8], b: &[u8]) -> Result<Both, RefusedIn>
    ensures { both_of result ≡ both_read format a.now b.now }
{
    let format = Format::try_from(format)?;
    let x = read_all(format, format, a)?;
    let y = read_all(format, format, b).map_err(|at| RefusedIn { recording: 1, at })?;
    Ok(Both {
        format,
        first_frames: x.frames,
        second_frames: y.frames,
    })
}

// Merges two recordings of one format into the output buffer; the file header is the first's. An entry.
pub fn merge(format: u64, a: &[u8], b: &[u8], out: &mut [u8]) -> Result<Counts, RefusedIn>
    ensures { IntoJoined (merge_call format a.now b.now (length out.old)) out.old out.new result }
{
    let both = read_both(format, a, b)?;
    let h = header_octets(both.format);
    let (header, first) = a.split_at(h);
    let (_, second) = b.split_at(h);
    let octets = h + merged_octets(both.format, first, second);
    if LIMIT < octets {
        return Err(Refusal::TooLong.into());
    }
    if out.len() < octets {
        return Err(Refusal::OutputShort.into());
    }
    put(header, out, 0);
    write_merged(both.format, first, second, &mut out[h..]);
    Ok(Counts {
        frames: both.first_frames.max(both.second_frames),
        octets,
    })
}
