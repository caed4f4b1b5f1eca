// The report on a stored recording: how many octets and frames it has, and how many frames of each reception class. `report_recording` is the entry;
// `Report` and `Reported` are `pub` for the C interface and for the program that prints them. A `usize` becomes a `u64` by `as`, since it has no
// `From`: the check proves that nothing is lost.
#![tactic(auto)]

ghost use Rattle.std.specs.Prelude.{◌≡◌, ◌≤◌, length};
ghost use Rattle.definitions.specs.Frames.{storage};
ghost use Rattle.recordings.specs.Placed.{done, and_then_at};
ghost use Rattle.recordings.specs.Recordings.{scan_frames};
ghost use Rattle.recordings.specs.Report.{report_limit, report_of, report_call};
ghost use Rattle.reception.specs.Classes.{reception_of};
ghost use Rattle.report.specs.Answers.{report_counts, reported_of};
ghost use Rattle.report.specs.Counting.{one_more, AtMost};

use frame::Format;
use frame_reader::read_next;
use reception::{Reception, class_of};
use recording_reader::{RefusedAt, header_octets, judge_front};

// The most octets that a report is made of. `pub` for the program that prints it.
pub const REPORT_LIMIT: usize = 65536;

#[derive(Clone, Copy, Default)]
pub struct Report {
    pub octets: usize,
    pub frames: usize,
    pub speech: usize,
    pub sid: usize,
    pub speech_lost: usize,
    pub no_data: usize,
}

// The report, or the refusal with its place.
pub type Reported = Result<Report, RefusedAt>;

impl Report {
    // One frame more.
    fn count(&mut self, class: Reception)
        requires { AtMost 65535 (report_counts self.old) }
        ensures { report_counts self.new ≡ one_more (report_counts self.old) (reception_of class) }
    {
        self.frames += 1;
        match class {
            Reception::Speech(_) => self.speech += 1,
            Reception::Sid(_) => self.sid += 1,
            Reception::SpeechLost => self.speech_lost += 1,
            Reception::NoData => self.no_data += 1,
        }
    }
}

// Counts the frames behind the file header, up to the first that is refused. A loop beside `scan_frames`, which reads by `read_front`: that is for
// the conversion alone.
fn count_frames(s: &[u8]) -> Reported
    requires { (9 ≤ length s.now) × (length s.now ≤ report_limit) }
    ensures { reported_of result ≡ and_then_at (scan_frames storage s.now) (λ xs. done (report_of (length s.now) xs)) }
{
    let mut at = header_octets(Format::Storage);
    let mut report = Report {
        octets: s.len(),
        ..Report::default()
    };
    // A while: the place moves by whole frames. An iterator over them needs the same invariant, and ends behind its first refusal.
    while at < s.len() {
        let (h, n) = read_next(Format::Storage, &s[at..]).map_err(|refusal| RefusedAt {
            refusal,
            frame: report.frames as u64,
            octet: at as u64,
        })?;
        // STI only tells classes of SID frames apart, and those are counted as one.
        report.count(class_of(u64::from(h.frame_type), h.quality == 1, false));
        at += n;
    }
    Ok(report)
}

// The report on a recording, or the refusal with its place. An entry.
#[tactic(auto, unfolding(recordings::specs::Report::report_call, recordings::specs::Recordings::read_recording))]
pub fn report_recording(s: &[u8]) -> Reported
    ensures { reported_of result ≡ report_call s.now }
{
    judge_front(Format::Storage, REPORT_LIMIT, s)?;
    count_frames(s)
}
