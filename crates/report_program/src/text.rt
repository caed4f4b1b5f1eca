// The report as text, put together in a buffer of at least 256 octets: its lines have at most 175. No `Display`, whose law speaks only of where it
// answers `Ok`, so that a text which is never printed would meet it: here the octets are promised for every recording.
#![tactic(auto)]

ghost use Rattle.std.specs.Prelude.{◌≡◌, ◌++◌, ◌+◌, ◌≤◌, length, take};
ghost use Rattle.std.specs.Fmt as printed;
ghost use Rattle.definitions.specs.Decimal.{decimal};
ghost use Rattle.recordings.specs.Placed.{refused_at, done};
ghost use Rattle.recordings.specs.Report.{report_call};
ghost use Rattle.frame.specs.Answers.{number_of};
ghost use Rattle.report.specs.Answers.{report_counts};
ghost use Rattle.report_program.specs.Text.{line, report_text};

use frame::Refusal;
use report::{Report, report_recording};

// How many octets a buffer for the text has.
pub const TEXT_ROOM: usize = 256;

// Puts `s` behind the first `at` octets of the text.
fn put(s: &[u8], out: &mut [u8], at: usize) -> usize
    requires { at + length s.now ≤ length out.old }
    ensures { (result ≡ at + length s.now) × (take result out.new ≡ take at out.old ++ s.now) }
{
    let end = at + s.len();
    out[at..end].copy_from_slice(s);
    end
}

// Puts a number in decimal behind the first `at` octets of the text, as `{}` prints it: the digits of its tenth part, and its last digit. It calls
// itself at most 19 times.
#[tactic(auto, using(crate::proofs::DigitLaws::decimal_digit, crate::proofs::DigitLaws::decimal_longer, crate::proofs::DigitLaws::decimal_printed))]
fn put_number(n: u64, out: &mut [u8], at: usize) -> usize
    requires { at + length (decimal n) ≤ length out.old }
    ensures { (result ≡ at + length (decimal n)) × (take result out.new ≡ take at out.old ++ decimal n) × (take result out.new ≡ take at out.old ++ printed.decimal n) }
{
    if n < 10 {
        return put(&[b'0' + n as u8], out, at);
    }
    let at = put_number(n / 10, out, at);
    put(&[b'0' + (n % 10) as u8], out, at)
}

// Puts a line behind the first `at` octets of the text: a number has at most 20 digits, and a line feed follows.
#[tactic(auto, using(crate::proofs::DigitLaws::decimal_few))]
fn put_line(label: &[u8], n: u64, out: &mut [u8], at: usize) -> usize
    requires { at + length label.now + 21 ≤ length out.old }
    ensures { (result ≤ at + length label.now + 21) × (take result out.new ≡ take at out.old ++ line label.now n) }
{
    let at = put(label, out, at);
    let at = put_number(n, out, at);
    put(b"\n", out, at)
}

// The lines of a report.
#[tactic(auto, unfolding(crate::specs::Text::report_text))]
fn counts_text(r: Report, out: &mut [u8]) -> usize
    requires { 256 ≤ length out.old }
    ensures { (result ≤ 256) × (take result out.new ≡ report_text (done (report_counts r))) }
{
    let at = put_line(b"format=", 3, out, 0);
    let at = put_line(b"octets=", r.octets as u64, out, at);
    let at = put_line(b"frames=", r.frames as u64, out, at);
    let at = put_line(b"speech=", r.speech as u64, out, at);
    let at = put_line(b"comfort=", r.sid as u64, out, at);
    let at = put_line(b"lost=", r.speech_lost as u64, out, at);
    put_line(b"empty=", r.no_data as u64, out, at)
}

// The lines of a refused recording.
#[tactic(auto, unfolding(crate::specs::Text::report_text))]
fn refusal_text(e: Refusal, frame: u64, octet: u64, out: &mut [u8]) -> usize
    requires { 256 ≤ length out.old }
    ensures { (result ≤ 256) × (take result out.new ≡ report_text (refused_at (number_of e) frame octet)) }
{
    let at = put_line(b"refusal=", u64::from(e), out, 0);
    let at = put_line(b"frame=", frame, out, at);
    put_line(b"octet=", octet, out, at)
}

// The text of the report on a recording, at the start of the buffer; how many octets it has.
pub fn report_text(s: &[u8], out: &mut [u8]) -> usize
    requires { 256 ≤ length out.old }
    ensures { (result ≤ 256) × (take result out.new ≡ report_text (report_call s.now)) }
{
    match report_recording(s) {
        Ok(r) => counts_text(r, out),
        Err(e) => refusal_text(e.refusal, e.frame, e.octet, out),
    }
}
