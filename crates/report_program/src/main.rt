// Reads a stored recording from standard input and prints the report on it. What is printed is proved, in `text`; what is read and what
// reaches standard output is the system's.
#![tactic(auto)]

mod text;

ghost use Rattle.std.specs.Prelude.{◌≤◌, IfOk, length};

use report::REPORT_LIMIT;
use std::io;
use std::io::Read;
use std::process::ExitCode;
use text::TEXT_ROOM;

// One octet more than a report may have, so that a longer input is seen to be longer.
const ROOM: usize = REPORT_LIMIT + 1;

// Reads until the input ends or the buffer is full, and answers how many octets came: a fixed buffer and a count, since there is no heap. A read may
// bring fewer octets than there are.
fn read_input(from: &mut impl Read, buf: &mut [u8]) -> io::Result<usize>
    ensures { IfOk result (λ n. n ≤ length buf.new) }
{
    let mut n = 0;
    // A while: a read moves the place by as many octets as it brings.
    while n < buf.len() {
        let more = from.read(&mut buf[n..])?;
        if more == 0 {
            break;
        }
        n += more;
    }
    Ok(n)
}

// A message on standard error and the exit status tell of a failure.
fn main(rt: HostRuntime) -> ExitCode {
    let mut buf = [0u8; ROOM];
    let Ok(n) = read_input(&mut rt.stdin(), &mut buf) else {
        let _ = eprintln!(rt; "report: standard input cannot be read");
        return ExitCode::FAILURE;
    };
    let mut out = [0u8; TEXT_ROOM];
    let k = text::report_text(&buf[..n], &mut out);
    if rt.write_all(&out[..k]).is_err() {
        let _ = eprintln!(rt; "report: standard output cannot be written");
        return ExitCode::FAILURE;
    }
    ExitCode::SUCCESS
}
