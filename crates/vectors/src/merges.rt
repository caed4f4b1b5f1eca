// Two recordings of the same talk merged (document 02, n): their octets, and what the call answers and writes.
use crate::print::Octets;
use std::io::Result;

// Room for a merged recording, in octets.
const ROOM: usize = 64;

// In storage format: SID; SPEECH_LOST; a bad SID frame; NO_DATA; SPEECH_LOST.
const SHORTER: &[u8] = b"#!AMR-WB\n\
    \x4c\x11\x11\x11\x11\x13\
    \x70\
    \x48\x22\x22\x22\x22\x12\
    \x7c\
    \x70";

// SID; speech of type 0; SID; a bad SID frame; NO_DATA marked bad; SID; SPEECH_LOST.
const LONGER: &[u8] = b"#!AMR-WB\n\
    \x4c\x33\x33\x33\x33\x10\
    \x04\x77\x77\x77\x77\x77\x77\x77\x77\x77\x77\x77\x77\x77\x77\x77\x77\x70\
    \x4c\x44\x44\x44\x44\x18\
    \x48\x55\x55\x55\x55\x03\
    \x78\
    \x4c\x66\x66\x66\x66\x11\
    \x70";

// In IF1: SID, request 2; NO_DATA; a bad SID frame, request 6.
const IF1_SHORTER: &[u8] = b"\x98\x02\xa5\x00\x00\x00\x00\x13\
    \xf8\
    \x90\x06\xa5\x00\x00\x00\x00\x13";

// SID, request 7; speech of type 0, indication 8, request 3; SID, requests 1 and 8.
const IF1_LONGER: &[u8] = b"\x98\x07\xa5\x00\x00\x00\x00\x13\
    \x08\x83\x00\x00\x00\x00\x00\x00\x00\x00\x00\x00\x00\x00\x00\x00\x00\x00\x00\x00\
    \x98\x01\xa5\x00\x00\x00\x00\x13\
    \x98\x08\xa5\x00\x00\x00\x00\x13";

const NO_FRAMES: &[u8] = b"#!AMR-WB\n";

// A spare bit 1 in the second frame.
const SPARE_BIT: &[u8] = b"#!AMR-WB\n\x7c\x7d";

// Type 10 in the second frame.
const RESERVED_TYPE: &[u8] = b"#!AMR-WB\n\x7c\x50";

fn print_merge(
    rt: &impl Print,
    format: u64,
    first: &[u8],
    second: &[u8],
    out: &mut [u8],
) -> Result<()> {
    println!(rt; "merge format {format} first{}", Octets(first))?;
    println!(rt; "merge format {format} second{}", Octets(second))?;
    let a = level_three::amrwb_merge(format, first, second, out);
    print!(rt;
        "merge format {format} room {} refusal {} recording {}",
        out.len(),
        a.refusal,
        a.recording
    )?;
    print!(rt;
        " frame {} octet {} frames {} octets",
        a.frame, a.octet, a.frames
    )?;
    match out.get(..a.octets as usize) {
        Some(octets) => println!(rt; "{}", Octets(octets)),
        None => println!(rt; ""),
    }
}

// Either as the first; a recording with itself; IF1 with its fields; IF2 into a buffer that just fits; recordings without frames.
fn print_merged(rt: &impl Print) -> Result<()> {
    print_merge(rt, 3, SHORTER, LONGER, &mut [0; ROOM])?;
    print_merge(rt, 3, LONGER, SHORTER, &mut [0; ROOM])?;
    print_merge(rt, 3, SHORTER, SHORTER, &mut [0; ROOM])?;
    print_merge(rt, 1, IF1_SHORTER, IF1_LONGER, &mut [0; ROOM])?;
    print_merge(rt, 2, b"\xf8", b"\x98\x00\x00\x00\x00\x98", &mut [0; 6])?;
    print_merge(rt, 3, NO_FRAMES, LONGER, &mut [0; ROOM])?;
    print_merge(rt, 3, NO_FRAMES, NO_FRAMES, &mut [0; ROOM])
}

// The second's frame; the first's, whatever the second's is; the second's header; a buffer that is one octet short; formats out of their range.
fn print_refused(rt: &impl Print) -> Result<()> {
    print_merge(rt, 3, SHORTER, RESERVED_TYPE, &mut [0; ROOM])?;
    print_merge(rt, 3, SPARE_BIT, RESERVED_TYPE, &mut [0; ROOM])?;
    print_merge(rt, 3, SHORTER, IF1_LONGER, &mut [0; ROOM])?;
    print_merge(rt, 3, SHORTER, LONGER, &mut [0; 52])?;
    print_merge(rt, 4, SPARE_BIT, RESERVED_TYPE, &mut [0; ROOM])?;
    print_merge(rt, 259, SHORTER, LONGER, &mut [0; ROOM])
}

pub fn print_calls(rt: &impl Print) -> Result<()> {
    print_merged(rt)?;
    print_refused(rt)
}
