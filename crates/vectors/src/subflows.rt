// TS 26.202, table 6-2: three sets of sub-flow combinations, with nothing in a third sub-flow. A frame of each goes up and comes down again.
// Counts are C's u64, of which usize has no `From`: the casts lose nothing.
ghost use Rattle.std.specs.Prelude.{◌≤◌};

use crate::print::Octets;
use links::Link;
use std::io::Result;

// Room for a sub-flow or a frame, in octets; a sub-flow has at most 477 bits.
const ROOM: usize = 64;

// Numbers of a combination: RFCI, type, and the bits of the three sub-flows.
const COMBINATION: usize = 5;

// Octets of a sub-flow.
fn octets_of(bits: u64) -> usize
    ensures { result ≤ ROOM }
{
    (bits.div_ceil(8) as usize).min(ROOM)
}

// A sub-flow of so many bits, all 1, with its filling 0.
fn all_ones(bits: u64) -> [u8; ROOM] {
    let mut s = [0xFFu8; ROOM];
    if let Some(last) = s.get_mut(bits as usize / 8) {
        *last = !(0xFF >> (bits % 8));
    }
    s
}

// The first n octets.
fn front(s: &[u8; ROOM], n: u64) -> Octets<'_> {
    Octets(&s[..(n as usize).min(ROOM)])
}

// Down of a frame.
fn print_down(rt: &impl Print, example: u64, rfci: u64, link: Link, frame: &[u8]) -> Result<Link> {
    let mut s1 = [0u8; ROOM];
    let mut s2 = [0u8; ROOM];
    let mut s3 = [0u8; ROOM];
    let d = level_three::amrwb_link_down(link, frame, &mut s1, &mut s2, &mut s3);
    print!(rt;
        "table 6-2 example {example} RFCI {rfci} down FQC {} RFCI {}",
        d.fqc, d.rfci
    )?;
    print!(rt; " forwarded {} request {}", d.forwarded, d.request)?;
    print!(rt; " sub-flow 1{}", front(&s1, d.n1))?;
    print!(rt; " sub-flow 2{}", front(&s2, d.n2))?;
    println!(rt; " sub-flow 3{}", front(&s3, d.n3))?;
    Ok(d.link)
}

// Up and then Down of one combination. The first sub-flow begins with 0xA5 and is else 0; the second has every bit 1.
fn print_both(
    rt: &impl Print,
    example: u64,
    rfci: u64,
    size1: u64,
    size2: u64,
    link: Link,
) -> Result<Link> {
    let mut s1 = [0u8; ROOM];
    s1[0] = 0xA5;
    let s2 = all_ones(size2);
    let n1 = octets_of(size1);
    let n2 = octets_of(size2);
    let mut out = [0u8; ROOM];
    let a = level_three::amrwb_link_up(link, 0, rfci, &s1[..n1], &s2[..n2], b"", &mut out);
    println!(rt;
        "table 6-2 example {example} RFCI {rfci} up{}",
        front(&out, a.octets)
    )?;
    match out.get(..a.octets as usize) {
        Some(frame) => print_down(rt, example, rfci, link, frame),
        None => Ok(link),
    }
}

// Every combination of a set.
fn print_rows(rt: &impl Print, example: u64, rows: &[u64], set: Link) -> Result<()> {
    let mut link = set;
    let (combinations, _) = rows.as_chunks::<COMBINATION>();
    for [rfci, _, size1, size2, _] in combinations {
        link = print_both(rt, example, *rfci, *size1, *size2, link)?;
    }
    Ok(())
}

fn print_example(rt: &impl Print, example: u64, rows: &[u64]) -> Result<()> {
    let rated = level_three::amrwb_link_rate(level_three::amrwb_link_fresh(), 3);
    let assigned = level_three::amrwb_link_assign(rated.link, rows);
    println!(rt;
        "table 6-2 example {example} assign refusal {}",
        assigned.refusal
    )?;
    print_rows(rt, example, rows, assigned.link)
}

pub fn print_tables(rt: &impl Print) -> Result<()> {
    let one = [
        1, 9, 40, 0, 0, 2, 0, 54, 78, 0, 3, 1, 64, 113, 0, 4, 2, 72, 181, 0,
    ];
    let two = [
        1, 9, 40, 0, 0, 2, 0, 54, 78, 0, 3, 1, 64, 113, 0, 4, 2, 72, 181, 0, 5, 4, 73, 244, 0,
    ];
    let three = [
        1, 9, 40, 0, 0, 2, 0, 54, 78, 0, 3, 1, 64, 113, 0, 4, 2, 72, 181, 0, 5, 8, 74, 403, 0,
    ];
    print_example(rt, 1, &one)?;
    print_example(rt, 2, &two)?;
    print_example(rt, 3, &three)
}
