// TS 26.201, tables 5 and 6 (IF1) and A.1a, A.2 and A.3 (IF2), as docs/DECISIONS.md corrects them.
ghost use Rattle.std.specs.Prelude.{◌≤◌};

use crate::places::{ROOM, core_of};
use crate::print::Octets;
use std::fmt;
use std::io::Result;

// Octets of an IF1 frame before its core.
const BEFORE_CORE: usize = 3;

#[derive(Clone, Copy)]
enum Table {
    Five,
    Six,
    A1a,
    A2,
}

impl fmt::Display for Table {
    fn fmt<W: fmt::Write>(&self, f: &mut fmt::Formatter<W>) -> fmt::Result {
        match self {
            Table::Five => write!(f, "table 5"),
            Table::Six => write!(f, "table 6"),
            Table::A1a => write!(f, "table A.1a"),
            Table::A2 => write!(f, "table A.2"),
        }
    }
}

// The table's frame, in which d(j) alone is 1, or no bit of the core.
fn frame_of(table: Table, bit: Option<usize>) -> [u8; ROOM] {
    let mut out = [0u8; ROOM];
    match table {
        // 12.65 kbit/s, good, mode request 1
        Table::Five => level_three::amrwb_build_if1(2, 1, 2, 1, &core_of::<32>(bit), &mut out),
        // SID, good, mode request 2
        Table::Six => level_three::amrwb_build_if1(9, 1, 0, 2, &core_of::<5>(bit), &mut out),
        // 8.85 kbit/s, good
        Table::A1a => level_three::amrwb_build_if2(1, 1, &core_of::<23>(bit), &mut out),
        // SID, good
        Table::A2 => level_three::amrwb_build_if2(9, 1, &core_of::<5>(bit), &mut out),
    };
    out
}

// The first octet, behind some, in which the two differ, and its bit. Octets count from 1; an octet's top bit is 8.
fn print_place(
    rt: &impl Print,
    without: &[u8; ROOM],
    with: &[u8; ROOM],
    behind: usize,
) -> Result<()> {
    let place = (1..=ROOM)
        .zip(without.iter().zip(with))
        .skip(behind)
        .find(|(_, (a, b))| a != b);
    if let Some((i, (a, b))) = place {
        print!(rt; " octet {i} bit {}", u8::BITS - (*a ^ *b).leading_zeros())?;
    }
    Ok(())
}

// Where d(j) stands, and in IF1 the CRC of the frame in which it alone is 1.
fn print_bit(rt: &impl Print, table: Table, j: usize) -> Result<()> {
    let without = frame_of(table, None);
    let with = frame_of(table, Some(j));
    print!(rt; "{table} d({j})")?;
    match table {
        Table::Five | Table::Six => {
            print_place(rt, &without, &with, BEFORE_CORE)?;
            println!(rt; " CRC {:02x}", with[2])
        }
        Table::A1a | Table::A2 => {
            print_place(rt, &without, &with, 0)?;
            println!(rt; "")
        }
    }
}

fn print_bits(rt: &impl Print, table: Table, bits: usize) -> Result<()> {
    for j in 0..bits {
        print_bit(rt, table, j)?;
    }
    Ok(())
}

// The table's frame, of n octets, without a bit of the core.
fn print_frame(rt: &impl Print, table: Table, n: usize) -> Result<()>
    requires { n ≤ ROOM }
{
    let frame = frame_of(table, None);
    println!(rt; "{table} frame{}", Octets(&frame[..n]))
}

// What a frame is refused for whose octets are as printed.
fn print_printed(rt: &impl Print, table: Table, frame: &[u8]) -> Result<()> {
    let mut core = [0u8; ROOM];
    let a = level_three::amrwb_read_frame(1, frame, &mut core);
    println!(rt; "{table} printed refusal {}", a.refusal)
}

fn print_table_five(rt: &impl Print) -> Result<()> {
    print_frame(rt, Table::Five, 35)?;
    // type and mode indication 3
    let mut printed = [0u8; 35];
    printed[0] = 0x38;
    printed[1] = 0x31;
    print_printed(rt, Table::Five, &printed)?;
    print_bits(rt, Table::Five, 253)
}

fn print_table_six(rt: &impl Print) -> Result<()> {
    // STI 1, mode 3
    let update = [0, 0, 0, 0, 0x13];
    let mut frame = [0u8; 8];
    level_three::amrwb_build_if1(9, 1, 0, 2, &update, &mut frame);
    println!(rt; "{} frame{}", Table::Six, Octets(&frame))?;
    // type 8
    frame[0] = 0x88;
    print_printed(rt, Table::Six, &frame)?;
    print_bits(rt, Table::Six, 40)
}

// Speech lost or no data.
fn print_table_a3(rt: &impl Print, frame_type: u64, quality: u64) -> Result<()> {
    let mut out = [0u8; 1];
    level_three::amrwb_build_if2(frame_type, quality, b"", &mut out);
    println!(rt;
        "table A.3 type {frame_type} quality {quality} frame{}",
        Octets(&out)
    )
}

pub fn print_tables(rt: &impl Print) -> Result<()> {
    print_table_five(rt)?;
    print_table_six(rt)?;
    print_frame(rt, Table::A1a, 23)?;
    print_bits(rt, Table::A1a, 177)?;
    print_frame(rt, Table::A2, 6)?;
    print_bits(rt, Table::A2, 40)?;
    print_table_a3(rt, 14, 0)?;
    print_table_a3(rt, 14, 1)?;
    print_table_a3(rt, 15, 0)?;
    print_table_a3(rt, 15, 1)
}
