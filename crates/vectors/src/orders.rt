// TS 26.201, tables B.1 to B.5: the place in the codec's row of each bit of the core.
ghost use Rattle.std.specs.Prelude.{◌≤◌};

use crate::places::{ROOM, core_of};
use std::io::Result;

// Numbers of a table that stand in one line.
const LINE: usize = 10;

// table(j), with what stands before it in its line: the place in the row of the core's d(j).
fn print_entry<const N: usize>(rt: &impl Print, mode: u64, sheet: &[u16], j: usize) -> Result<()>
    requires { N ≤ ROOM }
{
    let mut row = [0u8; ROOM];
    level_three::amrwb_order_to_row(mode, sheet, &core_of::<N>(Some(j)), &mut row);
    let before = if j % LINE == 0 { '\n' } else { ' ' };
    if let Some(place) = row.iter().position(|o| *o != 0) {
        print!(rt; "{before}{place}")?;
    }
    Ok(())
}

// The numbers of the table of a mode whose core has so many bits, in N octets.
pub fn print_numbers<const N: usize>(
    rt: &impl Print,
    mode: u64,
    sheet: &[u16],
    bits: usize,
) -> Result<()>
    requires { N ≤ ROOM }
{
    for j in 0..bits {
        print_entry::<N>(rt, mode, sheet, j)?;
    }
    println!(rt; "")
}

// Modes 0 to 4 need no sheet.
fn print_table<const N: usize>(rt: &impl Print, table: u64, mode: u64, bits: usize) -> Result<()>
    requires { N ≤ ROOM }
{
    print!(rt; "table B.{table}")?;
    print_numbers::<N>(rt, mode, &[], bits)
}

pub fn print_tables(rt: &impl Print) -> Result<()> {
    print_table::<17>(rt, 1, 0, 132)?;
    print_table::<23>(rt, 2, 1, 177)?;
    print_table::<32>(rt, 3, 2, 253)?;
    print_table::<36>(rt, 4, 3, 285)?;
    print_table::<40>(rt, 5, 4, 317)
}
