// Sheets of modes 5 to 8 (document 02, h): read from their text, the place in the row of each bit of the core by them, and refused calls.
ghost use Rattle.std.specs.Prelude.{◌≤◌};

use crate::orders::print_numbers;
use crate::places::{ROOM, core_of};
use std::fmt;
use std::fmt::Write;
use std::io::Result;

// Room for a text, in octets: the longest sheet has 4,089.
const TEXT_ROOM: usize = 4096;

// A text in a buffer of its own: no heap.
#[derive(Drop)]
struct Text {
    octets: [u8; TEXT_ROOM],
    len: usize,
}

impl Text {
    fn octets(&self) -> &[u8] {
        match self.octets.get(..self.len) {
            Some(octets) => octets,
            None => &[],
        }
    }
}

impl fmt::Write for Text {
    fn write_str(&mut self, s: &str) -> fmt::Result {
        for o in s.as_bytes() {
            let Some(place) = self.octets.get_mut(self.len) else {
                return Err(fmt::Error);
            };
            *place = *o;
            self.len += 1;
        }
        Ok(())
    }
}

// The text of a sheet in which d(j) has the number j + 1, and the last of them another one: 0 where the sheet is right.
fn sheet_text(mode: u64, bits: usize, last: usize) -> Result<Text> {
    let mut text = Text {
        octets: [0; TEXT_ROOM],
        len: 0,
    };
    write!(text, "mode={mode}\nbits={bits}\n")?;
    for j in 0..bits {
        let next = j + 1;
        let number = if next < bits { next } else { last };
        writeln!(text, "d{j}={number}")?;
    }
    Ok(text)
}

// Reads such a text, and answers how many numbers were written.
fn print_sheet(
    rt: &impl Print,
    mode: u64,
    bits: usize,
    last: usize,
    numbers: &mut [u16],
) -> Result<u64> {
    let text = sheet_text(mode, bits, last)?;
    let a = level_three::amrwb_sheet_read(text.octets(), numbers);
    print!(rt;
        "sheet mode {mode} bits {bits} last {last} room {}",
        numbers.len()
    )?;
    println!(rt;
        " refusal {} mode {} numbers {}",
        a.refusal, a.mode, a.numbers
    )?;
    Ok(a.numbers)
}

// A right sheet, and its mode's table by it.
fn print_by_sheet<const N: usize>(rt: &impl Print, mode: u64, bits: usize) -> Result<()>
    requires { N ≤ ROOM }
{
    let mut numbers = [0u16; ROOM];
    let n = print_sheet(rt, mode, bits, 0, &mut numbers)?;
    print!(rt; "table by the sheet of mode {mode}")?;
    match numbers.get(..n as usize) {
        Some(sheet) => print_numbers::<N>(rt, mode, sheet, bits),
        None => println!(rt; ""),
    }
}

// What a core of mode 5 is refused for with a sheet.
fn print_order(rt: &impl Print, sheet: &[u16]) -> Result<()> {
    let mut row = [0u8; ROOM];
    let a = level_three::amrwb_order_to_row(5, sheet, &core_of::<46>(None), &mut row);
    println!(rt;
        "order mode 5 numbers {} refusal {}",
        sheet.len(),
        a.refusal
    )
}

// Right sheets of every mode; a buffer that is one number short, a number whose low 16 bits are 0, and a mode that has no sheet; orders with no
// sheet, and with sheets of another length and of nothing but 0.
pub fn print_calls(rt: &impl Print) -> Result<()> {
    print_by_sheet::<46>(rt, 5, 365)?;
    print_by_sheet::<50>(rt, 6, 397)?;
    print_by_sheet::<58>(rt, 7, 461)?;
    print_by_sheet::<60>(rt, 8, 477)?;
    print_sheet(rt, 5, 365, 0, &mut [0; 364])?;
    print_sheet(rt, 5, 365, 65536, &mut [0; 365])?;
    print_sheet(rt, 4, 317, 0, &mut [0; 365])?;
    print_order(rt, &[])?;
    print_order(rt, &[0; 364])?;
    print_order(rt, &[0; 365])
}
