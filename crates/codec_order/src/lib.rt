// Codec order: the codec's bits, one octet of 0 or 1 for each, put in the order of the core frame and back. `order_to_core` and
// `order_to_row` are entries; in the modes 5 to 8 the user supplies their table, a sheet. Mode, sheet, source and target are separate
// arguments: a struct of them would borrow the target.
#![tactic(auto)]

ghost use Rattle.std.specs.Prelude.{◌≡◌, true, ◌&&◌, ◌≤◌, IfOk, leb, length};
ghost use Rattle.definitions.specs.Outcome.{ok, unless};
ghost use Rattle.definitions.specs.Frames.{core_bits};
ghost use Rattle.definitions.specs.Reading.{counted};
ghost use Rattle.definitions.specs.Order.{sheet_sized, sheet_lent, sheet_complete, to_core_call, to_row_call};
ghost use Rattle.frame.specs.Answers.{built_of};
ghost use Rattle.frame_builder.specs.Output.{IntoOutput};

use frame::table::core_bits;
use frame::{Refusal, mode_numbered};
use frame_builder::core_fill_clear;
use order_tables::{put_core, put_row};
use ordering::{HIGHEST_TABLED, none_missing, zero_or_one};

// The first tests of either call, of the mode and of the sheet's length: the core's bits in the mode.
fn bits_in(mode: u64, sheet: &[u16]) -> Result<usize, Refusal>
    ensures judged { built_of result ≡ unless 11 (leb mode 8 && sheet_sized mode sheet.now) (ok (core_bits mode)) }
    ensures bound { IfOk result (λ k. k ≤ 477) }
{
    let m = mode_numbered(mode)?;
    let k = core_bits(usize::from(m));
    if HIGHEST_TABLED < mode && !sheet.is_empty() && sheet.len() != k {
        return Err(Refusal::ArgumentRange);
    }
    Ok(k)
}

// The last tests of either call, which writes `n` octets: the mode has a table, and they have room.
fn octets_written(mode: u64, sheet: &[u16], n: usize, room: usize) -> Result<usize, Refusal>
    requires { (sheet_sized mode sheet.now ≡ true) × (core_bits mode ≤ 477) }
    ensures { built_of result ≡ unless 12 (sheet_lent mode sheet.now) (unless 24 (sheet_complete mode sheet.now) (unless 10 (leb n room) (ok n))) }
{
    if HIGHEST_TABLED < mode {
        if sheet.is_empty() {
            return Err(Refusal::NoCodecOrder);
        }
        if !none_missing(sheet) {
            return Err(Refusal::SheetIncomplete);
        }
    }
    if room < n {
        return Err(Refusal::OutputShort);
    }
    Ok(n)
}

// The tests of the call from row to core, in document 01's order: the octets that it writes, or the refusal.
fn judge_row(mode: u64, sheet: &[u16], row: &[u8], room: usize) -> Result<usize, Refusal>
    ensures { built_of result ≡ counted (to_core_call mode sheet.now row.now room) }
{
    let k = bits_in(mode, sheet)?;
    if row.len() != k {
        return Err(Refusal::ArgumentRange);
    }
    if !zero_or_one(row) {
        return Err(Refusal::ArgumentRange);
    }
    octets_written(mode, sheet, k.div_ceil(8), room)
}

// The same of the call from core to row. Two functions: what they share is `bits_in` and `octets_written`.
fn judge_core(mode: u64, sheet: &[u16], core: &[u8], room: usize) -> Result<usize, Refusal>
    ensures { built_of result ≡ counted (to_row_call mode sheet.now core.now room) }
{
    let k = bits_in(mode, sheet)?;
    if core.len() != k.div_ceil(8) {
        return Err(Refusal::ArgumentRange);
    }
    if !core_fill_clear(core, k) {
        return Err(Refusal::SpareBit);
    }
    octets_written(mode, sheet, k, room)
}

// From the codec's row to the packed core. An entry.
pub fn order_to_core(
    mode: u64,
    sheet: &[u16],
    row: &[u8],
    core: &mut [u8],
) -> Result<usize, Refusal>
    ensures { IntoOutput (to_core_call mode sheet.now row.now (length core.old)) core.old core.new result }
{
    let n = judge_row(mode, sheet, row, core.len())?;
    put_core(mode, sheet, row, core);
    Ok(n)
}

// From the packed core to the codec's row. An entry.
pub fn order_to_row(mode: u64, sheet: &[u16], core: &[u8], row: &mut [u8]) -> Result<usize, Refusal>
    ensures { IntoOutput (to_row_call mode sheet.now core.now (length row.old)) row.old row.new result }
{
    let n = judge_core(mode, sheet, core, row.len())?;
    put_row(mode, sheet, core, row);
    Ok(n)
}
