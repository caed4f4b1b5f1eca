// The reader of sheets: the mode and the ordering table in a text that a user supplies, and its answer as numbers (include/amrwb.h), for level two.
// A first pass over the text tests everything, and a second writes the table, so that a refused call leaves the output buffer.
#![tactic(auto)]

ghost use Rattle.std.specs.Prelude.{◌≡◌, ℕ, List, ◌<◌, ◌≤◌, length, IfSome};
ghost use Rattle.definitions.specs.Outcome.{ok, and_then};
ghost use Rattle.frame.specs.Answers.{outcome_of};
ghost use Rattle.order_sheets_spec.specs.Sheets.{digits, number, field, line, head, sheet_call};
ghost use Rattle.order_sheets.specs.Answers.{capped, shown, front, table_in, sheet_of, IntoNumbers};
ghost use Rattle.order_sheets.specs.Flat.{sheet_numbers};

use frame::table::core_bits;
use frame::{HIGHEST_MODE, Refusal};
use ordering::{HIGHEST_TABLED, LONGEST, mark};

// The mode of a sheet that was read, and how many numbers were written.
#[derive(Clone, Copy)]
pub struct Sheet {
    pub mode: u16,
    pub numbers: usize,
}

// What the call answers: mode and numbers written; or a refusal. C fixes the layout.
#[repr(C)]
#[derive(Clone, Copy, Default)]
pub struct SheetAnswer {
    pub refusal: u64,
    pub frame: u64,
    pub octet: u64,
    pub mode: u64,
    pub numbers: u64,
}

// ---- the parts of a text

// The rest of a number whose first digit is read, up to the octet `end`, and the text behind it. 65,535 stands for every larger number too: no
// complete table has it.
fn digits(s: &[u8], first: u16, end: u8) -> Option<(u16, &[u8])>
    ensures { (n : ℕ) → capped n ≡ first → front result ≡ shown (digits end n s.now) }
{
    let mut v = first;
    for (i, c) in s.iter().enumerate() {
        if *c == end {
            return Some((v, &s[i + 1..]));
        }
        // No digit stands behind a first 0.
        if !c.is_ascii_digit() || v == 0 {
            return None;
        }
        v = v.saturating_mul(10).saturating_add(u16::from(*c - b'0'));
    }
    None
}

// A number of one digit or more, up to the octet `end`.
fn number(s: &[u8], end: u8) -> Option<(u16, &[u8])>
    ensures { front result ≡ shown (number end s.now) }
{
    let (c, rest) = s.split_first()?;
    if !c.is_ascii_digit() {
        return None;
    }
    digits(rest, u16::from(*c - b'0'), end)
}

// A word, and the number behind it.
fn field<'a>(s: &'a [u8], word: &[u8], end: u8) -> Option<(u16, &'a [u8])>
    ensures { front result ≡ shown (field word.now end s.now) }
{
    number(s.strip_prefix(word)?, end)
}

// The number in the line of d(j).
fn line(s: &[u8], j: usize) -> Option<(u16, &[u8])>
    requires { j < 65535 }
    ensures { front result ≡ shown (line j s.now) }
{
    let (i, rest) = field(s, b"d", b'=')?;
    if usize::from(i) != j {
        return None;
    }
    number(rest, b'\n')
}

// The mode in the first two lines.
fn head(s: &[u8]) -> Option<(u16, &[u8])>
    ensures read { front result ≡ shown (head s.now) }
    ensures range { IfSome result (λ r. (4 < r.0) × (r.0 ≤ 8)) }
{
    let (mode, rest) = field(s, b"mode=", b'\n')?;
    let m = u64::from(mode);
    if m <= HIGHEST_TABLED || HIGHEST_MODE < m {
        return None;
    }
    let (bits, lines) = field(rest, b"bits=", b'\n')?;
    if usize::from(bits) != core_bits(usize::from(mode)) {
        return None;
    }
    Some((mode, lines))
}

// ---- the call

// The tests of a sheet's k lines: each has the form, nothing stands behind them, and no number is missing.
fn judge_lines(s: &[u8], k: usize) -> Result<(), Refusal>
    requires { k ≤ 477 }
    ensures { outcome_of (λ u. u) result ≡ and_then (table_in k s.now) (λ t. ok tt) }
{
    let mut seen = [false; LONGEST];
    let mut complete = true;
    let mut rest = s;
    for j in 0..k {
        let (n, behind) = line(rest, j).ok_or(Refusal::SheetForm)?;
        // Reading goes on: a later line that lacks the form comes first.
        complete &= mark(&mut seen, k, n);
        rest = behind;
    }
    if !rest.is_empty() {
        return Err(Refusal::SheetForm);
    }
    if !complete {
        return Err(Refusal::SheetIncomplete);
    }
    Ok(())
}

// Writes the numbers of a sheet's lines, which were tested.
fn write_lines(s: &[u8], numbers: &mut [u16])
    requires { length numbers.old ≤ 477 }
    ensures { (table : List ℕ) → table_in (length numbers.old) s.now ≡ ok table → numbers.new ≡ table }
{
    let mut rest = s;
    for (j, n) in numbers.iter_mut().enumerate() {
        // There is one: the lines were tested.
        let Some((number, behind)) = line(rest, j) else {
            return;
        };
        *n = number;
        rest = behind;
    }
}

// Reads a sheet: its mode, and its table to the front of `numbers`. An entry.
pub fn read_sheet(text: &[u8], numbers: &mut [u16]) -> Result<Sheet, Refusal>
    ensures { IntoNumbers (sheet_call text.now (length numbers.old)) numbers.old numbers.new result }
{
    let (mode, lines) = head(text).ok_or(Refusal::SheetForm)?;
    let k = core_bits(usize::from(mode));
    judge_lines(lines, k)?;
    if numbers.len() < k {
        return Err(Refusal::OutputShort);
    }
    write_lines(lines, &mut numbers[..k]);
    Ok(Sheet { mode, numbers: k })
}

// ---- its answer as numbers

impl From<Result<Sheet, Refusal>> for SheetAnswer {
    ghost from_gives = { λ r a. a ≡ sheet_numbers (sheet_of r) };

    fn from(r: Result<Sheet, Refusal>) -> SheetAnswer {
        match r {
            Ok(s) => SheetAnswer {
                mode: u64::from(s.mode),
                numbers: s.numbers as u64,
                ..SheetAnswer::default()
            },
            Err(e) => SheetAnswer {
                refusal: u64::from(e),
                ..SheetAnswer::default()
            },
        }
    }
}
