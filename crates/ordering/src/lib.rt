// Bits put in order by a table, and back: the codec's row, one octet of 0 or 1 for each bit, and the packed core; and the test that a table
// is a permutation, by marks. Its public functions are `pub` for the crates of codec order and of sheets; each asks what their callers have
// shown, of the table only that it is a permutation, or for the test that it is no longer than the longest core.
#![tactic(auto)]

ghost use Rattle.std.specs.Prelude.{◌≡◌, true, false, not, ◌&&◌, cond, ℕ, ◌*◌, ◌≤◌, ◌<◌, length, get_or, set, take, ltb};
ghost use Rattle.bits.specs.Bits.{num, bits, pack, octets_for};
ghost use Rattle.definitions.specs.Reading.{overwritten};
ghost use Rattle.definitions.specs.Order.{zero_or_one, row_bits, row_octets, ordered, unordered, none_missing};
ghost use Rattle.definitions.specs.Claims.{Permutes};

// How many bits the longest core has, and so how many numbers a table has at most.
pub const LONGEST: usize = 477;

// The highest mode whose table is the adapter's own. Up to it no sheet is read.
pub const HIGHEST_TABLED: u64 = 4;

// Every octet of a row is 0 or 1.
pub fn zero_or_one(row: &[u8]) -> bool
    ensures { result ≡ zero_or_one row.now }
{
    row.iter().all(|o| *o <= 1)
}

// The number that the bits of a row write which a part of the table names.
fn gather(part: &[u16], row: &[u8]) -> u8
    requires { ((k : ℕ) → k < length part.now → get_or part.now k 0 < length row.now) × (zero_or_one row.now ≡ true) × (length part.now ≤ 8) }
    ensures { result ≡ num (length part.now) (ordered part.now (row_bits row.now)) }
{
    let mut v: u8 = 0;
    for n in part {
        v = v * 2 + row[usize::from(*n)];
    }
    v
}

// Puts the core of a row to the front of `core`, packed.
pub fn core_by(table: &[u16], row: &[u8], core: &mut [u8])
    requires { Permutes (length row.now) table.now × (zero_or_one row.now ≡ true) × (octets_for (length table.now) ≤ length core.old) }
    ensures { core.new ≡ overwritten (pack (ordered table.now (row_bits row.now))) core.old }
{
    // Over arrays of eight numbers the compiler unrolls the loop of `gather`.
    let (parts, rest) = table.as_chunks::<8>();
    for (j, part) in parts.iter().enumerate() {
        core[j] = gather(part, row);
    }
    if !rest.is_empty() {
        core[parts.len()] = gather(rest, row) << (8 - rest.len());
    }
}

// Puts the row of a packed core to the front of `row`.
pub fn row_by(table: &[u16], core: &[u8], row: &mut [u8])
    requires { Permutes (length table.now) table.now × (length table.now ≤ 8 * length core.now) × (length table.now ≤ length row.old) }
    ensures { row.new ≡ overwritten (row_octets (unordered table.now (take (length table.now) (bits core.now)))) row.old }
{
    for (j, n) in table.iter().enumerate() {
        row[usize::from(*n)] = u8::from(bits::bit_at(core, j));
    }
}

// Marks a number below k that has no mark yet; false for any other.
pub fn mark(seen: &mut [bool], k: usize, n: u16) -> bool
    requires { k ≤ length seen.old }
    ensures { (result ≡ (ltb n k && not (get_or seen.old n false))) × (seen.new ≡ cond result (set seen.old n true) seen.old) }
{
    let n = usize::from(n);
    if n >= k || seen[n] {
        return false;
    }
    seen[n] = true;
    true
}

// No number below the length of a table is missing from it.
pub fn none_missing(table: &[u16]) -> bool
    requires { length table.now ≤ 477 }
    ensures { result ≡ none_missing (length table.now) table.now }
{
    let mut seen = [false; LONGEST];
    for n in table {
        if !mark(&mut seen, table.len(), *n) {
            return false;
        }
    }
    true
}
