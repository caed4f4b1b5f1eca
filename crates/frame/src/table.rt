// The table of types. Its functions are `pub` for the crates above; those that read a column ask a type below 16, or one that is known or has a
// core. No struct holds such a bound, or format and type together, since `header_bits` and `carries_modes` ask nothing of a type.
// The bounds that they give beside the value are for their callers' sums. Each function is a match or a line of its own: one function for several
// would be no shorter.
ghost use Rattle.std.specs.Prelude.{◌≡◌, ◌<◌, ◌≤◌, ◌*◌, ◌/◌, ◌%◌, ◌^◌, true, IfOk};
ghost use Rattle.definitions.specs.Outcome.{ok, unless};
ghost use Rattle.definitions.specs.Frames.{if2, known, core_bits, class_a, octets, core_octets, carries_modes, header_bits, fill_bits, spare_before};
ghost use Rattle.frame.specs.Answers.{format_of, built_of};

use crate::{Format, Refusal};

// The table by its columns, as the papers print it, each with a number for every type, 0 for the reserved ones. Not by rows: each function reads
// one column, and with rows, whose lookup multiplies by the row's length, the scan of a recording takes 3 percent more time. Statics: a constant
// array is built on the stack at each use.

// K.
static CORE_BITS: [usize; 16] = [
    132, 177, 253, 285, 317, 365, 397, 461, 477, 40, 0, 0, 0, 0, 0, 0,
];

// Class A.
static CLASS_A: [usize; 16] = [54, 64, 72, 72, 72, 72, 72, 72, 72, 40, 0, 0, 0, 0, 0, 0];

// Octets in IF1, IF2 and storage format.
static IF1: [usize; 16] = [20, 26, 35, 39, 43, 49, 53, 61, 63, 8, 0, 0, 0, 0, 1, 1];

static IF2: [usize; 16] = [18, 23, 33, 37, 41, 47, 51, 59, 61, 6, 0, 0, 0, 0, 1, 1];

static STORAGE: [usize; 16] = [18, 24, 33, 37, 41, 47, 51, 59, 61, 6, 0, 0, 0, 0, 1, 1];

// The filling bits behind the core in IF1 and storage format, and in IF2.
static FILL: [usize; 16] = [4, 7, 3, 3, 3, 3, 3, 3, 3, 0, 0, 0, 0, 0, 0, 0];

static IF2_FILL: [usize; 16] = [7, 2, 6, 6, 6, 6, 6, 6, 6, 3, 0, 0, 0, 0, 3, 3];

// K, the bits of the core.
pub fn core_bits(t: usize) -> usize
    requires { t < 16 }
    ensures { (result ≡ core_bits t) × (result ≤ 477) }
{
    CORE_BITS[t]
}

// The bits of Class A.
pub fn class_a(t: usize) -> usize
    requires { t < 16 }
    ensures { (result ≡ class_a t) × (result ≤ 477) }
{
    CLASS_A[t]
}

// The octets of a frame; 0 for the reserved types, as the definition has it. No Option: a conversion's sum takes it as it is.
pub fn octets_of(f: Format, t: usize) -> usize
    requires { t < 16 }
    ensures { (result ≡ octets (format_of f) t) × (result ≤ 477) }
{
    match f {
        Format::If1 => IF1[t],
        Format::If2 => IF2[t],
        Format::Storage => STORAGE[t],
    }
}

// The same for a call that refuses the reserved types.
pub fn octets_known(f: Format, t: usize) -> Result<usize, Refusal>
    requires { t < 16 }
    ensures judged { built_of result ≡ unless 2 (known t) (ok (octets (format_of f) t)) }
    ensures bound { IfOk result (λ n. n ≤ 477) }
{
    let n = octets_of(f, t);
    if n == 0 {
        return Err(Refusal::ReservedType);
    }
    Ok(n)
}

// The bits in front of the core.
pub fn header_bits(f: Format, t: usize) -> usize
    ensures { (result ≡ header_bits (format_of f) t) × (result ≤ 24) }
{
    match f {
        Format::If1 => { if t <= 9 { 24 } else { 8 } }
        Format::If2 => 5,
        Format::Storage => 8,
    }
}

// The octets of a frame whose type is not reserved, by its bits: without a branch on the format, which may change from call to call.
// `div_ceil` would test the remainder too.
pub fn octets_by_bits(f: Format, t: usize) -> usize
    requires { known t ≡ true }
    ensures { result ≡ octets (format_of f) t }
{
    (header_bits(f, t) + core_bits(t) + 7) / 8
}

// The filling bits behind the core.
pub fn fill_bits(f: Format, t: usize) -> usize
    requires { known t ≡ true }
    ensures { (result ≡ fill_bits (format_of f) t) × (result ≤ 7) }
{
    match f {
        Format::If1 | Format::Storage => FILL[t],
        Format::If2 => IF2_FILL[t],
    }
}

// The octets of the packed core, of a type that has one.
pub fn core_octets(t: usize) -> usize
    requires { t ≤ 9 }
    ensures { result ≡ core_octets t }
{
    (core_bits(t) + 7) / 8
}

// The octets in IF2, of a type that has a core.
pub fn if2_octets(t: usize) -> usize
    requires { t ≤ 9 }
    ensures { result ≡ octets if2 t }
{
    IF2[t]
}

// Whether a frame carries indication, request and CRC.
pub fn carries_modes(f: Format, t: usize) -> bool
    ensures { result ≡ carries_modes (format_of f) t }
{
    match f {
        Format::If1 => t <= 9,
        Format::If2 | Format::Storage => false,
    }
}

// Spare bits in front of the type.
pub fn spare_before(f: Format) -> usize
    ensures { (result ≡ spare_before (format_of f)) × (result ≤ 1) }
{
    match f {
        Format::If1 | Format::If2 => 0,
        Format::Storage => 1,
    }
}
