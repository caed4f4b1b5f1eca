// The CRC of a frame's Class A bits, and what is claimed of it. For the crates that test and write frames.
#![tactic(auto)]

ghost use Rattle.std.specs.Prelude.{◌≡◌, ◌*◌, ◌≤◌, Bool, true, false, List, [], ◌∷◌, ◌++◌, length, take, replicate};
ghost use Rattle.bits.specs.Bits.{bits, digits, num};
ghost use Rattle.parity.specs.Crc.{divide, crc};
ghost use Rattle.parity.specs.Places.{count_true};
ghost use Rattle.parity.specs.Claims.{IsRemainder, Detects, DetectsInFrames};

// The generator without D^8: D^6 + D^5 + D^4 + 1.
const LOWER: u8 = 0x71;

// One step of the division: `r` times D, less the generator where D^8 comes out.
fn step(r: u8) -> u8
    ensures { result ≡ num 8 (divide 1 (digits 8 r ++ false ∷ [])) }
{
    let mask = 0u8.wrapping_sub(r >> 7);
    (r << 1) ^ (mask & LOWER)
}

// From the CRC `r` of a message, the CRC of the message with the bit `b` behind it.
fn take_bit(r: u8, b: bool) -> u8
    ensures { (m : List Bool) → r ≡ num 8 (crc m) → result ≡ num 8 (crc (m ++ b ∷ [])) }
{
    step(r ^ (u8::from(b) << 7))
}

// The CRC of one octet, eight steps at once. `q` is the quotient of y · D^8: y · (D^16 / G), without its low terms. Its multiple of the
// generator, cut to eight coefficients, is the remainder.
fn shift_octet(y: u8) -> u8
    ensures { result ≡ num 8 (crc (digits 8 y)) }
{
    let q = y ^ (y >> 2) ^ (y >> 3) ^ (y >> 7);
    q ^ (q << 4) ^ (q << 5) ^ (q << 6)
}

// From the CRC `r` of a message, the CRC of the message with the octet `x` behind it. The division is linear: `x` is added first.
fn take_octet(r: u8, x: u8) -> u8
    ensures { (m : List Bool) → r ≡ num 8 (crc m) → result ≡ num 8 (crc (m ++ digits 8 x)) }
{
    shift_octet(r ^ x)
}

// The CRC of the first `n` bits of `core`: the whole octets, then the odd bits.
pub fn crc_of(core: &[u8], n: usize) -> u8
    requires { n ≤ 8 * length core.now }
    ensures { result ≡ num 8 (crc (take n (bits core.now))) }
{
    let k = n / 8;
    let mut r = 0;
    for x in &core[..k] {
        r = take_octet(r, *x);
    }
    for i in 8 * k..n {
        r = take_bit(r, bits::bit_at(core, i));
    }
    r
}

// Does nothing. Its contract: the CRC is the remainder that document 01 names.
pub fn remainder_claim()
    ensures { IsRemainder crc }
{}

// Does nothing. Its contract: what the CRC detects, in words and in frames.
pub fn detection_claim()
    ensures { Detects crc × DetectsInFrames crc }
{}

// Does nothing. Its contract: a CRC that is always 0 does not detect, and 248 message bits are too many, since a word with only two
// true places has its CRC right.
pub fn limits_claim()
    ensures { (Detects (λ m. replicate 8 false) → ⊥) × (count_true ((true ∷ replicate 247 false) ++ crc (true ∷ replicate 247 false)) ≡ 2) }
{}
