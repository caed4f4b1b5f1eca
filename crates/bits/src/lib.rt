// Octets as bits: reading a bit or a field, and putting a run of bits in any place, with shifts and masks and whole octets at a
// time. Every crate above packs and unpacks through this one: frames, sub-flows, payloads. Its public functions are `pub` for
// those crates; each asks what their callers have shown. Casts to u8 lose nothing: a mask, or what a field's contract asks, leaves 8 bits.
#![tactic(auto)]

ghost use Rattle.std.specs.Prelude.{◌≡◌, ◌++◌, false, ◌+◌, ◌-◌, ◌*◌, ◌%◌, ◌≤◌, ◌<◌, ◌^◌, length, get_or, take, drop, replicate};
ghost use Rattle.bits.specs.Claims.{PacksBits};
ghost use Rattle.bits.specs.Bits.{bits, digits, num, pack, octets_for, copied};

// The bit of `s` at index `i`.
pub fn bit_at(s: &[u8], i: usize) -> bool
    requires { i < 8 * length s.now }
    ensures { result ≡ get_or (bits s.now) i false }
{
    (s[i / 8] >> (7 - i % 8)) & 1 == 1
}

// The number that the `k` bits of `s` from index `from` write.
pub fn field_at(s: &[u8], from: usize, k: usize) -> u8
    requires { (k ≤ 8) × (from < 8 * length s.now) }
    ensures { result ≡ num k (drop from (bits s.now)) }
{
    let i = from / 8;
    let a = from % 8;
    let hi = u32::from(s[i]);
    let lo = u32::from(s.get(i + 1).copied().unwrap_or(0));
    let w = (hi << 8) | lo;
    let m = (1u32 << k) - 1;
    ((w >> (16 - a - k)) & m) as u8
}

// The number that the last `k` bits of the first `n` octets write: filling bits.
pub fn low_bits(s: &[u8], n: usize, k: usize) -> u8
    requires { (k ≤ 8) × (0 < n) × (n ≤ length s.now) }
    ensures { result ≡ num k (drop (8 * n - k) (bits s.now)) }
{
    let m = (1u32 << k) - 1;
    (u32::from(s[n - 1]) & m) as u8
}

// The octet `x`, with `v` in its `k` bits after the first `a`.
fn with_field(x: u8, a: usize, k: usize, v: u8) -> u8
    requires { (a + k ≤ 8) × (v < 2 ^ k) }
    ensures { digits 8 result ≡ take a (digits 8 x) ++ (digits k v ++ drop (a + k) (digits 8 x)) }
{
    let b = 8 - a - k;
    let m = ((1u32 << k) - 1) << b;
    let kept = u32::from(x) & (255 - m);
    (kept | (u32::from(v) << b)) as u8
}

// Copies `k` bits into one octet of `dst`.
fn copy_part(src: &[u8], from: usize, k: usize, dst: &mut [u8], at: usize)
    requires { (at % 8 + k ≤ 8) × (from + k ≤ 8 * length src.now) × (at + k ≤ 8 * length dst.old) }
    ensures { bits dst.new ≡ copied (bits dst.old) at (drop from (bits src.now)) k }
{
    if 0 < k {
        let v = field_at(src, from, k);
        let j = at / 8;
        dst[j] = with_field(dst[j], at % 8, k, v);
    }
}

// Copies `src` to `dst`. A loop, since `copy_from_slice` calls memmove, which a host need not have; by `zip` its invariant would be about pairs
// of borrows. `pub` for bit_groups and recording_writer too.
pub fn copy(dst: &mut [u8], src: &[u8])
    requires { length dst.old ≡ length src.now }
    ensures { dst.new ≡ src.now }
{
    for (t, d) in dst.iter_mut().enumerate() {
        *d = src[t];
    }
}

// Fills `dst` with octets of bits from bit `a` of `src` on. `pub` for bit_groups too. That `a` is below 8 is asked, here and in
// bit_groups, and held by no type: callers give a remainder or a constant.
pub fn copy_octets(src: &[u8], a: usize, dst: &mut [u8])
    requires { (a < 8) × (8 * length dst.old + a ≤ 8 * length src.now) }
    ensures { bits dst.new ≡ take (8 * length dst.old) (drop a (bits src.now)) }
{
    if a == 0 {
        copy(dst, &src[..dst.len()]);
        return;
    }
    for (t, d) in dst.iter_mut().enumerate() {
        let hi = src[t];
        let lo = src[t + 1];
        *d = (hi << a) | (lo >> (8 - a));
    }
}

// Clears the bits of `dst` from index `end` to the next octet's border.
fn clear_to_border(dst: &mut [u8], end: usize)
    requires { end ≤ 8 * length dst.old }
    ensures { bits dst.new ≡ take end (bits dst.old) ++ (replicate (8 * octets_for end - end) false ++ drop (8 * octets_for end) (bits dst.old)) }
{
    let a = end % 8;
    if 0 < a {
        let j = end / 8;
        dst[j] = with_field(dst[j], a, 8 - a, 0);
    }
}

// Writes octet `j` of `dst`: the `k` bits of `src` from index `from`, filled up with 0. Of no bits it writes nothing.
fn put_last(src: &[u8], from: usize, k: usize, dst: &mut [u8], j: usize)
    requires { (k < 8) × (from + k ≤ 8 * length src.now) × (8 * j + k ≤ 8 * length dst.old) }
    ensures { bits dst.new ≡ take (8 * j) (bits dst.old) ++ (take k (drop from (bits src.now)) ++ (replicate (8 * octets_for k - k) false ++ drop (8 * (j + octets_for k)) (bits dst.old))) }
{
    if 0 < k {
        dst[j] = with_field(field_at(src, from, 8), k, 8 - k, 0);
    }
}

// Puts the `n` bits of `src` from index `from` behind the first `at` bits of `dst`, and fills their last octet up with 0. Later octets stay.
// Up to an octet's border of `dst`, then whole octets, then the rest.
// `src`, `from` and `n` are separate arguments: each call below moves another run.
pub fn put_run(src: &[u8], from: usize, n: usize, dst: &mut [u8], at: usize)
    requires { (from + n ≤ 8 * length src.now) × (at + n ≤ 8 * length dst.old) × (from + n < 2 ^ 32) × (at + n < 2 ^ 32) }
    ensures { dst.new ≡ pack (take at (bits dst.old) ++ take n (drop from (bits src.now))) ++ drop (octets_for (at + n)) dst.old }
{
    let gap = (8 - at % 8) % 8;
    if n < gap {
        copy_part(src, from, n, dst, at);
        clear_to_border(dst, at + n);
        return;
    }
    copy_part(src, from, gap, dst, at);
    let m = (n - gap) / 8;
    let j = (at + gap) / 8;
    let next = from + gap;
    copy_octets(&src[next / 8..], next % 8, &mut dst[j..j + m]);
    put_last(src, next + 8 * m, (n - gap) % 8, dst, j + m);
}

// Does nothing. Its contract: packing and unpacking undo each other.
pub fn packing_claim()
    ensures { PacksBits }
{}
