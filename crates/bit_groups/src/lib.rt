// Copies of octets of bits by groups of 16, for a frame that is carried over to another format. `pub` for that crate; it asks what that
// has shown.
#![tactic(auto)]

ghost use Rattle.std.specs.Prelude.{◌≡◌, ℕ, ◌+◌, ◌*◌, ◌≤◌, ◌<◌, length, take, drop};
ghost use Rattle.bits.specs.Bits.{bits};

use bits::{copy, copy_octets};

// Octets `at` to `at + 15` of what `copy_by_groups` copies. All are read before the first is written, so that they are moved as one vector.
// Where the first `h` octets are copied, and `at` is not past them, the first `at + 16` then are.
fn copy_group<const A: usize>(src: &[u8], dst: &mut [u8], at: usize)
    requires { (A < 8) × (8 * (at + 16) + A ≤ 8 * length src.now) × (at + 16 ≤ length dst.old) }
    ensures { (h : ℕ) → at ≤ h → take (8 * h) (bits dst.old) ≡ take (8 * h) (drop A (bits src.now)) → take (8 * (at + 16)) (bits dst.new) ≡ take (8 * (at + 16)) (drop A (bits src.now)) }
{
    let mut group = [0; 16];
    copy_octets(&src[at..], A, &mut group);
    copy(&mut dst[at..at + 16], &group);
}

// Fills `dst` with octets of bits from bit `A` of `src` on, by groups of 16 that may overlap. No loop: the branch on the length is badly predicted.
// The conversion is its only caller, so that it is inlined there. The shift is a const parameter: each is compiled by itself.
pub fn copy_by_groups<const A: usize>(src: &[u8], dst: &mut [u8])
    requires { (A < 8) × (length dst.old ≤ 64) × (8 * length dst.old + A ≤ 8 * length src.now) }
    ensures { bits dst.new ≡ take (8 * length dst.old) (drop A (bits src.now)) }
{
    let m = dst.len();
    if m < 16 {
        copy_octets(src, A, dst);
        return;
    }
    copy_group::<A>(src, dst, 0);
    if m > 32 {
        copy_group::<A>(src, dst, 16);
        copy_group::<A>(src, dst, m - 32);
    }
    copy_group::<A>(src, dst, m - 16);
}
