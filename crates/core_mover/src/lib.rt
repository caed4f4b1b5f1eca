// Moving the core of a valid frame to its place in another format: octets go over whole or shifted, many at a time. The source is valid, so
// that behind its core there is nothing but zeros up to the frame's end. `move_core` and `core_at` are `pub` for frame_carrier.
#![tactic(auto)]

ghost use Rattle.std.specs.Prelude.{◌≡◌, Bool, List, ◌++◌, ℕ, ◌+◌, ◌<◌, ◌≤◌, length, drop};
ghost use Rattle.bits.specs.Bits.{packs, one_if};
ghost use Rattle.definitions.specs.Frames.{Frame};
ghost use Rattle.frame.specs.Answers.{format_of};
ghost use Rattle.core_mover.specs.Carriable.{core_at, Ends, Carriable, CoreMoved};

use bit_groups::copy_by_groups;
use frame::table::{core_octets, if2_octets};
use frame::{Format, IF1_CORE_AT};

// The first octet that holds nothing but core.
pub fn core_at(f: Format) -> usize
    ensures { (result ≡ core_at (format_of f)) × (result ≤ 3) }
{
    match f {
        Format::If1 => IF1_CORE_AT,
        Format::If2 | Format::Storage => 1,
    }
}

// Moves `c` octets of bits from bit `A` of `src` on to `out`, and then, where it is asked, what is left of the source frame's last octet:
// `last` says whether one more octet is written, so it is no closure.
fn move_bits<const A: usize>(src: &[u8], c: usize, last: bool, out: &mut [u8])
    requires { (A < 8) × (c < length src.now) × (c + one_if last ≤ length out.old) × (c ≤ 64) }
    ensures { (w : List Bool) (z : ℕ) (r : List Bool) → Ends src.now A c w z r → out.new ≡ packs (c + one_if last) w ++ drop (c + one_if last) out.old }
{
    copy_by_groups::<A>(src, &mut out[..c]);
    if last {
        out[c] = src[c] << A;
    }
}

// Moves the core of a frame of type `t`. In IF2 its first three bits stand in the header's octet; of type 1 alone a core takes as many octets
// as its IF2 frame.
pub fn move_core(f: Format, g: Format, t: usize, src: &[u8], out: &mut [u8])
    requires { (t ≤ 9) × ((x : Frame) × (x.type ≡ t) × Carriable (format_of f) (format_of g) src.now x out.old) }
    ensures { CoreMoved (format_of f) (format_of g) t src.now out.old out.new }
{
    let to = &mut out[core_at(g)..];
    if g == Format::If2 {
        move_bits::<3>(&src[core_at(f)..], core_octets(t) - 1, t != 1, to);
    } else if f == Format::If2 {
        move_bits::<5>(src, if2_octets(t) - 1, t == 1, to);
    } else {
        move_bits::<0>(&src[core_at(f)..], core_octets(t) - 1, true, to);
    }
}
