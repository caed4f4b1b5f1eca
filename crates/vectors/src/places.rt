// Cores in which one bit alone is 1: where a bit stands in a frame or a row, there what is made with it differs from what is made without it.

// Room for a frame or a row, in octets.
pub const ROOM: usize = 480;

// A packed core in which d(j) alone is 1, where it has this bit; or none.
pub fn core_of<const N: usize>(bit: Option<usize>) -> [u8; N] {
    let mut core = [0u8; N];
    if let Some(j) = bit
        && let Some(o) = core.get_mut(j / 8)
    {
        *o = 0x80 >> (j % 8);
    }
    core
}
