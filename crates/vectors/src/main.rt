// Prints document 01's bench cases that are not proved, calls of the consoles (document 02, m), of sheets (h) and of merges (n), and the vectors that
// the standards print: TS 26.201, tables 5, 6, A.1a, A.2, A.3 and B.1 to B.5; TS 26.202, table 6-2. The second program prints the same from the
// papers. The library is called as a C host calls it, by level three's functions: formats, types and modes are numbers here, and sizes that the
// crates below name are named again.
#![tactic(auto)]

mod bench;
mod console_calls;
mod frames;
mod merges;
mod orders;
mod places;
mod print;
mod sheets;
mod subflows;

use std::io::Result;

fn main(rt: HostRuntime) -> Result<()> {
    bench::print_cases(&rt)?;
    console_calls::print_calls(&rt)?;
    frames::print_tables(&rt)?;
    subflows::print_tables(&rt)?;
    orders::print_tables(&rt)?;
    sheets::print_calls(&rt)?;
    merges::print_calls(&rt)
}
