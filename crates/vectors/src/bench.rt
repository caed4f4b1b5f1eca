// Document 01, "Bench cases": the line without P.
use std::io::Result;

// IF2 of type 0, good, in so many octets.
fn if2_octets(rt: &impl Print, s: &[u8]) -> Result<()> {
    let mut core = [0u8; 60];
    let a = level_three::amrwb_read_frame(2, s, &mut core);
    println!(rt; "bench IF2 type 0 octets {} refusal {}", s.len(), a.refusal)
}

// IF1 of type 0, good, with a mode request.
fn if1_request(rt: &impl Print, request: u8) -> Result<()> {
    let mut s = [0u8; 20];
    s[0] = 0x08;
    s[1] = request;
    let mut core = [0u8; 60];
    let a = level_three::amrwb_read_frame(1, &s, &mut core);
    println!(rt; "bench IF1 type 0 request {request} refusal {}", a.refusal)
}

fn conversion_request(rt: &impl Print, request: u64) -> Result<()> {
    let mut out = [0u8; 0];
    let a = level_three::amrwb_convert(2, 1, request, b"", &mut out);
    println!(rt; "bench convert request {request} refusal {}", a.refusal)
}

// A set of one combination, of type 15.
fn assign_rfci(rt: &impl Print, rfci: u64) -> Result<()> {
    let rows = [rfci, 15, 0, 0, 0];
    let a = level_three::amrwb_link_assign(level_three::amrwb_link_fresh(), &rows);
    println!(rt; "bench assign RFCI {rfci} refusal {}", a.refusal)
}

// Up, where the set has RFCI 63.
fn up_rfci(rt: &impl Print, rfci: u64) -> Result<()> {
    let rows = [63, 15, 0, 0, 0];
    let link = level_three::amrwb_link_assign(level_three::amrwb_link_fresh(), &rows).link;
    let mut out = [0u8; 64];
    let a = level_three::amrwb_link_up(link, 0, rfci, b"", b"", b"", &mut out);
    println!(rt; "bench up RFCI {rfci} refusal {}", a.refusal)
}

pub fn print_cases(rt: &impl Print) -> Result<()> {
    let mut s = [0u8; 19];
    s[0] = 0x08;
    if2_octets(rt, &s[..17])?;
    if2_octets(rt, &s[..18])?;
    if2_octets(rt, &s)?;
    if1_request(rt, 8)?;
    if1_request(rt, 9)?;
    conversion_request(rt, 9)?;
    assign_rfci(rt, 63)?;
    assign_rfci(rt, 64)?;
    up_rfci(rt, 63)?;
    up_rfci(rt, 64)
}
