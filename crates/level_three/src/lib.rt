// Level three's C interface (include/amrwb.h): level two's calls, and the link's, each of which calls one entry and hands its answer on as
// numbers, as crates/link_answers/specs/Flat.antt says. Every public function is an entry; crates/level_three_c exports them.
#![tactic(auto)]

ghost use Rattle.std.specs.Prelude.{◌≡◌, length};
ghost use Rattle.links.specs.Calls.{fresh_link, up_call, down_call};
ghost use Rattle.links.specs.History.{link_step, assign, release, rate};
ghost use Rattle.answers.specs.Flat.{FlatOutput};
ghost use Rattle.link_answers.specs.Flat.{link_numbers, FlatDown};

use answers::Answer;
use downlink::Answered;
// Level two's calls, as they are there.
pub use level_two::{
    amrwb_build_if1, amrwb_build_if2, amrwb_build_stored, amrwb_class, amrwb_consoles_add,
    amrwb_consoles_fresh, amrwb_consoles_slot, amrwb_convert, amrwb_convert_length, amrwb_merge,
    amrwb_order_to_core, amrwb_order_to_row, amrwb_read_frame, amrwb_report, amrwb_sheet_read,
    amrwb_validate, amrwb_view_next, amrwb_view_open,
};
use link_answers::{DownNumbers, LinkAnswer, moved_answer};
use links::Link;
use uplink_judge::SubflowOctets;

// ---- the link

pub fn amrwb_link_fresh() -> Link
    ensures { result ≡ fresh_link }
{
    link_state::fresh()
}

pub fn amrwb_link_assign(link: Link, rows: &[u64]) -> LinkAnswer
    ensures { result ≡ link_numbers (link_step link (assign rows.now)) }
{
    moved_answer(link, link_state::assign(link, rows))
}

pub fn amrwb_link_release(link: Link) -> LinkAnswer
    ensures { result ≡ link_numbers (link_step link release) }
{
    moved_answer(link, link_state::release(link))
}

pub fn amrwb_link_rate(link: Link, mode: u64) -> LinkAnswer
    ensures { result ≡ link_numbers (link_step link (rate mode)) }
{
    moved_answer(link, link_state::rate_command(link, mode))
}

pub fn amrwb_link_up(
    link: Link,
    fqc: u64,
    rfci: u64,
    s1: &[u8],
    s2: &[u8],
    s3: &[u8],
    out: &mut [u8],
) -> Answer
    ensures { FlatOutput (up_call link fqc rfci s1.now s2.now s3.now (length out.old)) out.old out.new result }
{
    let s = SubflowOctets { s1, s2, s3 };
    uplink::up(link, fqc, rfci, s, out).into()
}

pub fn amrwb_link_down(
    link: Link,
    frame: &[u8],
    s1: &mut [u8],
    s2: &mut [u8],
    s3: &mut [u8],
) -> DownNumbers
    ensures { FlatDown (down_call link frame.now (length s1.old) (length s2.old) (length s3.old)) link s1.old s1.new s2.old s2.new s3.old s3.new result }
{
    // Not by `down`: passing the state through costs a copy.
    let answer = downlink::split_frame(link, frame, s1, s2, s3);
    let forwarded = downlink::forwarded_after(link.forwarded, answer);
    let link = Link { forwarded, ..link };
    Answered { answer, link }.into()
}
