// Replays the stored requests with a payload one byte above the limit (document 01's refusal 10), for which crate `vectors` has no room.
// It writes each request with the answer of the call; its file stdout has the Rust's answers, of crates/vectors/data/list (oracle/pack).
// It promises nothing of its own: it tests that the calls answer as the Rust does.
#![tactic(auto)]

use bitcursor::{Reading, Refused};
use hatch_format::HatchBits;
use prefix_format::CommonEntityData;
use std::alloc::{AllocError, Global};
use std::io;
use std::io::Write;
use text::Text;

// Document 01's limit and one more.
const SIZE: usize = 268_435_457;

// The start of every request.
const START: usize = 5;

// One zero above the limit, the payload of every request. They lie on the heap, since the stack has no room for so many bytes.
fn zeros(alloc: Global) -> Result<Vec<u8>, AllocError> {
    vec![in alloc; 0; SIZE]
}

// A line of the list: the request, a tab, the answer. No reading is in the lines that these are compared with.
fn line<W: Write, T: Drop>(
    out: &mut W,
    request: &str,
    answer: Result<T, Refused>,
) -> io::Result<()> {
    match answer {
        Ok(_) => writeln!(out, "{request}\tok"),
        Err(e) => {
            let number = u8::from(e.refusal);
            let place = e.place;
            writeln!(out, "{request}\terr {number} {place} 0")
        }
    }
}

// The requests below are written out: the calls answer in types of their own, so a table of them would be one of boxed closures, on the heap.

// The hatch body, with the main place of its refusal.
fn hatch_body(s: &[u8], release: u64) -> Result<HatchBits, Refused> {
    hatch::decode(s, START, release, &mut [], &mut []).map_err(|e| Refused {
        refusal: e.refusal,
        place: e.place.main,
    })
}

// An unknown release is refused before the payload's length is looked at.
fn hatches<W: Write>(out: &mut W, s: &[u8]) -> io::Result<()> {
    line(out, "hatch 8 5 z268435457", hatch_body(s, 8))?;
    line(out, "hatch 2 5 z268435457", hatch_body(s, 2))
}

fn prefix(s: &[u8], release: u64) -> Reading<CommonEntityData<u64>> {
    common_entity::read_common_entity_data(s, START, release)
}

// Here too an unknown release comes first.
fn prefixes<W: Write>(out: &mut W, s: &[u8]) -> io::Result<()> {
    line(out, "prefix 2 5 z268435457", prefix(s, 2))?;
    line(out, "prefix 8 5 z268435457", prefix(s, 8))
}

fn bits<W: Write>(out: &mut W, s: &[u8]) -> io::Result<()> {
    line(out, "b 2 5 z268435457", bit_codes::read_b(s, START))?;
    line(out, "bb 2 5 z268435457", bit_codes::read_bb(s, START))?;
    line(out, "3b 2 5 z268435457", bit_codes::read_3b(s, START))
}

fn shorts_and_longs<W: Write>(out: &mut W, s: &[u8]) -> io::Result<()> {
    line(out, "bs 2 5 z268435457", bit_codes::read_bs(s, START))?;
    line(out, "bsu 2 5 z268435457", bit_codes::read_bs_u(s, START))?;
    line(out, "bl 2 5 z268435457", bit_codes::read_bl(s, START))?;
    line(out, "blu 2 5 z268435457", bit_codes::read_bl_u(s, START))
}

fn double_and_long_long<W: Write>(out: &mut W, s: &[u8]) -> io::Result<()> {
    line(
        out,
        "bd 2 5 z268435457",
        bit_codes::read_bd::<u64>(s, START),
    )?;
    line(out, "bll 2 5 z268435457", bit_codes::read_bll(s, START))
}

fn raw<W: Write>(out: &mut W, s: &[u8]) -> io::Result<()> {
    line(out, "rc 2 5 z268435457", bit_codes::read_rc(s, START))?;
    line(out, "rs 2 5 z268435457", bit_codes::read_rs(s, START))?;
    line(out, "rl 2 5 z268435457", bit_codes::read_rl(s, START))?;
    line(
        out,
        "rd 2 5 z268435457",
        bit_codes::read_rd::<u64>(s, START),
    )
}

fn handle_and_default<W: Write>(out: &mut W, s: &[u8]) -> io::Result<()> {
    line(
        out,
        "handle 2 5 z268435457",
        bit_codes::read_handle(s, START),
    )?;
    line(
        out,
        "dd 2 5 z268435457 3ff0000000000000",
        bit_codes::read_dd::<u64>(s, START, 0x3ff0_0000_0000_0000),
    )
}

fn inline_text(s: &[u8], release: u64) -> Reading<Text> {
    text::read_tv(s, START, release)
}

// Units of one byte, and of two.
fn texts<W: Write>(out: &mut W, s: &[u8]) -> io::Result<()> {
    line(out, "tv 2 5 z268435457", inline_text(s, 2))?;
    line(out, "tv 7 5 z268435457", inline_text(s, 7))
}

// The calls that hand over f64, of the same requests.
fn doubles<W: Write>(out: &mut W, s: &[u8]) -> io::Result<()> {
    line(
        out,
        "bd 2 5 z268435457",
        bit_codes::read_bd::<f64>(s, START),
    )?;
    line(
        out,
        "rd 2 5 z268435457",
        bit_codes::read_rd::<f64>(s, START),
    )?;
    line(
        out,
        "dd 2 5 z268435457 3ff0000000000000",
        bit_codes::read_dd::<f64>(s, START, 1.0),
    )
}

// The calls, each on the payload `s`.
fn replay<W: Write>(out: &mut W, s: &[u8]) -> io::Result<()> {
    hatches(out, s)?;
    prefixes(out, s)?;
    bits(out, s)?;
    shorts_and_longs(out, s)?;
    double_and_long_long(out, s)?;
    raw(out, s)?;
    handle_and_default(out, s)?;
    texts(out, s)?;
    doubles(out, s)
}

fn main(rt: HostRuntime) -> io::Result<()> {
    let payload = zeros(rt.alloc())?;
    replay(&mut io::writer(&rt), &payload)
}
