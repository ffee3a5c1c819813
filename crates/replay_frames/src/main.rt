// Answers cases about frames of three planes, from standard input to standard output: what the comparison with the Rust runs, and the gate on a list of the Rust's own answers.
// A case is 29 words and bytes, as `frame_cases` has them: the 10 words of a record, the source pitches of Y, U and V (high and low word each), the lengths of the sources of Y, U and V and of frame, spill and scratch, what is asked for and the seed, and a row's part, level, plane and number; then the bytes, those of Y, U and V first.
// The answer to the build is followed by that of the parts: the number and, where that is 0, start, pitch and length of Y, U and V, the frame's length and the needs of spill and scratch, two words each, the high one first. Last, the row's place in a frame of that length: the number and, where that is 0, offset and length likewise.
#![tactic(auto)]

use cases::{End, MOST_CASES, for_each_case, long, read_whole, record_of};
use frame_cases::{Asked, Lent, part, put_long, put_number, put_tested, read_words};
use frames::build::build_frame;
use frames::parts::{Part, Parts, frame_parts, frame_row_place};
use layouts::rows::Run;
use settings::refusal::Refusal;
use std::io;

// The largest: 1440x1080 with all its levels, and the scratch of the widest picture.
fn main(rt: HostRuntime) -> io::Result<()> {
    let mut sources = [0u8; 2_424_832];
    let mut frame = [0u8; 4_718_592];
    let mut spill = [0u8; 4_096];
    let mut scratch = [0u8; 262_656];
    for_each_case(&rt, MOST_CASES, || {
        answer(&rt, &mut sources, &mut frame, &mut spill, &mut scratch)
    })
}

// Each source begins where the one before ends; the sources are as long as the three together.
fn answer<R: Input + Print>(
    rt: &R,
    sources: &mut [u8],
    frame: &mut [u8],
    spill: &mut [u8],
    scratch: &mut [u8],
) -> Result<(), End> {
    let words = read_words::<R, 29>(rt)?;
    let asked = Asked::of(&words[19..]);
    let [ys, us, vs] = [words[16] as usize, words[17] as usize, words[18] as usize];
    let sources = part(sources, ys + us + vs)?;
    let mut lent = Lent::of(asked, frame, spill, scratch)?;
    read_whole(rt, sources)?;
    lent.earlier(rt, asked)?;
    let (y, others) = sources.split_at(ys);
    let (u, v) = others.split_at(us);
    put_tested(rt, build(&words, y, u, v, &mut lent))?;
    lent.put(rt, asked)?;
    put_parted(rt, frame_parts(record_of(&words)))?;
    Ok(put_placed(rt, place(&words, lent.frame.len()))?)
}

fn build(
    words: &[u32; 29],
    y: &[u8],
    u: &[u8],
    v: &[u8],
    lent: &mut Lent<'_>,
) -> Result<(), Refusal> {
    let opts = record_of(words);
    let y_pitch = long(words[10], words[11]);
    let u_pitch = long(words[12], words[13]);
    let v_pitch = long(words[14], words[15]);
    build_frame(
        lent.frame,
        lent.spill,
        lent.scratch,
        opts,
        y,
        y_pitch,
        u,
        u_pitch,
        v,
        v_pitch,
    )
}

fn place(words: &[u32; 29], len: usize) -> Result<Run, Refusal> {
    let plane = words[27] as usize;
    let y = words[28] as usize;
    frame_row_place(record_of(words), len, words[25], words[26], plane, y)
}

fn put_parted<R: Print>(rt: &R, p: Result<Parts, Refusal>) -> io::Result<()> {
    match p {
        Ok(parts) => put_parts(rt, parts),
        Err(f) => put_number(rt, f.number()),
    }
}

fn put_parts<R: Print>(rt: &R, p: Parts) -> io::Result<()> {
    put_number(rt, 0)?;
    put_part(rt, p.y)?;
    put_part(rt, p.u)?;
    put_part(rt, p.v)?;
    put_long(rt, p.length)?;
    put_long(rt, p.needs.spill)?;
    put_long(rt, p.needs.scratch)
}

fn put_part<R: Print>(rt: &R, p: Part) -> io::Result<()> {
    put_long(rt, p.start)?;
    put_long(rt, p.pitch)?;
    put_long(rt, p.length)
}

fn put_placed<R: Print>(rt: &R, p: Result<Run, Refusal>) -> io::Result<()> {
    match p {
        Ok(run) => {
            put_number(rt, 0)?;
            put_long(rt, run.offset)?;
            put_long(rt, run.length)
        }
        Err(f) => put_number(rt, f.number()),
    }
}
