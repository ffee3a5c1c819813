// Answers cases about whole builds, from standard input to standard output: what the comparison with the Rust runs, and the gate on a list of the Rust's own answers, with its fused path off where a case says so.
// A case is 24 words and bytes, as `frame_cases` has them: the 14 words of a layout, the source pitch (high and low word), the four lengths, what is asked for and the seed, and whether the fused path is off; then the bytes.
#![tactic(auto)]

use cases::{End, MOST_CASES, for_each_case, long, read_whole, record_of};
use frame_cases::{Asked, Lent, laid_of, part, put_tested, read_words};
use planes::build::{build_plane, build_plane_by};
use settings::refusal::Refusal;
use std::io;
use stored::layout::LAYOUT;

// The largest: a plane of 1920x1080 with all its levels, and the scratch of the widest pitch.
fn main(rt: HostRuntime) -> io::Result<()> {
    let mut source = [0u8; 2_129_920];
    let mut frame = [0u8; 4_194_304];
    let mut spill = [0u8; 589_824];
    let mut scratch = [0u8; 524_800];
    for_each_case(&rt, MOST_CASES, || {
        answer(&rt, &mut source, &mut frame, &mut spill, &mut scratch)
    })
}

fn answer<R: Input + Print>(
    rt: &R,
    source: &mut [u8],
    frame: &mut [u8],
    spill: &mut [u8],
    scratch: &mut [u8],
) -> Result<(), End> {
    let words = read_words::<R, 24>(rt)?;
    let asked = Asked::of(&words[17..]);
    let source = part(source, words[16] as usize)?;
    let mut lent = Lent::of(asked, frame, spill, scratch)?;
    read_whole(rt, source)?;
    lent.earlier(rt, asked)?;
    put_tested(rt, build(&words, source, &mut lent))?;
    Ok(lent.put(rt, asked)?)
}

// By zeros where no layout is made: the call refuses those, and what it is lent is summed then too. The number is making's.
fn build(words: &[u32; 24], source: &[u8], lent: &mut Lent<'_>) -> Result<(), Refusal> {
    let made = laid_of(words);
    let built = build_by(words, &made.unwrap_or([0; LAYOUT]), source, lent);
    made?;
    built
}

fn build_by(
    words: &[u32; 24],
    layout: &[usize],
    source: &[u8],
    lent: &mut Lent<'_>,
) -> Result<(), Refusal> {
    let opts = record_of(words);
    let src_pitch = long(words[14], words[15]);
    if words[23] != 0 {
        return build_plane_by(
            false,
            lent.frame,
            lent.spill,
            lent.scratch,
            opts,
            layout,
            source,
            src_pitch,
        );
    }
    build_plane(
        lent.frame,
        lent.spill,
        lent.scratch,
        opts,
        layout,
        source,
        src_pitch,
    )
}
