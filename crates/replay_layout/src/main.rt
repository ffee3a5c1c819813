// Answers cases about layouts, a line each, from standard input to standard output: what the comparison with the Rust runs, and the gate on a list of the Rust's own answers.
// A line is words of 8 hexadecimal digits (an integer as two's complement), parted by single spaces; a number of 64 bits is two words, the high one first.
// In: the record's pel gpu down up full rc lean levels width height, the shifts, the pitch (two words).
// Out: the layout's number, the count of levels, for each of 13 levels its offset (two words), width and height; the number of the written end and the end (two words); where no layout is made, the number is the layout's.
#![tactic(auto)]

use cases::{End, MOST_CASES, for_each_case, halves, layout_of};
use hex_lines::{read_line, write_line};
use layouts::layout::Region;
use lookups::ends::written_end;
use settings::refusal::Refusal;
use settings::super_opts::SuperOpts;
use std::io;
use stored::layout::{COUNT, LAYOUT, level_regions, region_in};

fn main(rt: HostRuntime) -> io::Result<()> {
    for_each_case(&rt, MOST_CASES, || answer(&rt))
}

fn answer<R: Input + Print>(rt: &R) -> Result<(), End> {
    let layout = layout_of(&read_line::<R, 14>(rt)?);
    Ok(write_line(rt, words_of(level_regions(layout), layout.opts))?)
}

fn words_of(laid: Result<[usize; LAYOUT], Refusal>, opts: SuperOpts) -> [u32; 57] {
    let mut words = [0; 57];
    match laid {
        Ok(layout) => {
            words[1] = halves(layout[COUNT])[1];
            put_regions(&mut words, &layout);
            put_end(&mut words, written_end(opts, &layout));
        }
        // Where no layout is made there is none to ask: the end's number is making's.
        Err(f) => {
            words[0] = f.number();
            words[54] = f.number();
        }
    }
    words
}

fn put_regions(words: &mut [u32; 57], layout: &[usize; LAYOUT]) {
    let (regions, _) = words[2..54].as_chunks_mut();
    for (level, region) in regions.iter_mut().enumerate() {
        *region = region_words(region_in(layout, level as u32));
    }
}

fn region_words(r: Region) -> [u32; 4] {
    let [high, low] = halves(r.offset);
    [high, low, halves(r.width)[1], halves(r.height)[1]]
}

fn put_end(words: &mut [u32; 57], end: Result<usize, Refusal>) {
    match end {
        Ok(n) => {
            let [high, low] = halves(n);
            words[55] = high;
            words[56] = low;
        }
        Err(f) => words[54] = f.number(),
    }
}
