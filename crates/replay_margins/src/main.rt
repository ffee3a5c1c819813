// Answers cases about a frame's margins and rows, from standard input to standard output: what the comparison with the Rust runs, and the gate on a list of the Rust's own answers.
// A case is 20 words and a frame: the 14 of a layout (see `frame_cases`), the frame's length, then level, plane and row, the kind and a zero.
// Kind 0, clear the margins: the answer is the number (4 bytes) and the frame. Kind 1, a row: the number, the row's length (4 bytes each) and the row.
#![tactic(auto)]

use cases::{End, MOST_CASES, for_each_case, halves, read_whole, record_of};
use frame_cases::{laid_of, put_number, put_tested, read_words};
use lookups::margins::clear_margins;
use lookups::rows::{row, row_tested};
use settings::refusal::Refusal;
use std::io;
use stored::layout::LAYOUT;

fn main(rt: HostRuntime) -> io::Result<()> {
    let mut frame = [0u8; 131072];
    for_each_case(&rt, MOST_CASES, || answer(&rt, &mut frame))
}

// A case whose frame is longer than the one lent ends the program: its answer is missing.
fn answer<R: Input + Print>(rt: &R, frame: &mut [u8]) -> Result<(), End> {
    let words = read_words::<R, 20>(rt)?;
    let frame = frame.get_mut(..words[14] as usize).ok_or(End::NoCase)?;
    read_whole(rt, frame)?;
    Ok(if words[18] == 0 {
        answer_margins(rt, &words, frame)
    } else {
        answer_row(rt, &words, frame)
    }?)
}

fn answer_margins<R: Print>(rt: &R, words: &[u32; 20], frame: &mut [u8]) -> io::Result<()> {
    put_tested(rt, cleared(words, frame))?;
    rt.write_all(frame)
}

// By zeros where no layout is made, here and for a row: the calls refuse those, and what they leave and hand out then is answered too. The number is making's.
fn cleared(words: &[u32; 20], frame: &mut [u8]) -> Result<(), Refusal> {
    let made = laid_of(words);
    let cleared = clear_margins(frame, record_of(words), &made.unwrap_or([0; LAYOUT]));
    made?;
    cleared
}

fn answer_row<R: Print>(rt: &R, words: &[u32; 20], frame: &[u8]) -> io::Result<()> {
    let made = laid_of(words);
    let layout = made.unwrap_or([0; LAYOUT]);
    let opts = record_of(words);
    let level = words[15];
    let plane = words[16] as usize;
    let y = words[17] as usize;
    let tested = row_tested(opts, &layout, frame.len(), level, plane, y);
    put_tested(rt, made.and(tested))?;
    put_row(rt, row(frame, opts, &layout, level, plane, y))
}

fn put_row<R: Print>(rt: &R, row: &[u8]) -> io::Result<()> {
    let [_, len] = halves(row.len());
    put_number(rt, len)?;
    rt.write_all(row)
}
