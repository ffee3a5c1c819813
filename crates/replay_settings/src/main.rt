// Answers cases about settings, a line each, from standard input to standard output: what the comparison with the Rust runs, and the gate on a list of the Rust's own answers.
// A line is words of 8 hexadecimal digits (an integer as two's complement), parted by single spaces.
// In: which settings are given (bit 0 pel, 1 gpu, 2 down, 3 up, 4 full, 5 rc, 6 lean), then pel gpu down up full rc lean levels width height. Bit 8: the ten are a record, to be tested as it stands.
// Out: the number of the check (of a record: 0 or 6), the ten values of the record, the number and the two halves of its word, the number and value of its super height, and those of its super width.
#![tactic(auto)]

use cases::{End, MOST_CASES, for_each_case, halves, record_of};
use hex_lines::{read_line, write_line};
use settings::refusal::Refusal;
use settings::super_opts::{Settings, SuperOpts};
use std::io;

const RECORD: u32 = 256;

fn main(rt: HostRuntime) -> io::Result<()> {
    for_each_case(&rt, MOST_CASES, || answer(&rt))
}

fn answer<R: Input + Print>(rt: &R) -> Result<(), End> {
    let words = read_line::<R, 11>(rt)?;
    let given = words[0];
    let record = record_of(&words[1..]);
    let checked = if given == RECORD {
        tested(record)
    } else {
        SuperOpts::from_opt(settings_of(given, record), record.width, record.height)
    };
    let words = match checked {
        Ok(r) => words_of(0, r),
        Err(f) => words_of(f.number(), SuperOpts::default()),
    };
    Ok(write_line(rt, words)?)
}

fn tested(r: SuperOpts) -> Result<SuperOpts, Refusal> {
    if r.accepted() {
        return Ok(r);
    }
    Err(Refusal::NoRecord)
}

fn settings_of(given: u32, r: SuperOpts) -> Settings {
    let has = |bit: u32| given >> bit & 1 == 1;
    Settings {
        pel: has(0).then_some(r.pel),
        gpu: has(1).then_some(r.gpu),
        down: has(2).then_some(r.scale_down),
        up: has(3).then_some(r.scale_up),
        full: has(4).then_some(r.full),
        rc: has(5).then_some(r.rc),
        lean: has(6).then_some(r.lean),
    }
}

fn words_of(number: u32, r: SuperOpts) -> [u32; 18] {
    let [packing, high, low] = packed(r.pack_data());
    let [above, height] = sized(r.super_height());
    let [aside, width] = sized(r.super_width());
    [
        number,
        r.pel.cast_unsigned(),
        r.gpu.cast_unsigned(),
        r.scale_down.cast_unsigned(),
        r.scale_up.cast_unsigned(),
        u32::from(r.full),
        u32::from(r.rc),
        u32::from(r.lean),
        r.levels.cast_unsigned(),
        r.width.cast_unsigned(),
        r.height.cast_unsigned(),
        packing,
        high,
        low,
        above,
        height,
        aside,
        width,
    ]
}

fn packed(p: Result<u64, Refusal>) -> [u32; 3] {
    match p {
        Ok(w) => {
            let [high, low] = halves(w as usize);
            [0, high, low]
        }
        Err(f) => [f.number(), 0, 0],
    }
}

fn sized(s: Result<i32, Refusal>) -> [u32; 2] {
    match s {
        Ok(n) => [0, n.cast_unsigned()],
        Err(f) => [f.number(), 0],
    }
}
