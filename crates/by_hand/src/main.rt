// Document 01, "Checked by hand", what is run by a program: the number of a frame that is exactly long enough and of one a byte short, whether targets 8, 7 and 10 wide fuse, and the bytes of level 1 that refining overwrites.
// A fused level keeps the margins that it has when they are cleared, and zeroes them from 2 * width on when it is built; another's are zeroed, and keep what they held. Last, the smallest picture whose build depends on bytes past the written end.
#![tactic(auto)]

use cases::differing;
use layouts::layout::Layout;
use lookups::margins::clear_margins;
use planes::build::build_plane;
use settings::refusal::Refusal;
use settings::super_opts::{Settings, SuperOpts};
use std::{fmt, io};
use stored::layout::{LAYOUT, level_regions};

fn main(rt: HostRuntime) -> io::Result<()> {
    lengths(&rt)?;
    targets(&rt)?;
    overwritten(&rt)?;
    past_ends(&rt)
}

fn lengths<R: Print>(rt: &R) -> io::Result<()> {
    let mut frame = [1u8; 14976];
    let layout = layout(2, 64, 48, 0, 64);
    for len in [14976, 14975] {
        let number = cleared(&mut frame[..len], layout);
        println!(rt; "64x48, pel 2, pitch 64, {len} bytes: {number}")?;
    }
    Ok(())
}

fn targets<R: Print>(rt: &R) -> io::Result<()> {
    let targets = [
        (8, layout(1, 16, 16, 0, 32)),
        (7, layout(1, 28, 16, 1, 32)),
        (10, layout(1, 20, 16, 0, 32)),
    ];
    for (width, layout) in targets {
        let byte = margin(layout, width);
        println!(rt; "target {width} wide, margin byte: {byte}")?;
    }
    for (width, layout) in targets {
        let byte = ByteOf(built_margin(layout, width));
        println!(rt; "target {width} wide, built, byte at 2 * width: {byte}")?;
    }
    Ok(())
}

// 20x20 at pitch 20 by the defaults, built with pel 1 and pel 2: what differs in level 1 was overwritten.
fn overwritten<R: Print>(rt: &R) -> io::Result<()> {
    let src = columns();
    let mut whole = [0u8; 680];
    let mut refined = [0u8; 1880];
    let first = built(&mut whole, layout(1, 20, 20, 0, 20), &src, 20);
    let second = built(&mut refined, layout(2, 20, 20, 0, 20), &src, 20);
    let all = differing(&refined[1600..], &whole[400..]);
    let front = differing(&refined[1600..1612], &whole[400..412]);
    println!(rt; "20x20, pitch 20, pel 1: {first}")?;
    println!(rt; "20x20, pitch 20, pel 2: {second}")?;
    println!(rt; "20x20, pel 2, bytes of level 1 and later that differ: {all}")?;
    println!(rt; "20x20, pel 2, of the first 12: {front}")
}

fn past_ends<R: Print>(rt: &R) -> io::Result<()> {
    let mut exact = [0u8; 180];
    let mut longer = [0u8; 260];
    longer[180..].fill(255);
    let byte = ByteOf(past_end(&mut exact));
    println!(rt; "16x24, not full, byte 161 of an exact frame: {byte}")?;
    let byte = ByteOf(past_end(&mut longer));
    println!(rt; "16x24, not full, byte 161 with 255s past its end: {byte}")
}

// Rows of 20 bytes, each byte ten times its column.
fn columns() -> [u8; 400] {
    let mut src = [0; 400];
    for (i, b) in src.iter_mut().enumerate() {
        *b = (10 * (i % 20)) as u8;
    }
    src
}

// Byte 161 of a frame, zeros but for 255s past the written end, 180, from a source of zeros: 16x24, pel 1, not full, shifts 1 and 0, pitch 10.
fn past_end(frame: &mut [u8]) -> Option<u8> {
    let src = [0u8; 192];
    if built(frame, unfull_layout(), &src, 8) != 0 {
        return None;
    }
    frame.get(161).copied()
}

fn unfull_layout() -> Layout {
    Layout {
        opts: record(1, Some(false), 16, 24),
        x_shift: 1,
        y_shift: 0,
        pitch: 10,
    }
}

fn built(frame: &mut [u8], layout: Layout, src: &[u8], src_pitch: usize) -> u32 {
    let mut spill = [7u8; 128];
    let mut scratch = [9u8; 1024];
    let numbers = made(layout);
    number(build_plane(
        frame,
        &mut spill,
        &mut scratch,
        layout.opts,
        &numbers,
        src,
        src_pitch,
    ))
}

// A byte of a frame, printed with its line at once, or that the build was refused.
#[derive(Clone, Copy)]
struct ByteOf(Option<u8>);

impl fmt::Display for ByteOf {
    fn fmt<W: fmt::Write>(&self, f: &mut fmt::Formatter<W>) -> fmt::Result {
        match self.0 {
            Some(b) => write!(f, "{b}"),
            None => write!(f, "not built"),
        }
    }
}

fn layout(pel: i32, width: i32, height: i32, x_shift: u32, pitch: usize) -> Layout {
    Layout {
        opts: record(pel, None, width, height),
        x_shift,
        y_shift: 0,
        pitch,
    }
}

// Zeros where it is refused, which the other calls refuse.
fn made(layout: Layout) -> [usize; LAYOUT] {
    level_regions(layout).unwrap_or([0; LAYOUT])
}

// By the defaults but for pel and full; zeros where it is refused.
fn record(pel: i32, full: Option<bool>, width: i32, height: i32) -> SuperOpts {
    let settings = Settings {
        pel: Some(pel),
        gpu: None,
        down: None,
        up: None,
        full,
        rc: None,
        lean: None,
    };
    SuperOpts::from_opt(settings, width, height).unwrap_or_default()
}

fn cleared(frame: &mut [u8], layout: Layout) -> u32 {
    let numbers = made(layout);
    number(clear_margins(frame, layout.opts, &numbers))
}

fn number(t: Result<(), Refusal>) -> u32 {
    match t {
        Ok(()) => 0,
        Err(f) => f.number(),
    }
}

// The byte of level 1, of a frame of ones after its margins were cleared, that follows its first row.
fn margin(layout: Layout, width: u8) -> u8 {
    let mut frame = [1u8; 1024];
    cleared(&mut frame, layout);
    frame[512 + usize::from(width)]
}

// The same after a build from zeros, at twice the width.
fn built_margin(layout: Layout, width: u8) -> Option<u8> {
    let mut frame = [1u8; 1024];
    let src = [0u8; 512];
    if built(&mut frame, layout, &src, 32) != 0 {
        return None;
    }
    Some(frame[512 + 2 * usize::from(width)])
}
