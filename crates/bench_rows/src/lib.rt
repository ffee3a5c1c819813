// The row functions for a program in C: what bench/run links and counts. Each is the call of `filters` of its name, on rows of 1,920 bytes; a row is halved by two calls.
#![tactic(auto)]

use filters::half_pel::HalfPel;
use filters::halving::{ReduceFilter, deinterleave};
use filters::rows::{copy_row, mean_row, zero_row};

// The numbers are those of the C interface, as is the length of each row.
fn filter(k: u32) -> ReduceFilter {
    match k {
        1 => ReduceFilter::Average,
        2 => ReduceFilter::Bilinear,
        3 => ReduceFilter::Quadratic,
        _ => ReduceFilter::Cubic,
    }
}

fn kernel(k: u32) -> HalfPel {
    match k {
        1 => HalfPel::CatmullRom,
        _ => HalfPel::Wiener,
    }
}

#[unsafe(no_mangle)]
pub extern "C" fn row_means(out: &mut [u8; 1920], a: &[u8; 1920], b: &[u8; 1920]) {
    mean_row(out, a, b);
}

#[unsafe(no_mangle)]
pub extern "C" fn row_copy(out: &mut [u8; 1920], a: &[u8; 1920]) {
    copy_row(out, a);
}

#[unsafe(no_mangle)]
pub extern "C" fn row_zero(out: &mut [u8; 1920]) {
    zero_row(out);
}

#[unsafe(no_mangle)]
pub extern "C" fn row_vertical(
    k: u32,
    out: &mut [u8; 1920],
    m2: &[u8; 1920],
    m1: &[u8; 1920],
    c0: &[u8; 1920],
    p1: &[u8; 1920],
    p2: &[u8; 1920],
    p3: &[u8; 1920],
) {
    filter(k).vertical_filter(out, m2, m1, c0, p1, p2, p3);
}

#[unsafe(no_mangle)]
pub extern "C" fn row_halved(
    k: u32,
    out: &mut [u8; 960],
    src: &[u8; 1920],
    split: &mut [u8; 1922],
) {
    deinterleave(split, src, 960);
    filter(k).reduce_row(out, split);
}

#[unsafe(no_mangle)]
pub extern "C" fn row_half_along(k: u32, out: &mut [u8; 1920], row: &[u8; 1920]) {
    kernel(k).horizontal(out, row);
}

#[unsafe(no_mangle)]
pub extern "C" fn row_half_down(
    k: u32,
    out: &mut [u8; 1920],
    m2: &[u8; 1920],
    m1: &[u8; 1920],
    c0: &[u8; 1920],
    p1: &[u8; 1920],
    p2: &[u8; 1920],
    p3: &[u8; 1920],
) {
    kernel(k).vertical(out, 4, 16, m2, m1, c0, p1, p2, p3);
}
