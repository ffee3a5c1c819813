// Answers cases about rows, from standard input to standard output: what the comparison with the Rust runs, and the gate on a list of the Rust's own answers.
// A case is 16 bytes and six rows of n bytes after each other: kind, filter, then y, h and n (2 bytes each), a setting (4, signed) and 4 zeros, the low byte first. The answer is n bytes.
// Kinds: 0 means of rows 0 and 1; 1 a copy of row 0; 2 zeros; 3 a target row from the six; 4 rows 0 and 1, taken as one, halved; 5 the generic cubic's other columns; 6 half samples along row 0; 7 row y of h of the half samples down the rows; 8 the filter of a down setting; 9 whether target row y of h is an edge. They stay numbers, which `put` alone reads: an enum of them would be a second list of the ten.
// Filters: 1 average, 2 bilinear, 3 quadratic, 4 cubic; of half samples 1 bicubic, 2 Wiener.
#![tactic(auto)]

ghost use Rattle.std.specs.Prelude.{◌*◌, ◌<◌, ◌≤◌, ◌≡◌, length};

use cases::{End, MOST_CASES, for_each_case, read_array, read_whole};
use filters::half_pel::HalfPel;
use filters::halving::{ReduceFilter, cubic_rest, deinterleave};
use filters::rows::{copy_row, mean_row, zero_row};
use std::io;

const MOST: usize = 4096;

#[derive(Clone, Copy)]
struct Case {
    kind: u8,
    filter: u8,
    y: usize,
    h: usize,
    n: usize,
    value: i32,
}

// The six rows of a case.
#[derive(Clone, Copy)]
struct Rows<'a> {
    n: usize,
    bytes: &'a [u8],
    ghost fits: { (n ≤ 4096) × (6 * n ≤ length bytes.now) },
}

fn main(rt: HostRuntime) -> io::Result<()> {
    for_each_case(&rt, MOST_CASES, || answer(&rt))
}

fn answer<R: Input + Print>(rt: &R) -> Result<(), End> {
    let case = case_of(read_array(rt)?);
    if MOST < case.n {
        return Err(End::NoCase);
    }
    answer_rows(rt, case)
}

fn case_of(head: [u8; 16]) -> Case {
    let [
        kind,
        filter,
        y,
        y_high,
        h,
        h_high,
        n,
        n_high,
        v0,
        v1,
        v2,
        v3,
        ..
    ] = head;
    Case {
        kind,
        filter,
        y: two(y, y_high),
        h: two(h, h_high),
        n: two(n, n_high),
        value: i32::from_le_bytes([v0, v1, v2, v3]),
    }
}

fn two(low: u8, high: u8) -> usize
    ensures { result < 65536 }
{
    usize::from(u16::from_le_bytes([low, high]))
}

fn answer_rows<R: Input + Print>(rt: &R, case: Case) -> Result<(), End>
    requires { case.n ≤ 4096 }
{
    let mut bytes = [0u8; 24576];
    let mut out = [0u8; 4096];
    let n = case.n;
    read_whole(rt, &mut bytes[..6 * n])?;
    put(case, &mut out[..n], Rows { n, bytes: &bytes });
    Ok(rt.write_all(&out[..n])?)
}

fn put(case: Case, out: &mut [u8], rows: Rows<'_>)
    requires { length out.old ≡ rows.n }
{
    match case.kind {
        0 => mean_row(out, rows.row(0), rows.row(1)),
        1 => copy_row(out, rows.row(0)),
        2 => zero_row(out),
        3 => weigh(reduce_filter(case.filter), out, rows),
        4 => halve(reduce_filter(case.filter), out, rows),
        5 => rest(out, rows),
        6 => half_pel(case.filter).horizontal(out, rows.row(0)),
        7 => down(case, out, rows),
        8 => first(out, chosen(case.value)),
        _ => first(out, edge(case)),
    }
}

impl<'a> Rows<'a> {
    fn row(self, k: usize) -> &'a [u8]
        requires { k ≤ 5 }
        ensures { length result.now ≡ self.entry.n }
    {
        let at = k * self.n;
        &self.bytes[at..at + self.n]
    }
}

// `bench_rows` has these two for the numbers of its calls from C: a crate for both would be longer than the four.
fn reduce_filter(k: u8) -> ReduceFilter {
    match k {
        1 => ReduceFilter::Average,
        2 => ReduceFilter::Bilinear,
        3 => ReduceFilter::Quadratic,
        _ => ReduceFilter::Cubic,
    }
}

fn half_pel(k: u8) -> HalfPel {
    match k {
        1 => HalfPel::CatmullRom,
        _ => HalfPel::Wiener,
    }
}

fn weigh(f: ReduceFilter, out: &mut [u8], rows: Rows<'_>)
    requires { length out.old ≡ rows.n }
{
    f.vertical_filter(
        out,
        rows.row(0),
        rows.row(1),
        rows.row(2),
        rows.row(3),
        rows.row(4),
        rows.row(5),
    );
}

fn halve(f: ReduceFilter, out: &mut [u8], rows: Rows<'_>)
    requires { length out.old ≡ rows.n }
{
    if rows.n == 0 {
        return;
    }
    let mut split = [0u8; 8194];
    deinterleave(&mut split, rows.bytes, rows.n);
    f.reduce_row(out, &split);
}

fn rest(out: &mut [u8], rows: Rows<'_>)
    requires { length out.old ≡ rows.n }
{
    cubic_rest(
        out,
        rows.row(0),
        rows.row(1),
        rows.row(2),
        rows.row(3),
        rows.row(4),
        rows.row(5),
    );
}

fn down(case: Case, out: &mut [u8], rows: Rows<'_>)
    requires { length out.old ≡ rows.n }
{
    let y = case.y;
    let h = case.h;
    if h <= y {
        return;
    }
    half_pel(case.filter).vertical(
        out,
        y,
        h,
        rows.row(0),
        rows.row(1),
        rows.row(2),
        rows.row(3),
        rows.row(4),
        rows.row(5),
    );
}

fn first(out: &mut [u8], b: u8) {
    if let Some(place) = out.first_mut() {
        *place = b;
    }
}

fn chosen(value: i32) -> u8 {
    let Some(f) = ReduceFilter::from_option(value) else {
        return 0;
    };
    match f {
        ReduceFilter::Average => 1,
        ReduceFilter::Bilinear => 2,
        ReduceFilter::Quadratic => 3,
        ReduceFilter::Cubic => 4,
    }
}

fn edge(case: Case) -> u8 {
    let y = case.y;
    let h = case.h;
    if h <= y {
        return 0;
    }
    u8::from(reduce_filter(case.filter).vertical_edge(y, h))
}
