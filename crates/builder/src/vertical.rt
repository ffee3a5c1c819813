// One row of a later level before it is halved: from the rows of its source around it, with open-svpflow's edges and, for the generic cubic, the columns past its whole eights.
// `s` and `src_pitch` stay two parameters: of a struct by value with a reference in it, each clause would say `rows.entry.bytes.now` for `s.now`.
// First the columns by rows alone; then the others; last the row.
ghost use Rattle.std.specs.Prelude.{◌≡◌, ◌+◌, ◌*◌, ◌≤◌, ◌<◌, length};
ghost use Rattle.filters.specs.Halve.{last_row};
ghost use Rattle.builder.specs.Halving.{whole_of, whole_line, rest_line, inner_line, vertical_line};
ghost use Rattle.builder.specs.Room.{Source};

use crate::canvas::span;
use filters::halving::{ReduceFilter, cubic_rest};
use filters::rows::mean_row;

fn whole_columns(filter: ReduceFilter, n: usize) -> usize
    ensures { (result ≡ whole_of filter n) × (result ≤ n) }
{
    match filter {
        ReduceFilter::Cubic => n / 8 * 8,
        ReduceFilter::Average | ReduceFilter::Bilinear | ReduceFilter::Quadratic => n,
    }
}

// A row that the filter doesn't read may lie past the source: one that it reads stands in for it.
#[tactic(auto, using(crate::proofs::Lines::whole_read))]
fn whole_line(filter: ReduceFilter, out: &mut [u8], s: &[u8], at: usize, src_pitch: usize)
    requires { (2 * src_pitch ≤ at) × (at + last_row filter * src_pitch + length out.old ≤ length s.now) }
    ensures { out.new ≡ whole_line filter (length out.old) s.now at src_pitch }
{
    let n = out.len();
    let first = filter.first_row();
    let last = filter.last_row();
    let m2 = span(s, at - first * src_pitch, n);
    let m1 = span(s, at - src_pitch, n);
    let c0 = span(s, at, n);
    let p1 = span(s, at + src_pitch, n);
    let p2 = span(s, at + last.min(2) * src_pitch, n);
    let p3 = span(s, at + last * src_pitch, n);
    filter.vertical_filter(out, m2, m1, c0, p1, p2, p3);
}

#[tactic(auto, unfolding(crate::specs::Halving::rest_line))]
fn rest_line(out: &mut [u8], s: &[u8], x: usize, src_pitch: usize)
    requires { (2 * src_pitch ≤ x) × (x + 3 * src_pitch + length out.old ≤ length s.now) }
    ensures { out.new ≡ rest_line (length out.old) s.now x src_pitch }
{
    let n = out.len();
    let half = src_pitch / 2;
    let a = span(s, x - half, n);
    let m1 = span(s, x - src_pitch, n);
    let c0 = span(s, x, n);
    let p1 = span(s, x + src_pitch, n);
    let b = span(s, x + half, n);
    let c = span(s, x + 3 * half, n);
    cubic_rest(out, a, m1, c0, p1, b, c);
}

#[tactic(auto, using(crate::proofs::Lines::inner_all, crate::proofs::Lines::inner_both))]
fn inner_line(filter: ReduceFilter, out: &mut [u8], s: &[u8], at: usize, src_pitch: usize)
    requires { (2 * src_pitch ≤ at) × (at + last_row filter * src_pitch + length out.old ≤ length s.now) }
    ensures { out.new ≡ inner_line filter (whole_of filter (length out.old)) (length out.old) s.now at src_pitch }
{
    let n = out.len();
    let whole = whole_columns(filter, n);
    whole_line(filter, &mut out[..whole], s, at, src_pitch);
    if whole == n {
        return;
    }
    rest_line(&mut out[whole..], s, at + whole, src_pitch);
}

// Target row y of h, from the source rows that lie src_pitch apart from base.
#[tactic(auto, using(crate::proofs::Lines::line_edge, crate::proofs::Lines::line_inner))]
pub fn vertical_line(
    filter: ReduceFilter,
    out: &mut [u8],
    s: &[u8],
    base: usize,
    src_pitch: usize,
    h: usize,
    y: usize,
)
    requires { Source (length s.now) base src_pitch (length out.old) h × (y < h) }
    ensures { out.new ≡ vertical_line filter (whole_of filter (length out.old)) (length out.old) h s.now base src_pitch y }
{
    let at = base + y * (2 * src_pitch);
    if filter.vertical_edge(y, h) {
        let n = out.len();
        let c0 = span(s, at, n);
        let p1 = span(s, at + src_pitch, n);
        mean_row(out, c0, p1);
        return;
    }
    inner_line(filter, out, s, at, src_pitch);
}
