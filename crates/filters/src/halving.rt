// Rows of a later level: the four halving filters.
// First the filters, each with its rows, edge, rounding term and weights; then which of them `down` names, and a filter by its type; then a row down the rows, a row of pairs halved; last the row taken apart for that, and the generic cubic on its other columns.
ghost use Rattle.std.specs.Prelude.{◌≡◌, ◌+◌, ◌*◌, ◌/◌, ◌%◌, ◌≤◌, ◌<◌, length, get_or};
ghost use Rattle.filters.specs.Row.{sixes};
ghost use Rattle.filters.specs.Halve.{chosen, first_row, last_row, last_is_mean, is_edge, weigh, rest_of, headed};
ghost use Rattle.filters.specs.Inner.{Low, Reach, Apart, weighed_apart, with_last, reduced_apart};

use crate::rows::{mean, rest};
use crate::six::{Taps, six_row};

#[derive(Clone, Copy)]
pub enum ReduceFilter {
    Average,
    Bilinear,
    Quadratic,
    Cubic,
}

// No trait over the four: which one it is shows only in a build, so each constant would have its match all the same, and their weights read 3, 4 or 6 taps.
// A filter's constants: the first row that it reads, counted up from the source row, and the last, counted down; whether the last output is a mean; and the rounding term.
// `weigh` shifts in two steps, which takes fewer instructions on vectors: what counts 2, 4 or 8 times is added once, after the rest is shifted by 1, 2 or 3. The bits that the rest loses can't reach the result.
#[derive(Clone, Copy)]
pub struct Average;

#[derive(Clone, Copy)]
pub struct Bilinear;

#[derive(Clone, Copy)]
pub struct Quadratic;

#[derive(Clone, Copy)]
pub struct Cubic;

impl Average {
    pub const FIRST_ROW: usize = 1;

    pub const LAST_ROW: usize = 1;

    pub const LAST_IS_MEAN: bool = false;

    pub const ROUND: u16 = 2;

    fn weigh(m1: u16, c0: u16, p1: u16) -> u8
        requires { Low 0 m1 c0 p1 0 0 }
        ensures { result ≡ weigh ReduceFilter.Average 0 m1 c0 p1 0 0 }
    {
        ((((m1 + p1) >> 1) + c0 + Self::ROUND / 2) >> 1) as u8
    }
}

impl Bilinear {
    pub const FIRST_ROW: usize = 1;

    pub const LAST_ROW: usize = 2;

    pub const LAST_IS_MEAN: bool = true;

    pub const ROUND: u16 = 4;

    fn weigh(m1: u16, c0: u16, p1: u16, p2: u16) -> u8
        requires { Low 0 m1 c0 p1 p2 0 }
        ensures { result ≡ weigh ReduceFilter.Bilinear 0 m1 c0 p1 p2 0 }
    {
        let inner = c0 + p1;
        ((((m1 + p2 + inner + Self::ROUND) >> 1) + inner) >> 2) as u8
    }
}

impl Quadratic {
    pub const FIRST_ROW: usize = 2;

    pub const LAST_ROW: usize = 3;

    pub const LAST_IS_MEAN: bool = true;

    pub const ROUND: u16 = 32;

    fn weigh(m2: u16, m1: u16, c0: u16, p1: u16, p2: u16, p3: u16) -> u8
        requires { Low m2 m1 c0 p1 p2 p3 }
        ensures { result ≡ weigh ReduceFilter.Quadratic m2 m1 c0 p1 p2 p3 }
    {
        let outer = m1 + p2;
        ((((m2 + p3 + outer + 22 * (c0 + p1) + Self::ROUND) >> 3) + outer) >> 3) as u8
    }
}

impl Cubic {
    pub const FIRST_ROW: usize = 2;

    pub const LAST_ROW: usize = 3;

    pub const LAST_IS_MEAN: bool = true;

    pub const ROUND: u16 = 16;

    fn weigh(m2: u16, m1: u16, c0: u16, p1: u16, p2: u16, p3: u16) -> u8
        requires { Low m2 m1 c0 p1 p2 p3 }
        ensures { result ≡ weigh ReduceFilter.Cubic m2 m1 c0 p1 p2 p3 }
    {
        let inner = m1 + p2 + 2 * (c0 + p1);
        ((((m2 + p3 + inner + Self::ROUND) >> 2) + inner) >> 3) as u8
    }
}

impl ReduceFilter {
    // The filter that a down setting names.
    #[tactic(auto, using(crate::proofs::Chosen::none_chosen), unfolding(crate::specs::Halve::chosen))]
    pub fn from_option(value: i32) -> Option<ReduceFilter>
        ensures { result ≡ chosen value }
    {
        match value {
            0 | 1 => Some(ReduceFilter::Average),
            2 => Some(ReduceFilter::Bilinear),
            3 => Some(ReduceFilter::Quadratic),
            4 => Some(ReduceFilter::Cubic),
            _ => None,
        }
    }

    // The first row that it reads, counted up from the source row.
    pub fn first_row(self) -> usize
        ensures { result ≡ first_row self }
    {
        match self {
            ReduceFilter::Average => Average::FIRST_ROW,
            ReduceFilter::Bilinear => Bilinear::FIRST_ROW,
            ReduceFilter::Quadratic => Quadratic::FIRST_ROW,
            ReduceFilter::Cubic => Cubic::FIRST_ROW,
        }
    }

    // The last row that it reads, counted down from the source row.
    pub fn last_row(self) -> usize
        ensures { result ≡ last_row self }
    {
        match self {
            ReduceFilter::Average => Average::LAST_ROW,
            ReduceFilter::Bilinear => Bilinear::LAST_ROW,
            ReduceFilter::Quadratic => Quadratic::LAST_ROW,
            ReduceFilter::Cubic => Cubic::LAST_ROW,
        }
    }

    // Whether the last output is a mean.
    fn last_is_mean(self) -> bool
        ensures { result ≡ last_is_mean self }
    {
        match self {
            ReduceFilter::Average => Average::LAST_IS_MEAN,
            ReduceFilter::Bilinear => Bilinear::LAST_IS_MEAN,
            ReduceFilter::Quadratic => Quadratic::LAST_IS_MEAN,
            ReduceFilter::Cubic => Cubic::LAST_IS_MEAN,
        }
    }

    // Whether target row y is the mean of its two source rows.
    pub fn vertical_edge(self, y: usize, height: usize) -> bool
        requires { y < height }
        ensures { result ≡ is_edge self y height }
    {
        (y == 0) | (self.last_is_mean() & (height <= y + 1))
    }

    fn weigh(self, m2: u16, m1: u16, c0: u16, p1: u16, p2: u16, p3: u16) -> u8
        requires { Low m2 m1 c0 p1 p2 p3 }
        ensures { result ≡ weigh self m2 m1 c0 p1 p2 p3 }
    {
        match self {
            ReduceFilter::Average => Average::weigh(m1, c0, p1),
            ReduceFilter::Bilinear => Bilinear::weigh(m1, c0, p1, p2),
            ReduceFilter::Quadratic => Quadratic::weigh(m2, m1, c0, p1, p2, p3),
            ReduceFilter::Cubic => Cubic::weigh(m2, m1, c0, p1, p2, p3),
        }
    }

    // One target row that is no edge, from the rows around the source row. A row that the filter doesn't read may be any that is long enough.
    pub fn vertical_filter(
        self,
        out: &mut [u8],
        m2: &[u8],
        m1: &[u8],
        c0: &[u8],
        p1: &[u8],
        p2: &[u8],
        p3: &[u8],
    )
        requires { Reach (length out.old) m2.now m1.now c0.now p1.now p2.now p3.now }
        ensures { out.new ≡ sixes (weigh self) (length out.old) m2.now m1.now c0.now p1.now p2.now p3.now }
    {
        six_row(self, out, m2, m1, c0, p1, p2, p3);
    }

    // The weights at every place of a row taken apart. Past either end of the row they see whatever stands there.
    fn weigh_apart(self, out: &mut [u8], split: &[u8])
        requires { 2 * length out.old + 2 ≤ length split.now }
        ensures { out.new ≡ weighed_apart self (length out.old) split.now }
    {
        let n = out.len();
        self.vertical_filter(
            out,
            split,
            rest(split, n),
            rest(split, 1),
            rest(split, n + 1),
            rest(split, 2),
            rest(split, n + 2),
        );
    }

    // The last place, for all but average the mean of the last pair; the others stay.
    fn put_last(self, out: &mut [u8], split: &[u8])
        requires { (0 < length out.old) × (2 * length out.old < length split.now) }
        ensures { out.new ≡ with_last self (length out.old) split.now out.old }
    {
        let n = out.len();
        if self.last_is_mean() {
            out[n - 1] = mean(split[n], split[2 * n]);
        }
    }

    // A row of pairs, halved, from what `deinterleave` made of it. The weights run over the edges too, which are written again: without those a loop would leave the most places past whole vectors. The first place is stored last, since it may be the last place too.
    #[tactic(auto, using(crate::proofs::Pairs::reduced))]
    pub fn reduce_row(self, out: &mut [u8], split: &[u8])
        requires { (0 < length out.old) × (2 * length out.old + 2 ≤ length split.now) }
        ensures { out.new ≡ reduced_apart self (length out.old) split.now }
    {
        self.weigh_apart(out, split);
        self.put_last(out, split);
        out[0] = split[1];
    }
}

impl Taps for ReduceFilter {
    ghost rule = { weigh };

    fn weighed(self, m2: u8, m1: u8, c0: u8, p1: u8, p2: u8, p3: u8) -> u8 {
        self.weigh(
            m2 as u16, m1 as u16, c0 as u16, p1 as u16, p2 as u16, p3 as u16,
        )
    }
}

// n pairs taken apart, since the weights are quick over contiguous bytes; byte 0 is replaced by output 0.
pub fn deinterleave(split: &mut [u8], src: &[u8], n: usize)
    requires { (0 < n) × (2 * n ≤ length src.now) × (2 * n + 2 ≤ length split.old) }
    ensures { Apart n n (headed src.now) split.new }
{
    take_apart(split, src, n);
    split[1] = mean(src[0], src[1]);
}

// The even bytes of n pairs from place 1 on, and then the odd ones. By index: a turn writes two places of one slice.
fn take_apart(split: &mut [u8], src: &[u8], n: usize)
    requires { (2 * n ≤ length src.now) × (2 * n + 2 ≤ length split.old) }
    ensures { Apart n n src.now split.new }
{
    for i in 0..n {
        let at = i + 1;
        let pair = pair_at(src, 2 * i);
        split[at] = (pair % 256) as u8;
        split[n + at] = (pair / 256) as u8;
    }
}

// A pair as one number, its first byte the low one: of bytes two apart the compiler makes no vectors, of such numbers side by side it does. It joins the two reads only in a function of their own.
fn pair_at(src: &[u8], at: usize) -> u16
    requires { at + 1 < length src.now }
    ensures { (result % 256 ≡ get_or src.now at 0) × (result / 256 ≡ get_or src.now (at + 1) 0) }
{
    (src[at] as u16) + 256 * (src[at + 1] as u16)
}

// The generic cubic's columns past the whole eights, of a target row that is no edge: a, b and c are the bytes at half pitches.
pub fn cubic_rest(out: &mut [u8], a: &[u8], m1: &[u8], c0: &[u8], p1: &[u8], b: &[u8], c: &[u8])
    requires { Reach (length out.old) a.now m1.now c0.now p1.now b.now c.now }
    ensures { out.new ≡ sixes rest_of (length out.old) a.now m1.now c0.now p1.now b.now c.now }
{
    ReduceFilter::Cubic.vertical_filter(out, a, m1, c0, p1, b, c);
}
