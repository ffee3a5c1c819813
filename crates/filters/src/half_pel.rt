// Half samples by the six taps, bicubic (`CatmullRom`) and `Wiener`.
// First the kernels with their edges and rounding terms; then which of them `up` names; a place by its kernel; last a row down the rows, and a row along a row.
ghost use Rattle.std.specs.Prelude.{◌≡◌, ◌-◌, ◌≤◌, ◌<◌, min, length};
ghost use Rattle.filters.specs.Row.{sixes};
ghost use Rattle.filters.specs.Refine.{upscale, lead_of, tail_of, half_pel, half_horizontal, half_vertical};
ghost use Rattle.filters.specs.Inner.{Reach, natural_pel, next_means};

use crate::rows::{copy_row, mean_row, rest};
use crate::six::{Taps, six_row};

// Document 01's bicubic and Wiener.
#[derive(Clone, Copy)]
pub enum HalfPel {
    CatmullRom,
    Wiener,
}

// What an up setting names: means of neighbours (document 01's bilinear), or a kernel. No Option: means are a filter too, where None would say that there is none.
#[derive(Clone, Copy)]
pub enum Upscale {
    Means,
    Kernel(HalfPel),
}

// No trait over the two, as over the halving filters: each constant would have its match all the same, and they read 4 or 6 taps.
// A kernel's constants: how many of the first places are means, from which place before the end on they are again (the copied place counted), and the rounding term.
#[derive(Clone, Copy)]
pub struct CatmullRom;

#[derive(Clone, Copy)]
pub struct Wiener;

impl CatmullRom {
    pub const LEAD: usize = 1;

    pub const TAIL: usize = 3;

    pub const ROUND: u16 = 8;

    fn apply(m1: u8, c0: u8, p1: u8, p2: u8) -> u8
        ensures { result ≡ natural_pel HalfPel.CatmullRom 0 m1 c0 p1 p2 0 }
    {
        let plus = 9 * ((c0 as u16) + (p1 as u16)) + Self::ROUND;
        let minus = (m1 as u16) + (p2 as u16);
        held(plus.saturating_sub(minus) >> 4)
    }
}

impl Wiener {
    pub const LEAD: usize = 2;

    pub const TAIL: usize = 4;

    pub const ROUND: u16 = 16;

    fn apply(m2: u8, m1: u8, c0: u8, p1: u8, p2: u8, p3: u8) -> u8
        ensures { result ≡ natural_pel HalfPel.Wiener m2 m1 c0 p1 p2 p3 }
    {
        let plus = (m2 as u16) + 20 * ((c0 as u16) + (p1 as u16)) + (p3 as u16) + Self::ROUND;
        let minus = 5 * ((m1 as u16) + (p2 as u16));
        held(plus.saturating_sub(minus) >> 5)
    }
}

// To 255. A difference below 0 is 0 already, by `saturating_sub`: so a result is held to 0..255.
fn held(v: u16) -> u8
    ensures { result ≡ min 255 v }
{
    v.min(255) as u8
}

impl HalfPel {
    #[tactic(auto, using(crate::proofs::Chosen::wiener_chosen), unfolding(crate::specs::Refine::upscale))]
    pub fn from_option(value: i32) -> Upscale
        ensures { result ≡ upscale value }
    {
        match value {
            0 => Upscale::Means,
            1 => Upscale::Kernel(HalfPel::CatmullRom),
            _ => Upscale::Kernel(HalfPel::Wiener),
        }
    }

    fn lead(self) -> usize
        ensures { (result ≡ lead_of self) × (1 ≤ result) × (result ≤ 2) }
    {
        match self {
            HalfPel::CatmullRom => CatmullRom::LEAD,
            HalfPel::Wiener => Wiener::LEAD,
        }
    }

    fn tail(self) -> usize
        ensures { (result ≡ tail_of self) × (3 ≤ result) × (result ≤ 4) }
    {
        match self {
            HalfPel::CatmullRom => CatmullRom::TAIL,
            HalfPel::Wiener => Wiener::TAIL,
        }
    }

    // Row y of h, from the rows around it. A row that its place doesn't read may be any that is long enough.
    #[tactic(auto, using(crate::proofs::Places::vertical_copy, crate::proofs::Places::vertical_mean, crate::proofs::Places::vertical_kernel, crate::proofs::Tests::near_end))]
    pub fn vertical(
        self,
        out: &mut [u8],
        y: usize,
        h: usize,
        m2: &[u8],
        m1: &[u8],
        c0: &[u8],
        p1: &[u8],
        p2: &[u8],
        p3: &[u8],
    )
        requires { (y < h) × (Reach (length out.old) m2.now m1.now c0.now p1.now p2.now p3.now) }
        ensures { out.new ≡ half_vertical self y h (length out.old) m2.now m1.now c0.now p1.now p2.now p3.now }
    {
        let left = h - y;
        if left <= 1 {
            copy_row(out, c0);
            return;
        }
        if (y < self.lead()) | (left <= self.tail()) {
            mean_row(out, c0, p1);
            return;
        }
        six_row(self, out, m2, m1, c0, p1, p2, p3);
    }

    // A row of half samples: means and the copied place first, then the kernel over the places between.
    #[tactic(auto, using(crate::proofs::Places::short_row, crate::proofs::Places::long_row))]
    pub fn horizontal(self, out: &mut [u8], row: &[u8])
        requires { length out.old ≤ length row.now }
        ensures { out.new ≡ half_horizontal self (length out.old) row.now }
    {
        let n = out.len();
        mean_with_next(out, row);
        let lead = self.lead();
        let tail = self.tail();
        if n <= lead + tail {
            return;
        }
        let end = n - tail;
        // A kernel that reads m2 starts at place 2, so that its m2 starts with the row.
        six_row(
            self,
            &mut out[lead..end],
            row,
            rest(row, lead - 1),
            rest(row, lead),
            rest(row, lead + 1),
            rest(row, lead + 2),
            rest(row, lead + 3),
        );
    }
}

impl Taps for HalfPel {
    ghost rule = { half_pel };

    fn weighed(self, m2: u8, m1: u8, c0: u8, p1: u8, p2: u8, p3: u8) -> u8 {
        match self {
            HalfPel::CatmullRom => CatmullRom::apply(m1, c0, p1, p2),
            HalfPel::Wiener => Wiener::apply(m2, m1, c0, p1, p2, p3),
        }
    }
}

// Each place the mean with the next, and the last a copy.
#[tactic(auto, using(crate::proofs::Filling::filled_whole, crate::proofs::Filling::filled_none, crate::proofs::Places::next_made), unfolding(crate::specs::Inner::next_means))]
fn mean_with_next(out: &mut [u8], row: &[u8])
    requires { length out.old ≤ length row.now }
    ensures { out.new ≡ next_means (length out.old) row.now }
{
    let n = out.len();
    if n == 0 {
        return;
    }
    let last = n - 1;
    mean_row(&mut out[..last], row, rest(row, 1));
    out[last] = row[last];
}
