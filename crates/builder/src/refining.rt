// The planes of level 0 between its places: open-svpflow's `refine` and `Interp`.
// First the means of two rows; then a block of the three planes at half places; then a plane from one or two others; then the planes at half places, at once or in turn; then the table of the pairs between those; last the whole.
ghost use Rattle.std.specs.Prelude.{◌≡◌, ◌⊎◌, ◌+◌, ◌*◌, ◌-◌, ◌≤◌, ◌<◌, length};
ghost use Rattle.settings.specs.Limits.{most_side, most_pitch};
ghost use Rattle.filters.specs.Row.{means_of};
ghost use Rattle.filters.specs.Refine.{half_horizontal};
ghost use Rattle.layouts.specs.Storing.{put};
ghost use Rattle.builder.specs.Canvas.{fetch, copy_run, ◌▷◌, bytes_of, Staged};
ghost use Rattle.builder.specs.Refining.{chunked, pair_run, pair_plane, horizontal_plane, vertical_run, vertical_plane, plane_at, mean_planes, kernel_planes, half_planes, pairs, quarter, fold_pairs, refine};
ghost use Rattle.builder.specs.Room.{PairRow, PairPlane, OnePlane, Planes, FirstRow, Halves, Tight, Three, Quarter};

use crate::canvas::{Canvas, put, span};
use filters::half_pel::{HalfPel, Upscale};
use filters::rows::{copy_row, mean, mean_row};

// Planes of `height` rows of `width` bytes, `pitch` apart.
#[derive(Clone, Copy)]
pub struct Interp {
    pub pitch: usize,
    pub width: usize,
    pub height: usize,
}

// A plane between two others. The left one is read `across` columns and `below` rows on, and as many are left out.
#[derive(Clone, Copy)]
pub struct Pair {
    pub target: usize,
    pub left: usize,
    pub right: usize,
    pub across: usize,
    pub below: usize,
}

// The planes at half places, by their numbers.
#[derive(Clone, Copy)]
struct HalfPlanes {
    horizontal: usize,
    vertical: usize,
    diagonal: usize,
    ghost ordered: { Halves horizontal vertical diagonal },
}

const AT_PEL_2: HalfPlanes = HalfPlanes {
    horizontal: 1,
    vertical: 2,
    diagonal: 3,
};

const AT_PEL_4: HalfPlanes = HalfPlanes {
    horizontal: 2,
    vertical: 8,
    diagonal: 10,
};

// By index in the one slice. The left row ends before the target, and the right one does or doesn't begin before it: no byte is laid over before it is read.
fn pair_inside(frame: &mut [u8], t: usize, l: usize, r: usize, n: usize)
    requires { (l + n ≤ t) × ((r + n ≤ t) ⊎ (t ≤ r)) × (r + n ≤ length frame.old) × (t + n ≤ length frame.old) }
    ensures { frame.new ≡ pair_run t l r n frame.old }
{
    for i in 0..n {
        frame[t + i] = mean(frame[l + i], frame[r + i]);
    }
}

// n bytes of the canvas, laid into scratch.
#[tactic(auto, using(layouts::proofs::Loops::put_lent, crate::proofs::Runs::fetch_length))]
fn fetch_into(scratch: &mut [u8], at: usize, n: usize, canvas: &Canvas, start: usize)
    requires { at + n ≤ length scratch.old }
    ensures { scratch.new ≡ put scratch.old at (fetch (bytes_of canvas.now) start n) }
{
    canvas.fetch(&mut scratch[at..at + n], start);
}

// Through scratch: rows that reach over the target, or leave the frame.
#[tactic(auto, using(crate::proofs::Refined::pair_apart), unfolding(crate::specs::Refining::pair_run))]
fn pair_apart(canvas: &mut Canvas, scratch: &mut [u8], t: usize, l: usize, r: usize, n: usize)
    requires { PairRow (length canvas.old.frame.now) (length canvas.old.spill.now) (length scratch.old) t l r n }
    ensures { Staged (pair_run t l r n) canvas.old canvas.new }
{
    fetch_into(scratch, 0, n, canvas, l);
    fetch_into(scratch, n, n, canvas, r);
    pair_inside(scratch, 2 * n, 0, n, n);
    canvas.store(t, span(scratch, 2 * n, n));
}

fn pair_row(canvas: &mut Canvas, scratch: &mut [u8], t: usize, l: usize, r: usize, n: usize)
    requires { PairRow (length canvas.old.frame.now) (length canvas.old.spill.now) (length scratch.old) t l r n }
    ensures { Staged (pair_run t l r n) canvas.old canvas.new }
{
    let len = canvas.frame.len();
    if l + n <= t && t + n <= len && r + n <= len && ((r + n <= t) | (t <= r)) {
        pair_inside(canvas.frame, t, l, r, n);
        return;
    }
    pair_apart(canvas, scratch, t, l, r, n);
}

const BLOCK: usize = 64;

// The means of two parts of a block's length, in an array of their own: all are made before the first is stored.
fn mean_part(frame: &[u8], l: usize, r: usize) -> [u8; BLOCK]
    requires { (l + 64 ≤ length frame.now) × (r + 64 ≤ length frame.now) }
    ensures { result ≡ means_of 64 (fetch frame.now l 64) (fetch frame.now r 64) }
{
    let mut part = [0u8; BLOCK];
    mean_row(&mut part, span(frame, l, BLOCK), span(frame, r, BLOCK));
    part
}

// A block of the planes at a, b and d, from plane 0, whose rows are p apart. All that it reads lies before the first byte that it stores: so the three can be made first, and the compiler reads the block of plane 0 itself once for them.
#[tactic(auto, using(crate::proofs::AtOnce::block_made))]
fn mean_block(frame: &mut [u8], at: usize, p: usize, a: usize, b: usize, d: usize)
    requires { (p + 65 ≤ a) × (a ≤ b) × (b ≤ d) × (d + at + 64 ≤ length frame.old) }
    ensures { frame.new ≡ frame.old ▷ pair_run (a + at) at (1 + at) 64 ▷ pair_run (b + at) at (p + at) 64 ▷ pair_run (d + at) at (p + 1 + at) 64 }
{
    let across = mean_part(frame, at, 1 + at);
    let down = mean_part(frame, at, p + at);
    let both = mean_part(frame, at, p + 1 + at);
    put(frame, a + at, &across);
    put(frame, b + at, &down);
    put(frame, d + at, &both);
}

const SSE_CHUNK: usize = 16;

// The width raised to whole chunks.
fn chunked(w: usize) -> usize
    requires { w ≤ most_pitch }
    ensures { (result ≡ chunked w) × (result ≤ w + 15) }
{
    w.next_multiple_of(SSE_CHUNK)
}

impl Interp {
    // The means of two planes.
    #[tactic(auto, using(crate::proofs::Runs::passed_whole), unfolding(crate::specs::Refining::pair_plane))]
    fn pair(self, canvas: &mut Canvas, scratch: &mut [u8], t: usize, l: usize, r: usize)
        requires { PairPlane (length canvas.old.frame.now) (length canvas.old.spill.now) (length scratch.old) self t l r }
        ensures { Staged (pair_plane self t l r) canvas.old canvas.new }
    {
        let n = chunked(self.width);
        for y in 0..self.height {
            let row = y * self.pitch;
            pair_row(canvas, scratch, t + row, l + row, r + row, n);
        }
    }

    #[tactic(auto, unfolding(crate::specs::Canvas::copy_run))]
    fn copy_first_row(self, frame: &mut [u8], scratch: &mut [u8], t: usize, s: usize)
        requires { (s + self.width ≤ length frame.old) × (t + self.width ≤ length frame.old) × (self.width ≤ length scratch.old) }
        ensures { frame.new ≡ copy_run s t self.width frame.old }
    {
        let row = &mut scratch[..self.width];
        copy_row(row, span(frame, s, self.width));
        put(frame, t, row);
    }

    fn horizontal_row(
        self,
        kernel: HalfPel,
        frame: &mut [u8],
        scratch: &mut [u8],
        t: usize,
        s: usize,
    )
        requires { (s + self.width ≤ length frame.old) × (t + self.width ≤ length frame.old) × (self.width ≤ length scratch.old) }
        ensures { frame.new ≡ put frame.old t (half_horizontal kernel self.width (fetch frame.old s self.width)) }
    {
        let row = &mut scratch[..self.width];
        kernel.horizontal(row, span(frame, s, self.width));
        put(frame, t, row);
    }

    #[tactic(auto, using(layouts::proofs::Loops::walked_whole), unfolding(crate::specs::Refining::horizontal_plane))]
    fn horizontal(self, kernel: HalfPel, frame: &mut [u8], scratch: &mut [u8], t: usize, s: usize)
        requires { OnePlane (length frame.old) (length scratch.old) self.height self t s }
        ensures { frame.new ≡ horizontal_plane kernel self t s frame.old }
    {
        for y in 0..self.height {
            let row = y * self.pitch;
            self.horizontal_row(kernel, frame, scratch, t + row, s + row);
        }
    }

    // Row y of a plane at s.
    fn row(self, frame: &[u8], s: usize, y: usize) -> &[u8]
        requires { s + y * self.pitch + self.width ≤ length frame.now }
        ensures { (result.now ≡ fetch frame.now (s + y * self.pitch) self.width) × (length result.now ≡ self.width) }
    {
        span(frame, s + y * self.pitch, self.width)
    }

    #[tactic(auto, using(crate::proofs::Refined::vertical_rows_lem))]
    fn vertical_line(self, kernel: HalfPel, out: &mut [u8], frame: &[u8], s: usize, y: usize)
        requires { (y < self.height) × (self.height ≤ most_side) × (length out.old ≡ self.width) × (self.width ≤ self.pitch) × (s + (self.height + 3) * self.pitch ≤ length frame.now) }
        ensures { out.new ≡ vertical_run kernel self s y frame.now }
    {
        let m2 = self.row(frame, s, y.saturating_sub(2));
        let m1 = self.row(frame, s, y.saturating_sub(1));
        let c0 = self.row(frame, s, y);
        let p1 = self.row(frame, s, y + 1);
        let p2 = self.row(frame, s, y + 2);
        let p3 = self.row(frame, s, y + 3);
        kernel.vertical(out, y, self.height, m2, m1, c0, p1, p2, p3);
    }

    fn vertical_row(
        self,
        kernel: HalfPel,
        frame: &mut [u8],
        scratch: &mut [u8],
        t: usize,
        s: usize,
        y: usize,
    )
        requires { (y < self.height) × (OnePlane (length frame.old) (length scratch.old) (self.height + 3) self t s) }
        ensures { frame.new ≡ put frame.old (t + y * self.pitch) (vertical_run kernel self s y frame.old) }
    {
        let row = &mut scratch[..self.width];
        self.vertical_line(kernel, row, frame, s, y);
        put(frame, t + y * self.pitch, row);
    }

    #[tactic(auto, using(layouts::proofs::Loops::walked_whole), unfolding(crate::specs::Refining::vertical_plane))]
    fn vertical(self, kernel: HalfPel, frame: &mut [u8], scratch: &mut [u8], t: usize, s: usize)
        requires { OnePlane (length frame.old) (length scratch.old) (self.height + 3) self t s }
        ensures { frame.new ≡ vertical_plane kernel self t s frame.old }
    {
        for y in 0..self.height {
            self.vertical_row(kernel, frame, scratch, t, s, y);
        }
    }

    // Where plane k starts.
    fn plane(self, k: usize) -> usize
        requires { (k ≤ 15) × (self.height ≤ most_side) × (self.pitch ≤ most_pitch) }
        ensures { result ≡ plane_at self k }
    {
        k * (self.height * self.pitch)
    }

    // Plane k, of the means of plane 0 and the places r on; then its first row is copied from s.
    fn pair_under_row(self, canvas: &mut Canvas, scratch: &mut [u8], k: usize, r: usize, s: usize)
        requires { (FirstRow k r s self) × (Planes (k + 1) (length canvas.old.frame.now) (length scratch.old) self) × (16 ≤ length canvas.old.spill.now) }
        ensures { Staged (λ c. c ▷ pair_plane self (plane_at self k) 0 r ▷ copy_run s (plane_at self k) self.width) canvas.old canvas.new }
    {
        let t = self.plane(k);
        self.pair(canvas, scratch, t, 0, r);
        self.copy_first_row(canvas.frame, scratch, t, s);
    }

    // The planes at a, b and d in one pass, which is open-svpflow's `refine_bilinear2`.
    fn mean_blocks(self, frame: &mut [u8], a: usize, b: usize, d: usize)
        requires { (Tight self) × (Three (length frame.old) self a b d) }
        ensures { frame.new ≡ frame.old ▷ pair_plane self a 0 1 ▷ pair_plane self b 0 self.pitch ▷ pair_plane self d 0 (self.pitch + 1) }
    {
        let n = self.height * self.pitch / BLOCK;
        for k in 0..n {
            mean_block(frame, k * BLOCK, self.pitch, a, b, d);
        }
    }

    fn mean_at_once(self, frame: &mut [u8], scratch: &mut [u8], at: HalfPlanes)
        requires { (Tight self) × (Planes (at.diagonal + 1) (length frame.old) (length scratch.old) self) }
        ensures { frame.new ≡ mean_planes self at.horizontal at.vertical at.diagonal frame.old }
    {
        let across = self.plane(at.horizontal);
        let below = self.plane(at.vertical);
        let both = self.plane(at.diagonal);
        self.mean_blocks(frame, across, below, both);
        self.copy_first_row(frame, scratch, below, 0);
        self.copy_first_row(frame, scratch, both, 1);
    }

    #[tactic(auto, unfolding(crate::specs::Refining::mean_planes))]
    fn mean_in_turn(self, canvas: &mut Canvas, scratch: &mut [u8], at: HalfPlanes)
        requires { (Planes (at.diagonal + 1) (length canvas.old.frame.now) (length scratch.old) self) × (16 ≤ length canvas.old.spill.now) }
        ensures { Staged (mean_planes self at.horizontal at.vertical at.diagonal) canvas.old canvas.new }
    {
        let target = self.plane(at.horizontal);
        self.pair(canvas, scratch, target, 0, 1);
        self.pair_under_row(canvas, scratch, at.vertical, self.pitch, 0);
        self.pair_under_row(canvas, scratch, at.diagonal, self.pitch + 1, 1);
    }

    // At once where the chunks of rows lie end to end, a plane is whole blocks, and what a block reads, up to a row and a byte further on, lies before the block of the next plane; else in turn.
    fn mean_planes(self, canvas: &mut Canvas, scratch: &mut [u8], at: HalfPlanes)
        requires { (Planes (at.diagonal + 1) (length canvas.old.frame.now) (length scratch.old) self) × (16 ≤ length canvas.old.spill.now) }
        ensures { Staged (mean_planes self at.horizontal at.vertical at.diagonal) canvas.old canvas.new }
    {
        let size = self.plane(1);
        if chunked(self.width) == self.pitch
            && size.is_multiple_of(BLOCK)
            && self.pitch + BLOCK < size
        {
            self.mean_at_once(canvas.frame, scratch, at);
            return;
        }
        self.mean_in_turn(canvas, scratch, at);
    }

    #[tactic(auto, unfolding(crate::specs::Refining::kernel_planes))]
    fn kernel_planes(self, kernel: HalfPel, frame: &mut [u8], scratch: &mut [u8], at: HalfPlanes)
        requires { Planes (at.diagonal + 1) (length frame.old) (length scratch.old) self }
        ensures { frame.new ≡ kernel_planes kernel self at.horizontal at.vertical at.diagonal frame.old }
    {
        let across = self.plane(at.horizontal);
        let below = self.plane(at.vertical);
        let both = self.plane(at.diagonal);
        self.horizontal(kernel, frame, scratch, across, 0);
        self.vertical(kernel, frame, scratch, below, 0);
        self.horizontal(kernel, frame, scratch, both, below);
    }

    // The planes at half places, by their numbers.
    #[tactic(auto, unfolding(crate::specs::Refining::half_planes))]
    fn half_planes(self, canvas: &mut Canvas, scratch: &mut [u8], upscale: Upscale, at: HalfPlanes)
        requires { (Planes (at.diagonal + 1) (length canvas.old.frame.now) (length scratch.old) self) × (16 ≤ length canvas.old.spill.now) }
        ensures { Staged (half_planes upscale self at.horizontal at.vertical at.diagonal) canvas.old canvas.new }
    {
        match upscale {
            Upscale::Means => self.mean_planes(canvas, scratch, at),
            Upscale::Kernel(kernel) => self.kernel_planes(kernel, canvas.frame, scratch, at),
        }
    }
}

// The pairs between the planes at half places, in the order in which they are made.
pub const PAIRS: [Pair; 12] = [
    Pair {
        target: 1,
        left: 0,
        right: 2,
        across: 0,
        below: 0,
    },
    Pair {
        target: 9,
        left: 8,
        right: 10,
        across: 0,
        below: 0,
    },
    Pair {
        target: 4,
        left: 0,
        right: 8,
        across: 0,
        below: 0,
    },
    Pair {
        target: 6,
        left: 2,
        right: 10,
        across: 0,
        below: 0,
    },
    Pair {
        target: 5,
        left: 4,
        right: 6,
        across: 0,
        below: 0,
    },
    Pair {
        target: 3,
        left: 0,
        right: 2,
        across: 1,
        below: 0,
    },
    Pair {
        target: 11,
        left: 8,
        right: 10,
        across: 1,
        below: 0,
    },
    Pair {
        target: 12,
        left: 0,
        right: 8,
        across: 0,
        below: 1,
    },
    Pair {
        target: 14,
        left: 2,
        right: 10,
        across: 0,
        below: 1,
    },
    Pair {
        target: 13,
        left: 12,
        right: 14,
        across: 0,
        below: 0,
    },
    Pair {
        target: 7,
        left: 4,
        right: 6,
        across: 1,
        below: 0,
    },
    Pair {
        target: 15,
        left: 12,
        right: 14,
        across: 1,
        below: 0,
    },
];

#[tactic(auto, unfolding(crate::specs::Refining::quarter))]
fn quarter(canvas: &mut Canvas, scratch: &mut [u8], i: Interp, pair: Pair)
    requires { (Quarter pair) × (Planes 16 (length canvas.old.frame.now) (length scratch.old) i) × (16 ≤ length canvas.old.spill.now) }
    ensures { Staged (quarter i pair) canvas.old canvas.new }
{
    let part = Interp {
        width: i.width - pair.across,
        height: i.height - pair.below,
        ..i
    };
    let target = i.plane(pair.target);
    let left = i.plane(pair.left) + pair.across + pair.below * i.pitch;
    let right = i.plane(pair.right);
    part.pair(canvas, scratch, target, left, right);
}

fn quarters(canvas: &mut Canvas, scratch: &mut [u8], i: Interp)
    requires { (Planes 16 (length canvas.old.frame.now) (length scratch.old) i) × (16 ≤ length canvas.old.spill.now) }
    ensures { Staged (fold_pairs (quarter i) pairs) canvas.old canvas.new }
{
    for pair in PAIRS {
        quarter(canvas, scratch, i, pair);
    }
}

#[tactic(auto, using(crate::proofs::Refined::pel_four), unfolding(crate::specs::Refining::refine))]
pub fn refine(canvas: &mut Canvas, scratch: &mut [u8], i: Interp, pel: u32, upscale: Upscale)
    requires { ((pel ≡ 2) ⊎ (pel ≡ 4)) × (Planes (pel * pel) (length canvas.old.frame.now) (length scratch.old) i) × (16 ≤ length canvas.old.spill.now) }
    ensures { Staged (refine i pel upscale) canvas.old canvas.new }
{
    if pel == 2 {
        i.half_planes(canvas, scratch, upscale, AT_PEL_2);
        return;
    }
    i.half_planes(canvas, scratch, upscale, AT_PEL_4);
    quarters(canvas, scratch, i);
}
