// The canvas: a frame and, past its end, the lent spill, as one run of bytes. Reading past both gives 0.
// Reading, a part that is a window on it, and storing. Each run is cut once, where the frame ends, and no byte is tested by itself.
// `read` and `fetch` cut alike and stay two: what comes after the cut, zeros or the spill, would be a closure, whose contract would be all of theirs.
ghost use Rattle.std.specs.Prelude.{◌≡◌, cond, ◌++◌, ◌+◌, ◌-◌, ◌≤◌, length, replicate, leb};
ghost use Rattle.layouts.specs.Storing.{put, part_at, part_at_mut};
ghost use Rattle.builder.specs.Canvas.{fetch, bytes_of, Staged};

use filters::rows::{copy_row, zero_row};

// The spill may have any length: the stages that need 16 bytes of it say so.
// Contracts see both slices, and of a stage that these stay the ones that were lent (`Staged`). No `impl Model`: behind it who lent them would not know what they hold after.
#[derive(Drop)]
pub struct Canvas<'a> {
    pub frame: &'a mut [u8],
    pub spill: &'a mut [u8],
}

// The n bytes of c from start, which lie in it.
#[tactic(auto, using(crate::proofs::Runs::fetch_part, crate::proofs::Runs::fetch_length))]
pub fn span(c: &[u8], start: usize, n: usize) -> &[u8]
    requires { start + n ≤ length c.now }
    ensures { (result.now ≡ fetch c.now start n) × (length result.now ≡ n) × (result.ref_ptr ≡ part_at c.entry start) }
{
    &c[start..start + n]
}

// The bytes of c from start on, zeros past its end.
#[tactic(auto, using(crate::proofs::Runs::fetch_past, crate::proofs::Runs::copy_whole, crate::proofs::Runs::read_cut))]
fn read(out: &mut [u8], c: &[u8], start: usize)
    ensures { out.new ≡ fetch c.now start (length out.old) }
{
    let len = c.len();
    if len <= start {
        zero_row(out);
        return;
    }
    let k = len - start;
    if out.len() <= k {
        copy_row(out, &c[start..]);
        return;
    }
    copy_row(&mut out[..k], &c[start..]);
    zero_row(&mut out[k..]);
}

#[tactic(auto, using(crate::proofs::Runs::fetch_left, crate::proofs::Runs::fetch_right, crate::proofs::Runs::copy_whole, crate::proofs::Runs::fetch_cut))]
fn fetch(out: &mut [u8], frame: &[u8], spill: &[u8], start: usize)
    ensures { out.new ≡ fetch (frame.now ++ spill.now) start (length out.old) }
{
    let len = frame.len();
    if len <= start {
        read(out, spill, start - len);
        return;
    }
    let k = len - start;
    if out.len() <= k {
        copy_row(out, &frame[start..]);
        return;
    }
    copy_row(&mut out[..k], &frame[start..]);
    read(&mut out[k..], spill, 0);
}

// The first n bytes of scratch, filled with those of the canvas.
fn fetched<'a>(
    frame: &[u8],
    spill: &[u8],
    scratch: &'a mut [u8],
    start: usize,
    n: usize,
) -> &'a [u8]
    requires { n ≤ length scratch.old }
    ensures { (result.now ≡ fetch (frame.now ++ spill.now) start n) × (length result.now ≡ n) × (result.ref_ptr ≡ part_at_mut scratch.entry 0) }
{
    let out = &mut scratch[..n];
    fetch(out, frame, spill, start);
    &out[..]
}

// n bytes of the canvas: a part of the frame where they lie in it, else a part of scratch.
#[tactic(auto, using(crate::proofs::Runs::fetch_left))]
pub(crate) fn window<'a>(
    frame: &'a [u8],
    spill: &'a [u8],
    scratch: &'a mut [u8],
    start: usize,
    n: usize,
) -> &'a [u8]
    requires { n ≤ length scratch.old }
    ensures { (result.now ≡ fetch (frame.now ++ spill.now) start n) × (length result.now ≡ n) × (result.ref_ptr ≡ cond (leb (start + n) (length frame.now)) (part_at frame.entry start) (part_at_mut scratch.entry 0)) }
{
    let len = frame.len();
    if len < start || len - start < n {
        return fetched(frame, spill, scratch, start, n);
    }
    span(frame, start, n)
}

// For a row that lies in c whole; `store` is for one that may leave the frame.
#[tactic(auto, using(crate::proofs::Runs::put_part))]
pub fn put(c: &mut [u8], start: usize, row: &[u8])
    requires { start + length row.now ≤ length c.old }
    ensures { c.new ≡ put c.old start row.now }
{
    let end = start + row.len();
    copy_row(&mut c[start..end], row);
}

#[tactic(auto, using(layouts::proofs::Loops::put_zeros))]
pub(crate) fn zero_run(c: &mut [u8], start: usize, end: usize)
    requires { (start ≤ end) × (end ≤ length c.old) }
    ensures { c.new ≡ put c.old start (replicate (end - start) 0) }
{
    zero_row(&mut c[start..end]);
}

impl Canvas<'_> {
    pub(crate) fn fetch(&self, out: &mut [u8], start: usize)
        ensures { out.new ≡ fetch (bytes_of self.now) start (length out.old) }
    {
        fetch(out, self.frame, self.spill, start);
    }

    // What lies past the frame goes to the spill.
    #[tactic(auto, using(crate::proofs::Runs::put_left, crate::proofs::Runs::put_right, crate::proofs::Runs::store_cut))]
    pub(crate) fn store(&mut self, start: usize, row: &[u8])
        requires { start + length row.now ≤ length self.old.frame.now + length self.old.spill.now }
        ensures { Staged (λ c. put c start row.now) self.old self.new }
    {
        let len = self.frame.len();
        if len <= start {
            put(self.spill, start - len, row);
            return;
        }
        let k = len - start;
        if row.len() <= k {
            put(self.frame, start, row);
            return;
        }
        put(self.frame, start, &row[..k]);
        put(self.spill, 0, &row[k..]);
    }
}
