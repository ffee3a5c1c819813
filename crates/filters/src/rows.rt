// Rows by their bytes: a mean; the means of two rows, and a copy, both in blocks; zeros, and a row from a place on.
// Places are written as `out[i]`: with `iter_mut`, and with `copy_from_slice` for copies, a build of 64x48 takes 3 % more instructions; `fill` takes 12 more a row.
ghost use Rattle.std.specs.Prelude.{◌≡◌, ℕ, ◌+◌, ◌≤◌, ◌<◌, min, length, get_or, take, drop, replicate};
ghost use Rattle.filters.specs.Row.{tab, mean_of, means_of};
ghost use Rattle.filters.specs.Inner.{laid};

pub fn mean(a: u8, b: u8) -> u8
    ensures { result ≡ mean_of a b }
{
    (((a as u16) + (b as u16) + 1) >> 1) as u8
}

// The means of two rows, byte by byte.
#[tactic(auto, using(crate::proofs::Filling::filled_whole), unfolding(crate::specs::Row::means_of))]
fn mean_bytes(out: &mut [u8], a: &[u8], b: &[u8])
    requires { (length out.old ≤ length a.now) × (length out.old ≤ length b.now) }
    ensures { out.new ≡ means_of (length out.old) a.now b.now }
{
    let n = out.len();
    for i in 0..n {
        out[i] = mean(a[i], b[i]);
    }
}

// The front of a row, as far as out is long, byte by byte.
fn copy_bytes(out: &mut [u8], row: &[u8])
    requires { length out.old ≤ length row.now }
    ensures { out.new ≡ take (length out.old) row.now }
{
    let n = out.len();
    for i in 0..n {
        out[i] = row[i];
    }
}

// What a row is made of: a byte at each place.
trait Source: Copy {
    ghost byte: { Self → ℕ → ℕ };

    ghost reach: { Self → ℕ };

    // The bytes from a place on, as far as out is long.
    fn write(self, out: &mut [u8], at: usize)
        requires { at + length out.old ≤ reach self }
        ensures { out.new ≡ tab (λ j. byte self (at + j)) (length out.old) };
}

#[derive(Clone, Copy)]
struct Means<'a> {
    a: &'a [u8],
    b: &'a [u8],
}

impl Source for Means<'_> {
    ghost byte = { λ s i. mean_of (get_or s.a.now i 0) (get_or s.b.now i 0) };

    ghost reach = { λ s. min (length s.a.now) (length s.b.now) };

    #[tactic(auto, using(crate::proofs::Tables::means_from))]
    fn write(self, out: &mut [u8], at: usize) {
        mean_bytes(out, rest(self.a, at), rest(self.b, at));
    }
}

#[derive(Clone, Copy)]
struct Copied<'a> {
    row: &'a [u8],
}

impl Source for Copied<'_> {
    ghost byte = { λ s i. get_or s.row.now i 0 };

    ghost reach = { λ s. length s.row.now };

    // Inlined, since else the compiler keeps each block in memory: 366 instructions for the 246 of a row.
    #[inline(always)]
    #[tactic(auto, using(crate::proofs::Tables::take_from))]
    fn write(self, out: &mut [u8], at: usize) {
        copy_bytes(out, rest(self.row, at));
    }
}

// The block from a place on. All of it is made before the first byte is stored: so the compiler makes vectors of it without a test that the rows don't overlap.
fn put_block<const N: usize, S: Source>(out: &mut [u8], source: S, at: usize)
    requires { (at + N ≤ length out.old) × (length out.old ≤ S.reach source) }
    ensures { out.new ≡ laid out.old at N (tab (λ j. S.byte source (at + j)) N) }
{
    let mut block = [0u8; N];
    source.write(&mut block, at);
    copy_bytes(&mut out[at..at + N], &block);
}

// A row in blocks of N. The last ends with the row, and may make again what the one before it made.
// The blocks are counted by hand: `step_by` takes an instruction more for each block of means, and a range of block numbers makes 299 instructions of a copy's 246.
fn in_blocks<const N: usize, S: Source>(out: &mut [u8], source: S)
    requires { (0 < N) × (length out.old ≤ S.reach source) }
    ensures { out.new ≡ tab (S.byte source) (length out.old) }
{
    let n = out.len();
    if n < N {
        source.write(out, 0);
        return;
    }
    let last = n - N;
    let mut at = 0;
    while at < last {
        put_block::<N, S>(out, source, at);
        at += N;
    }
    put_block::<N, S>(out, source, last);
}

// The means of two rows, place by place.
#[tactic(auto, unfolding(crate::specs::Row::means_of))]
pub fn mean_row(out: &mut [u8], a: &[u8], b: &[u8])
    requires { (length out.old ≤ length a.now) × (length out.old ≤ length b.now) }
    ensures { out.new ≡ means_of (length out.old) a.now b.now }
{
    in_blocks::<64, _>(out, Means { a, b });
}

// The front of a row, as far as out is long. Not one `copy_from_slice`, which is a call of `memcpy`: of 1,920 bytes it takes 397 instructions without AVX, and this 246.
#[tactic(auto, using(crate::proofs::Tables::take_tab))]
pub fn copy_row(out: &mut [u8], row: &[u8])
    requires { length out.old ≤ length row.now }
    ensures { out.new ≡ take (length out.old) row.now }
{
    in_blocks::<16, _>(out, Copied { row });
}

pub fn zero_row(out: &mut [u8])
    ensures { out.new ≡ replicate (length out.old) 0 }
{
    let n = out.len();
    for i in 0..n {
        out[i] = 0;
    }
}

// A row from a place on.
pub fn rest(row: &[u8], at: usize) -> &[u8]
    requires { at ≤ length row.now }
    ensures { result.now ≡ drop at row.now }
{
    &row[at..]
}
