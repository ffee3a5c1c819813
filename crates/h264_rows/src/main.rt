// Holds the Wiener rows to pictures whose half samples an independent H.264 decoder made (docs/VECTORS.md says how): positions b, half a place along a row, and h, half a place down, where the rule has no edge.
// Standard input: for each picture its width and height (a byte each), then the picture, the plane of b and the plane of h. A line is printed for each: how many samples were compared, and how many differ.
#![tactic(auto)]

ghost use Rattle.std.specs.Prelude.{◌+◌, ◌≤◌, ◌<◌, ◌≡◌, length};

use cases::{End, differing, for_each_case, read_array, read_whole};
use filters::half_pel::HalfPel;
use std::io;

const MOST_PICTURES: u32 = 100;

// The sides of a picture.
#[derive(Clone, Copy)]
struct Sides {
    w: usize,
    h: usize,
    ghost wide: { (8 ≤ w) × (w ≤ 64) },
    ghost high: { (8 ≤ h) × (h ≤ 64) },
}

fn main(rt: HostRuntime) -> io::Result<()> {
    for_each_case(&rt, MOST_PICTURES, || picture(&rt))
}

fn picture<R: Input + Print>(rt: &R) -> Result<(), End> {
    let [w, h] = read_array::<R, 2>(rt)?.map(usize::from);
    if w < 8 || h < 8 || 64 < w || 64 < h {
        return Err(End::NoCase);
    }
    held(rt, Sides { w, h })
}

fn held<R: Input + Print>(rt: &R, sides: Sides) -> Result<(), End> {
    let mut src = [0; 4096];
    let mut b = [0; 4096];
    let mut v = [0; 4096];
    // All three are asked for, though one is cut short.
    let whole = sides.read_plane(rt, &mut src)?
        & sides.read_plane(rt, &mut b)?
        & sides.read_plane(rt, &mut v)?;
    if !whole {
        return Err(End::NoCase);
    }
    let Sides { w, h } = sides;
    print_count(rt, "b", (w - 6) * h, sides.along(&src, &b))?;
    print_count(rt, " h", w * (h - 6), sides.down(&src, &v))?;
    Ok(println!(rt; "")?)
}

fn print_count<R: Print>(rt: &R, what: &str, compared: usize, differ: usize) -> io::Result<()> {
    print!(rt; "{what} {compared} compared, {differ} differ")
}

impl Sides {
    // Whether all of it was there.
    fn read_plane<R: Input>(self, rt: &R, plane: &mut [u8; 4096]) -> Result<bool, End> {
        match read_whole(rt, &mut plane[..self.w * self.h]) {
            Ok(()) => Ok(true),
            Err(End::NoCase) => Ok(false),
            Err(end) => Err(end),
        }
    }

    fn row(self, plane: &[u8; 4096], y: usize) -> &[u8]
        requires { y < self.h }
        ensures { length result.now ≡ self.w }
    {
        let at = y * self.w;
        &plane[at..at + self.w]
    }

    // How many samples of b differ. Added in a loop, as below: `sum` asks that all its sums fit, which its closure doesn't tell.
    fn along(self, src: &[u8; 4096], b: &[u8; 4096]) -> usize {
        let mut differ = 0;
        for y in 0..self.h {
            differ += self.along_row(src, b, y);
        }
        differ
    }

    fn along_row(self, src: &[u8; 4096], b: &[u8; 4096], y: usize) -> usize
        requires { y < self.h }
        ensures { result ≤ 64 }
    {
        let mut row = [0u8; 64];
        HalfPel::Wiener.horizontal(&mut row[..self.w], self.row(src, y));
        let end = self.w - 4;
        differing(&row[2..end], &self.row(b, y)[2..end])
    }

    // How many samples of h differ.
    fn down(self, src: &[u8; 4096], v: &[u8; 4096]) -> usize {
        let mut differ = 0;
        let end = self.h - 4;
        for y in 2..end {
            differ += self.down_row(src, v, y);
        }
        differ
    }

    fn down_row(self, src: &[u8; 4096], v: &[u8; 4096], y: usize) -> usize
        requires { (2 ≤ y) × (y + 4 ≤ self.h) }
        ensures { result ≤ 64 }
    {
        let mut row = [0u8; 64];
        let out = &mut row[..self.w];
        HalfPel::Wiener.vertical(
            out,
            y,
            self.h,
            self.row(src, y - 2),
            self.row(src, y - 1),
            self.row(src, y),
            self.row(src, y + 1),
            self.row(src, y + 2),
            self.row(src, y + 3),
        );
        differing(out, self.row(v, y))
    }
}
