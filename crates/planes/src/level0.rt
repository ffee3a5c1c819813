// A view of the source plane that level 0 is copied from: open-svpflow's `Level0`.
// First the view and its rows; last the view made and used at once.
ghost use Rattle.std.specs.Prelude.{◌≡◌, cond, [], ◌+◌, ◌*◌, ◌≤◌, ◌<◌, ltb, length};
ghost use Rattle.builder.specs.Canvas.{fetch};

use builder::canvas::span;

#[derive(Clone, Copy)]
pub struct Level0<'a> {
    src: &'a [u8],
    src_pitch: usize,
    width: usize,
    height: usize,
}

impl<'a> Level0<'a> {
    // Row y: a part of the source plane, empty past the last row.
    fn row(self, y: usize) -> &'a [u8]
        requires { y < self.height → y * self.src_pitch + self.width ≤ length self.src.now }
        ensures { result.now ≡ cond (ltb y self.entry.height) (fetch self.entry.src.now (y * self.entry.src_pitch) self.entry.width) [] }
    {
        if self.height <= y {
            return &self.src[..0];
        }
        span(self.src, y * self.src_pitch, self.width)
    }
}

// The view is made here, not by the caller.
pub fn source_row(src: &[u8], src_pitch: usize, width: usize, height: usize, y: usize) -> &[u8]
    requires { y < height → y * src_pitch + width ≤ length src.now }
    ensures { result.now ≡ cond (ltb y height) (fetch src.now (y * src_pitch) width) [] }
{
    Level0 {
        src,
        src_pitch,
        width,
        height,
    }
    .row(y)
}
