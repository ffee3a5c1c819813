// What a build needs, where a level's plane lies and where the parts of a frame lie, as numbers.
ghost use Rattle.std.specs.Prelude.{◌≡◌};
ghost use Rattle.answers.specs.Fields.{need_numbers, plane_numbers, parts_numbers};

use frames::parts::Parts;
use layouts::layout::Needs;
use lookups::rows::Plane;

// How many numbers these are.
pub const NEEDS: usize = 2;

pub const PLANE: usize = 4;

pub const PARTS: usize = 12;

pub fn need_numbers(n: Needs) -> [usize; NEEDS]
    ensures { result ≡ need_numbers n }
{
    [n.spill, n.scratch]
}

pub fn plane_numbers(p: Plane) -> [usize; PLANE]
    ensures { result ≡ plane_numbers p }
{
    [p.start, p.width, p.height, p.pitch]
}

pub fn parts_numbers(p: Parts) -> [usize; PARTS]
    ensures { result ≡ parts_numbers p }
{
    let u = p.u;
    let v = p.v;
    [
        p.y.start,
        p.y.pitch,
        p.y.length,
        u.start,
        u.pitch,
        u.length,
        v.start,
        v.pitch,
        v.length,
        p.length,
        p.needs.spill,
        p.needs.scratch,
    ]
}
