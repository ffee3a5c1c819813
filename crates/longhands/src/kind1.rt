// The body of a longhand record of kind 1: written, then read.
ghost use Rattle.std.specs.Prelude.{◌≡◌, not, length, ◌%◌, ◌^◌};
ghost use Rattle.settings.specs.Numbers.{refuse};
ghost use Rattle.settings.specs.Answers.{checked, if_done, no_record};
ghost use Rattle.longhands.specs.Kind1.{flags_of, kind1_body, kind1_record, kind1_good};

use crate::little_endian::{number_2, number_4};
use settings::numbers::{bit, from_bits, to_bits};
use settings::refusal::{BadLonghand, Refusal};
use settings::super_opts::{SuperOpts, levels_of};

pub const BODY: usize = 15;

// What the length of a record counts: the two bytes of its kind, and the body.
pub const LENGTH: usize = 2 + BODY;

fn flags(opts: SuperOpts) -> u8
    ensures { result ≡ flags_of opts % 256 }
{
    ((bit(opts.full) + 2 * bit(opts.rc) + 4 * bit(opts.lean)) % 256) as u8
}

fn low_16(n: u32) -> u16
    ensures { result ≡ n % 2 ^ 16 }
{
    (n % 0x1_0000) as u16
}

// Of any record; only an accepted one is written, whose numbers fit their bytes.
pub fn body(opts: SuperOpts) -> [u8; BODY]
    ensures { result ≡ kind1_body opts }
{
    let n = opts.naturals();
    let width = low_16(n.width).to_le_bytes();
    let height = low_16(n.height).to_le_bytes();
    let down = to_bits(opts.scale_down).to_le_bytes();
    let up = to_bits(opts.scale_up).to_le_bytes();
    [
        width[0],
        width[1],
        height[0],
        height[1],
        (n.pel % 256) as u8,
        (n.gpu % 256) as u8,
        flags(opts),
        down[0],
        down[1],
        down[2],
        down[3],
        up[0],
        up[1],
        up[2],
        up[3],
    ]
}

// Refusal 18.
pub fn read_body(body: &[u8]) -> Result<SuperOpts, Refusal>
    requires { length body.now ≡ 15 }
    ensures { checked result ≡ if_done (refuse (not (kind1_good body.now)) 18) (kind1_record body.now) no_record }
{
    let opts = spelled(body);
    let good = opts.accepted_but_levels() & (body[6] < 8);
    if good {
        return Ok(opts);
    }
    Err(Refusal::Longhand(BadLonghand::Contents))
}

fn spelled(body: &[u8]) -> SuperOpts
    requires { length body.now ≡ 15 }
    ensures { result ≡ kind1_record body.now }
{
    let width = number_2(body, 0) as i32;
    let height = number_2(body, 2) as i32;
    let flags = body[6];
    SuperOpts {
        pel: body[4] as i32,
        gpu: body[5] as i32,
        scale_down: from_bits(number_4(body, 7)),
        scale_up: from_bits(number_4(body, 11)),
        full: flags % 2 == 1,
        rc: flags / 2 % 2 == 1,
        lean: flags / 4 % 2 == 1,
        levels: levels_of(width, height),
        width,
        height,
    }
}
