// Numbers to a record, and a record to its numbers, in the order of `SuperOpts`.
ghost use Rattle.std.specs.Prelude.{◌≡◌, ◌≤◌, length};
ghost use Rattle.answers.specs.Fields.{flag, is_bit, are_fields, fields_of, record_of, numbers_of};

use settings::super_opts::SuperOpts;

// How many numbers a record has.
pub const FIELDS: usize = 10;

// A record of zeros, which no check accepts, where these are no record's numbers.
pub fn record_of(fields: &[i32]) -> SuperOpts
    ensures { result ≡ record_of fields.now }
{
    if !are_fields(fields) {
        return SuperOpts::default();
    }
    fields_of(fields)
}

fn are_fields(fields: &[i32]) -> bool
    ensures { result ≡ are_fields fields.now }
{
    if fields.len() != FIELDS {
        return false;
    }
    is_bit(fields[4]) & is_bit(fields[5]) & is_bit(fields[6])
}

fn is_bit(z: i32) -> bool
    ensures { result ≡ is_bit z }
{
    (z == 0) | (z == 1)
}

fn fields_of(fields: &[i32]) -> SuperOpts
    requires { 10 ≤ length fields.now }
    ensures { result ≡ fields_of fields.now }
{
    SuperOpts {
        pel: fields[0],
        gpu: fields[1],
        scale_down: fields[2],
        scale_up: fields[3],
        full: fields[4] == 1,
        rc: fields[5] == 1,
        lean: fields[6] == 1,
        levels: fields[7],
        width: fields[8],
        height: fields[9],
    }
}

pub fn flag(b: bool) -> i32
    ensures { result ≡ flag b }
{
    b as i32
}

pub fn numbers_of(opts: SuperOpts) -> [i32; FIELDS]
    ensures { result ≡ numbers_of opts }
{
    [
        opts.pel,
        opts.gpu,
        opts.scale_down,
        opts.scale_up,
        flag(opts.full),
        flag(opts.rc),
        flag(opts.lean),
        opts.levels,
        opts.width,
        opts.height,
    ]
}
