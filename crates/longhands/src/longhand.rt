// The longhand record: settings spelled out as bytes, beside a word. Document 02, order 1.
// First what reading answers; then `read_longhand`, the frame, its kind, and kind 1; last `write_longhand`.
ghost use Rattle.std.specs.Prelude.{◌≡◌, ◌++◌, ◌+◌, ◌≤◌, ◌<◌, ◌^◌, length, drop};
ghost use Rattle.settings.specs.Answers.{answer, tested, outcome};
ghost use Rattle.longhands.specs.declared.longhand.Unread.TheVariants.{Refused};
ghost use Rattle.longhands.specs.Longhand.{framed, kind_of, length_no, no_longhand, read_as, longhand_answer, write_answer};

use crate::kind1::{BODY, LENGTH as KIND_1_LENGTH, body, read_body};
use crate::little_endian::{number_2, number_4, put};
use settings::refusal::{BadLonghand, Refusal, refuse_if};
use settings::super_opts::SuperOpts;

// The bytes of the length, and of length and kind.
const LENGTH: usize = 4;

const FRAME: usize = 6;

const KIND_1: u16 = 1;

// The bytes of a record of kind 1.
pub const RECORD: usize = FRAME + BODY;

// The number of a kind that isn't known. It comes with a place, so it has a case of its own and is no `Refusal`.
pub const UNKNOWN_KIND: u32 = 16;

// A record, and the place after its longhand.
#[derive(Clone, Copy)]
pub struct Longhand {
    pub opts: SuperOpts,
    pub after: usize,
}

// Why there is no record.
#[derive(Clone, Copy, PartialEq, Eq)]
pub enum Unread {
    // The kind isn't known: the place after the record, by its length.
    Kind(usize),
    Refused(Refusal),
}

impl From<Refusal> for Unread {
    ghost from_gives = { λ f u. u ≡ Refused f };

    fn from(f: Refusal) -> Unread {
        Unread::Refused(f)
    }
}

// Refusals 15 to 18.
pub fn read_longhand(bytes: &[u8]) -> Result<Longhand, Unread>
    ensures { read_as result ≡ longhand_answer bytes.now }
{
    length_tested(bytes)?;
    read_kind(bytes)
}

// What is refused before a kind is read.
#[tactic(auto, unfolding(crate::specs::Longhand::length_no))]
fn length_tested(bytes: &[u8]) -> Result<(), Refusal>
    ensures { tested result ≡ length_no bytes.now }
{
    refuse_if(bytes.len() < LENGTH, BadLonghand::Short)?;
    let length = number_4(bytes, 0) as usize;
    refuse_if(bytes.len() < LENGTH + length, BadLonghand::Short)?;
    refuse_if(length < 2, BadLonghand::Length)?;
    Ok(())
}

fn read_kind(bytes: &[u8]) -> Result<Longhand, Unread>
    requires { length_no bytes.now ≡ 0 }
    ensures { read_as result ≡ longhand_answer bytes.now }
{
    if number_2(bytes, LENGTH) == KIND_1 {
        return Ok(read_kind_1(bytes)?);
    }
    Err(Unread::Kind(LENGTH + number_4(bytes, 0) as usize))
}

fn read_kind_1(bytes: &[u8]) -> Result<Longhand, Refusal>
    requires { (length_no bytes.now ≡ 0) × (kind_of bytes.now ≡ 1) }
    ensures { outcome (no_longhand 0) result ≡ longhand_answer bytes.now }
{
    let length = number_4(bytes, 0) as usize;
    if length != KIND_1_LENGTH {
        return Err(Refusal::Longhand(BadLonghand::Length));
    }
    let after = LENGTH + length;
    let opts = read_body(&bytes[FRAME..after])?;
    Ok(Longhand { opts, after })
}

// To the front of `out`. Refusals 6, 15.
pub fn write_longhand(opts: SuperOpts, out: &mut [u8]) -> Result<(), Refusal>
    ensures { answer (tested result) out.new ≡ write_answer opts out.old }
{
    refuse_if(!opts.accepted(), Refusal::NoRecord)?;
    refuse_if(out.len() < RECORD, BadLonghand::Short)?;
    put_framed(out, KIND_1, &body(opts));
    Ok(())
}

fn put_framed(out: &mut [u8], kind: u16, body: &[u8])
    requires { (6 + length body.now ≤ length out.old) × (length body.now < 2 ^ 16) }
    ensures { out.new ≡ framed kind body.now ++ drop (6 + length body.now) out.old }
{
    put(out, 0, &(2 + body.len() as u32).to_le_bytes());
    put(out, LENGTH, &kind.to_le_bytes());
    put(out, FRAME, body);
}
