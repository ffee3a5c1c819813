// A record spelled out as bytes: document 02's longhand record, written and read.
ghost use Rattle.std.specs.Prelude.{◌≡◌};
ghost use Rattle.settings.specs.Answers.{answer};
ghost use Rattle.longhands.specs.Longhand.{write_answer};
ghost use Rattle.answers.specs.Fields.{record_of};
ghost use Rattle.exports.specs.Calls.{longhand_read_no, fields_tells, place_tells};

use answers::record::{numbers_of, record_of};
use answers::room::{TOO_SHORT, no_room, number, put};
use longhands::longhand::{UNKNOWN_KIND, Unread, read_longhand, write_longhand};

// Refusals 6, 15.
#[unsafe(no_mangle)]
pub extern "C" fn sill_longhand_write(fields: &[i32], bytes: &mut [u8]) -> u32
    ensures { answer result bytes.new ≡ write_answer (record_of fields.now) bytes.old }
{
    let opts = record_of(fields);
    number(write_longhand(opts, bytes))
}

// Tells the record's numbers, and the place after it; with 16 the place alone. Refusals 15 to 18.
#[unsafe(no_mangle)]
pub extern "C" fn sill_longhand_read(bytes: &[u8], fields: &mut [i32], after: &mut [usize]) -> u32
    ensures { (answer result fields.new ≡ fields_tells (longhand_read_no bytes.now fields.old after.old) bytes.now fields.old)
        × (answer result after.new ≡ place_tells (longhand_read_no bytes.now fields.old after.old) bytes.now after.old) }
{
    if no_room(fields.len(), after.len()) {
        return TOO_SHORT;
    }
    match read_longhand(bytes) {
        Ok(read) => {
            put(fields, &numbers_of(read.opts));
            put(after, &[read.after])
        }
        Err(Unread::Kind(place)) => {
            put(after, &[place]);
            UNKNOWN_KIND
        }
        Err(Unread::Refused(f)) => f.number(),
    }
}
