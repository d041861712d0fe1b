// The writer.
ghost use Rattle.std.specs.Prelude.{◌≡◌};
ghost use Rattle.calendar.specs.Limits.{day_length};
ghost use Rattle.record.specs.Writing.{written};

use crate::Written;
use crate::reader::refusal_at;
use layout::fields::bytes_of;
use layout::{Call, RECORD_LENGTH};

// The record of a call or declaration, or the refusal that the reader would give and zero bytes.
pub fn write(c: Call) -> Written
    ensures { result ≡ written day_length c }
{
    let bytes = bytes_of(c);
    match refusal_at(&bytes, c.head, c.list) {
        Ok(()) => Written { number: 0, bytes },
        Err(refusal) => Written {
            number: refusal.number(),
            bytes: [0; RECORD_LENGTH],
        },
    }
}
