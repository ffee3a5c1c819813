// Standard input into a lent slice, as the programs read it: to its end, or until the slice is full.
#![tactic(auto)]

ghost use Rattle.std.specs.Prelude.{◌≤◌, length, IfOk};

use std::io;
use std::io::Read;

// How many bytes stand at the front; fewer than the slice has only where the input ended. The library's `read_exact` fails there, and tells no count. A reader that is made anew has read nothing ahead, and so loses nothing.
pub fn read_full<R: Input>(rt: &R, bytes: &mut [u8]) -> io::Result<usize>
    ensures within { IfOk result (λ n. n ≤ length bytes.new) }
{
    let mut reader = rt.reader();
    let mut n = 0;
    while n < bytes.len() {
        let got = reader.read(&mut bytes[n..])?;
        if got == 0 {
            break;
        }
        n += got;
    }
    Ok(n)
}
