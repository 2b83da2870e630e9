// The bytes of a reader, into a lent buffer.
#![tactic(auto)]

ghost use Rattle.std.specs.Prelude.{◌≤◌, length, IfOk};

use std::io;
use std::io::{ErrorKind, Read};

// Reads until the buffer is full or nothing more comes; the answer is how many bytes were read.
pub fn read_full<R: Read>(input: &mut R, bytes: &mut [u8]) -> io::Result<usize>
    ensures { IfOk result (λ n. n ≤ length bytes.new) }
{
    let mut at = 0;
    for _ in 0..u64::MAX {
        match input.read(&mut bytes[at..]) {
            Ok(0) => {
                break;
            }
            Ok(n) => {
                at += n;
            }
            Err(e) => {
                if e.kind() != ErrorKind::Interrupted {
                    return Err(e);
                }
            }
        }
    }
    Ok(at)
}
