// Reads an input, as the standard one, into a buffer, for the programs.
#![tactic(auto)]

ghost use Rattle.std.specs.Prelude.{◌≤◌, length, IfOk};

use std::io::{self, Read};

// Reads until the input ends or the buffer is full; how many bytes those are. A read that fails is not the end of the input.
pub fn read_input<R: Read>(reader: &mut R, buffer: &mut [u8]) -> io::Result<usize>
    ensures { IfOk result (λ n. n ≤ length buffer.new) }
{
    let mut n = 0;
    while n < buffer.len() {
        let more = reader.read(&mut buffer[n..])?;
        if more == 0 {
            break;
        }
        n += more;
    }
    Ok(n)
}

// One byte more than the largest file, so 16,419: an input that fills the buffer is no file, and is refused as one that has
// bytes left over.
pub const BUFFER: usize = file::LARGEST + 1;
