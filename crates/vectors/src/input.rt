// The bytes of standard input, read into room that is lent: no input asks for memory, which there might not be. Each read is
// offered all the room that is left, so that nothing is lost of an input that comes in pieces and drops what a read leaves,
// as a socket of packets does: `read_to_end` begins with small reads.
ghost use Rattle.std.specs.Prelude.{◌≡◌, ◌≤◌, length, IfOk};

use std::io;
use std::io::Read;

// Reads until the buffer is full or the input ends, and says how many bytes stand at its beginning then. A read that
// fails is answered as it is.
pub fn read_full(input: &mut impl Read, buffer: &mut [u8]) -> io::Result<usize>
    ensures { IfOk result (λ n. n ≤ length buffer.new) }
{
    let mut done: usize = 0;
    while done < buffer.len() {
        let count = input.read(&mut buffer[done..])?;
        if count == 0 {
            break;
        }
        done += count;
    }
    Ok(done)
}
