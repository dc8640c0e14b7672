// unpack: reads one record from standard input and prints its mesh, or why it is refused.
//
// 2,049 bytes are enough to tell that there are more than 2,048. The tables, the work space and the buffer are those of
// 800 triangles; all that is printed comes from print::unpack.
#![tactic(auto)]

ghost use Rattle.std.specs.Prelude.{◌≤◌, length, IfOk};

use std::io;
use std::io::Read;

fn main(rt: HostRuntime) -> io::Result<()> {
    let mut bytes = [0u8; 2049];
    let n = read_full(&mut rt.reader(), &mut bytes)?;
    let mut vs = [0u32; 2400];
    let mut os = [0u32; 2400];
    let mut work = [0u32; 9600];
    let mut out = [0u8; 66446];
    let size = print::unpack(&bytes[..n], &mut vs, &mut os, &mut work, &mut out);
    rt.write_all(&out[..size])
}

// Reads until the buffer is full or the input ends, and answers how many bytes. The place that is read to is kept
// here: std's `read_exact` does not tell how far an input that ends early went, and its `copy` tries an interrupted
// read again, where this program ends with that error.
fn read_full(from: &mut impl Read, bytes: &mut [u8]) -> io::Result<usize>
    ensures { IfOk result (λ n. n ≤ length bytes.new) }
{
    let mut n = 0;
    while n < bytes.len() {
        let got = from.read(&mut bytes[n..])?;
        if got == 0 {
            return Ok(n);
        }
        n += got;
    }
    Ok(n)
}
