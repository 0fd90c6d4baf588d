// Standard input and output. What cannot be read or written is said nowhere: a test program's output
// is then another than the one that is wanted.
ghost use Rattle.std.specs.Prelude.{◌≡◌, ◌≤◌, length};

use std::fmt::Display;
use std::io::Read;

// Room for a text: N zeros. The clause gives only the length, which lending the array as a slice
// needs.
pub fn room<const N: usize>() -> [u8; N]
    ensures { N ≡ length result }
{
    [0; N]
}

// Reads until `bytes` is full, the input ends or a read fails, and gives how many bytes came.
pub fn read_full<R: Read>(from: &mut R, bytes: &mut [u8]) -> usize
    ensures { result ≤ length bytes.new }
{
    match streams::read_full(from, bytes) {
        Ok(came) => came,
        Err(streams::BrokenOff { moved, .. }) => moved,
    }
}

// Prints text, with no line feed behind it.
pub fn print<D: Display + Drop>(rt: &impl Print, value: D) {
    let _ = rt.print(value);
}

// Prints a line.
pub fn print_line<D: Display + Drop>(rt: &impl Print, value: D) {
    let _ = rt.println(value);
}

// Prints a part of a script as it is: it may be no text.
pub fn print_bytes(rt: &impl Print, bytes: &[u8]) {
    let _ = rt.write_all(bytes);
}
