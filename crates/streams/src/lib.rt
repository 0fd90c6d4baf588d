// Reading and writing bytes, for the programs: each call of the system is made once, so one that a
// signal interrupts before it moves a byte counts as one that failed.
#![tactic(auto)]

ghost use Rattle.std.specs.Prelude.{◌≤◌, ◌<◌, length, take, IfOk};
ghost use Rattle.std.specs.Io.KnownBytes.{Consumes, Appends, IsAtEnd};
ghost use Rattle.streams.specs.Moved.{moved};

use std::io::{Error, Read, Write};

// A call that failed, and how many bytes the calls before it had moved.
#[derive(Debug, Drop)]
pub struct BrokenOff {
    pub moved: usize,
    pub why: Error,
}

// Reads until `bytes` is full or the input ends, and gives how many bytes came; a read that fails ends
// it, too, and the error says how many came before. They are the next ones of the input, and none is
// lost.
pub fn read_full<R: Read>(from: &mut R, bytes: &mut [u8]) -> Result<usize, BrokenOff>
    ensures count { moved (λ n. n) result ≤ length bytes.new }
    ensures consumed { Consumes (R.remaining from.old) (R.remaining from.new) (take (moved (λ n. n) result) bytes.new) }
    ensures whole { IfOk result (λ n. n < length bytes.new → IsAtEnd (R.remaining from.new)) }
{
    // How many bytes a call moves only the call says.
    let mut done = 0;
    while done < bytes.len() {
        match from.read(&mut bytes[done..]) {
            Ok(0) => return Ok(done),
            Ok(came) => done += came,
            Err(why) => return Err(BrokenOff { moved: done, why }),
        }
    }
    Ok(done)
}

// Writes all of the bytes, or stops at the first write that takes nothing or fails; the error says how
// many were written before.
pub fn write_all<W: Write>(to: &mut W, bytes: &[u8]) -> Result<(), BrokenOff>
    ensures count { moved (λ _. length bytes.now) result ≤ length bytes.now }
    ensures written { Appends (W.contents to.old) (W.contents to.new) (take (moved (λ _. length bytes.now) result) bytes.now) }
{
    // How many bytes a call moves only the call says.
    let mut done = 0;
    while done < bytes.len() {
        match to.write(&bytes[done..]) {
            Ok(0) => {
                // The system names no error here.
                let why = Error::from_raw_os_error(0);
                return Err(BrokenOff { moved: done, why });
            }
            Ok(taken) => done += taken,
            Err(why) => return Err(BrokenOff { moved: done, why }),
        }
    }
    Ok(())
}
