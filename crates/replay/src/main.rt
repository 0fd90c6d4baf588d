// Replays a log: reads the system record from `system.tss` and lines from standard input, and
// prints boot's answer and, unless that is a refusal, an answer for each line.
//
// Everything that is answered comes from the libraries; here bytes are only read and written. What
// cannot be read or written is said on standard error, and nowhere else.
#![tactic(auto)]

mod errors;

ghost use Rattle.std.specs.Prelude.{◌≤◌, length};

use errors::Failure;
use replay_log::Replay;
use std::fs;
use std::io::{Error, Read, Write};
use std::rt::Files;

// Reads the system record to the start of `bytes`, and gives how many bytes it has. A file that stops
// short of the room has to be at its end, which one more read tells.
fn read_system(rt: &impl Files, bytes: &mut [u8]) -> Result<usize, Failure> {
    let mut file = fs::open(rt, "system.tss").map_err(Failure::NotOpened)?;
    let (n, why) = match streams::read_full(&mut file, bytes) {
        Ok(n) => (n, None),
        Err(e) => (e.moved, Some(e.why)),
    };
    if n == bytes.len() {
        return Ok(n);
    }
    match file.read(&mut [0u8; 1]) {
        Ok(0) => Ok(n),
        Ok(_) => {
            // Where no read failed, there are more bytes than the room has: the system names no error.
            let why = why.unwrap_or(Error::from_raw_os_error(0));
            Err(Failure::NotRead(why))
        }
        Err(why) => Err(Failure::NotRead(why)),
    }
}

// The system record; of a file that is missing or cannot be read, no bytes.
fn system_record<'a>(rt: &(impl Files + Eprint), bytes: &'a mut [u8]) -> &'a [u8] {
    match read_system(rt, bytes) {
        Ok(n) => bytes.get(..n).unwrap_or(b""),
        Err(failure) => {
            errors::say(rt, failure);
            b""
        }
    }
}

// Writes answers.
fn write_answers<W: Write>(to: &mut W, answers: &[u8]) -> Result<(), Failure> {
    streams::write_all(to, answers).map_err(|e| Failure::NotWritten(e.why))
}

// Replays a piece of the log and writes the answers. Gives whether the replay goes on, which it does not
// where no more of the piece is taken.
fn replay_piece<W: Write>(
    to: &mut W,
    replay: &mut Replay,
    log: &[u8],
    out: &mut [u8],
) -> Result<bool, Failure> {
    let mut rest = log;
    // A run says how much of the piece it took.
    while !rest.is_empty() {
        let ran = replay_log::run(*replay, rest, out);
        *replay = ran.replay;
        write_answers(to, &out[..ran.written])?;
        if ran.taken == 0 {
            return Ok(false);
        }
        rest = &rest[ran.taken..];
    }
    Ok(true)
}

// Reads once and replays what came; at the end of the input, replays a last line without its line
// feed, and does not go on. An input that breaks off has no last line.
fn replay_some<R: Read, W: Write>(
    input: &mut R,
    to: &mut W,
    replay: &mut Replay,
    piece: &mut [u8],
    out: &mut [u8],
) -> Result<bool, Failure> {
    match input.read(piece) {
        Ok(0) => {
            let n = replay_log::finish(*replay, out);
            write_answers(to, out.get(..n).unwrap_or(out))?;
            Ok(false)
        }
        Ok(n) => replay_piece(to, replay, &piece[..n], out),
        Err(why) => Err(Failure::LogBroken(why)),
    }
}

// Replays standard input. A proved loop has to end, and nothing says that an input does, so the
// loop counts its turns up to a number that no run comes to.
fn replay_all<R: Read, W: Write>(input: &mut R, to: &mut W, from: Replay) -> Result<(), Failure> {
    let mut piece = [0u8; 65536];
    let mut out = [0u8; 65536];
    let mut replay = from;
    for _ in 0..u64::MAX {
        if !replay_some(input, to, &mut replay, &mut piece, &mut out)? {
            return Ok(());
        }
    }
    Ok(())
}

// Boots from the system record, and replays the log unless boot refuses.
fn run(rt: &HostRuntime) -> Result<(), Failure> {
    let mut bytes = [0u8; 4096];
    let booted = machine_state::boot(system_record(rt, &mut bytes));
    let code = booted.code;
    let machine = booted.machine;
    let mut to = rt.stdout();
    let n = texts::put_boot(code, &mut bytes);
    write_answers(&mut to, bytes.get(..n).unwrap_or(&bytes))?;
    if code != 0 {
        return Ok(());
    }
    replay_all(&mut rt.stdin(), &mut to, replay_log::start(machine))
}

fn main(rt: HostRuntime) {
    if let Err(failure) = run(&rt) {
        errors::say(&rt, failure);
    }
}
