// What could not be read or written, as it is said on standard error.
use std::io::{Cursor, Error, Write};

// A file or a stream that failed, and why.
#[derive(Debug, Drop)]
pub(crate) enum Failure {
    NotOpened(Error),
    NotRead(Error),
    LogBroken(Error),
    NotWritten(Error),
}

// Says on standard error what failed, what follows, and why.
pub(crate) fn say(rt: &impl Eprint, failure: Failure) {
    let (what, why) = match failure {
        Failure::NotOpened(why) => (
            "system.tss cannot be opened, so the system record is empty",
            why,
        ),
        Failure::NotRead(why) => (
            "system.tss cannot be read, so the system record is empty",
            why,
        ),
        Failure::LogBroken(why) => ("the log breaks off here, it cannot be read further", why),
        Failure::NotWritten(why) => (
            "the answers cannot be written, so the replay stops here",
            why,
        ),
    };
    let mut text = [0u8; 320];
    let reason = reason(why, &mut text);
    let _ = eprintln!(rt; "replay: {what}: {reason}");
}

// The system's words for an error. An error is printed as these words and ` (os error NUMBER)`.
fn reason(why: Error, text: &mut [u8]) -> &str {
    let mut cursor = Cursor::new(&mut *text);
    let _ = write!(cursor, "{why}");
    let n = cursor.position() as usize;
    let Some(printed) = text.get(..n) else {
        return "";
    };
    let printed = str::from_utf8(printed).unwrap_or("");
    match printed.split_once(" (os error ") {
        Some((words, _)) => words,
        None => printed,
    }
}
