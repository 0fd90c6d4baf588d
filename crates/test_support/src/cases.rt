// A case is a line of a script with the answer that document 01 gives, `LINE > ANSWER`. It is
// printed with the answer that came, and marked where that is another.
use crate::console::{print, print_bytes, print_line};
use crate::names::Script;
use crate::text;
use arrayvec::ArrayVec;
use std::fmt::{self, Display};
use std::io::Write;

// Room for an answer.
const ANSWER: usize = 128;

// What stands between what a case does and the answer that it wants.
const WANTS: &[u8] = b" > ";

// How many cases there were, and how many of them were wrong.
#[derive(Clone, Copy)]
pub struct Tally {
    cases: u64,
    wrong: u64,
}

impl Display for Tally {
    fn fmt<W: fmt::Write>(&self, f: &mut fmt::Formatter<W>) -> fmt::Result {
        let Tally { cases, wrong } = *self;
        write!(f, "{cases} cases, {wrong} wrong")
    }
}

// Whether a line has an answer, and where that stands.
fn wants(line: &[u8]) -> Option<usize> {
    line.windows(3).position(|part| part == WANTS)
}

// Whether a line says which answer it wants.
pub fn is_case(line: &[u8]) -> bool {
    wants(line).is_some()
}

// A line of a script: what is asked, and the answer that is wanted, nothing where it has none.
fn parts(line: &[u8]) -> (&[u8], &[u8]) {
    let at = wants(line).unwrap_or(line.len());
    let (asked, rest) = line.split_at_checked(at).unwrap_or((line, b""));
    (asked, rest.get(WANTS.len()..).unwrap_or(b""))
}

// What a case does, without its answer.
pub fn asked(line: &[u8]) -> &[u8] {
    parts(line).0
}

// The answer that a case wants.
pub fn wanted(line: &[u8]) -> &[u8] {
    parts(line).1
}

// Prints a line of a script as it is.
pub fn print_as_is(rt: &impl Print, line: &[u8]) {
    print_bytes(rt, line);
    print_line(rt, "");
}

impl Tally {
    pub fn new() -> Self {
        Tally { cases: 0, wrong: 0 }
    }

    // One case more.
    fn count(&mut self, right: bool) {
        self.cases = self.cases.saturating_add(1);
        self.wrong = self.wrong.saturating_add(!right as u64);
    }

    // Prints a line that cannot be read, and counts it as wrong.
    pub fn unread(&mut self, rt: &impl Print, line: &[u8], why: &str) {
        print_bytes(rt, line);
        print_line(rt, format_args!("   ERROR: {why}"));
        self.count(false);
    }

    // Prints a line `record NAME = ..`, which counts as wrong if it cannot be read.
    pub fn record_line(&mut self, rt: &impl Print, script: &Script, line: &[u8]) {
        if script.record(text::word(line, 1)).whole {
            print_as_is(rt, line);
        } else {
            self.unread(rt, line, "this record cannot be read");
        }
    }

    // Prints a case with its answer, or the error where not all of it could be read.
    pub fn shown<D: Display + Drop>(
        &mut self,
        rt: &impl Print,
        line: &[u8],
        answer: D,
        whole: bool,
        why: &str,
    ) {
        if whole {
            self.answered(rt, line, answer);
        } else {
            self.unread(rt, line, why);
        }
    }

    // Prints a case with the answer that came, and counts it.
    pub fn answered<D: Display + Drop>(&mut self, rt: &impl Print, line: &[u8], answer: D) {
        let mut told = ArrayVec::<u8, ANSWER>::new();
        let _ = write!(told, "{answer}");
        let (asked, wanted) = parts(line);
        let right = told.as_slice() == wanted;
        print_bytes(rt, asked);
        print(rt, " > ");
        print_bytes(rt, told.as_slice());
        if !right {
            print(rt, "   WRONG, expected ");
            print_bytes(rt, wanted);
        }
        print_line(rt, "");
        self.count(right);
    }
}
