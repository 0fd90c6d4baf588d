// The lines of a script: which are of a log, and how each is shown with its answer.
use arrayvec::ArrayVec;
use std::io::Write;
use test_support::cases::Tally;
use test_support::names::Script;
use test_support::{cases, expand, text};

// What a line of a script is. With a counter, times and a boot a log begins; a case is a line of it.
#[derive(Clone, Copy, PartialEq, Eq)]
pub(crate) enum Kind {
    Record,
    Counter,
    Times,
    Boot,
    Case,
    Remark,
    Unread,
}

impl Kind {
    // A line that begins with a zero byte is a remark, too.
    pub(crate) fn of(line: &[u8]) -> Self {
        if text::is_remark(line) || line.starts_with(b"\0") {
            return Kind::Remark;
        }
        match text::first_word(line).0 {
            b"record" => Kind::Record,
            b"counter" => Kind::Counter,
            b"times" => Kind::Times,
            _ if line.starts_with(b"boot @") => Kind::Boot,
            _ if cases::is_case(line) => Kind::Case,
            _ => Kind::Unread,
        }
    }
}

// Whether a log begins with a line.
fn begins_log(line: &[u8]) -> bool {
    matches!(Kind::of(line), Kind::Counter | Kind::Times | Kind::Boot)
}

// A block of a script: its first line, and all of its lines with their line feeds.
#[derive(Clone, Copy)]
pub(crate) struct Block<'a> {
    pub script: Script<'a>,
    pub head: &'a [u8],
    lines: &'a [u8],
}

// How many bytes stand before the next line that begins a log; the first line is not looked at.
fn block_length(text: &[u8]) -> usize {
    let mut length: usize = 0;
    for (i, line) in text.split_inclusive(text::is_feed).enumerate() {
        if 0 < i && begins_log(text::unended(line)) {
            return length;
        }
        length = length.saturating_add(line.len());
    }
    length
}

impl<'a> Block<'a> {
    // The block that a part of the script begins with, and what follows it.
    pub(crate) fn first(script: Script<'a>, left: &'a [u8]) -> (Self, &'a [u8]) {
        let cut = left.split_at_checked(block_length(left));
        let (lines, behind) = cut.unwrap_or((left, b""));
        let (head, _) = text::cut_at(lines, b'\n').unwrap_or((lines, b""));
        let block = Block {
            script,
            head,
            lines,
        };
        (block, behind)
    }

    // Writes the log of the block: the bytes of each case and a line feed. Gives whether all of them
    // could be read.
    pub(crate) fn gather<const N: usize>(&self, log: &mut ArrayVec<u8, N>) -> bool {
        let mut all = true;
        for line in self.lines.split_inclusive(text::is_feed) {
            let line = text::unended(line);
            if Kind::of(line) == Kind::Case {
                all &= expand::expand(log, &self.script, cases::asked(line));
                let _ = log.write(b"\n");
            }
        }
        all
    }

    // Shows each line with its answer: `answer` is that to the first line, and `answers` has those to
    // the log.
    pub(crate) fn show(&self, rt: &impl Print, tally: &mut Tally, answer: &str, answers: &str) {
        let mut told = answers.lines();
        for line in self.lines.split_inclusive(text::is_feed) {
            let line = text::unended(line);
            match Kind::of(line) {
                Kind::Record => tally.record_line(rt, &self.script, line),
                Kind::Counter | Kind::Remark => cases::print_as_is(rt, line),
                Kind::Times | Kind::Boot => tally.answered(rt, line, answer),
                Kind::Case => match told.next() {
                    Some(answer) => tally.answered(rt, line, answer),
                    None => tally.answered(rt, line, ""),
                },
                Kind::Unread => tally.unread(rt, line, "this line has no answer"),
            }
        }
    }
}
