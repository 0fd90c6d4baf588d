// Runs the record readers on a table of records, and prints each line with the answer that came. The
// file `stdin` is the table: the reading-room box's two records, and others with one rule of document
// 01 broken or kept at its very end, each with the answer that document 01 gives. The file `stdout`
// is the same text and a count.
//
// A line of the table is `READER LABEL: WORDS > CODE`. The reader is `system` or `cell`; the words
// (test_support, words.rt) change the record that was last kept for it by the word `=`, and a system
// with the word `!` is the one in which later cells are read. Another line is a remark.
#![tactic(auto)]

use test_support::cases::Tally;
use test_support::records::Record;
use test_support::words::Built;
use test_support::{cases, console, text, words};

// Why a line of a reader has no answer.
const UNREAD: &str = "a word cannot be read";

// What a line leaves for the next: the records that system and cell lines start from, the system
// that cells are read in, and the cases so far.
#[derive(Clone, Copy)]
struct Kept {
    system: Record,
    cell: Record,
    boot: Record,
    tally: Tally,
}

fn main(rt: HostRuntime) {
    let mut room = console::room::<65536>();
    let n = console::read_full(&mut rt.stdin(), &mut room);
    console::print_line(&rt, run(&rt, text::first(&room, n)));
}

// Every line of the table.
fn run(rt: &impl Print, table: &[u8]) -> Tally {
    let mut kept = Kept {
        system: Record::empty(),
        cell: Record::empty(),
        boot: Record::empty(),
        tally: Tally::new(),
    };
    for line in table.split_inclusive(text::is_feed) {
        kept.read(rt, text::unended(line));
    }
    kept.tally
}

// What the words of a line, between its label and its answer, make of a record.
fn built(base: &Record, line: &[u8]) -> Built {
    let (_, words) = text::cut_at(cases::asked(line), b':').unwrap_or((b"", b""));
    words::build(base, words)
}

impl Kept {
    // One line.
    fn read(&mut self, rt: &impl Print, line: &[u8]) {
        if line.starts_with(b"system ") {
            self.system(rt, line);
        } else if line.starts_with(b"cell ") {
            self.cell(rt, line);
        } else if text::is_remark(line) {
            cases::print_as_is(rt, line);
        } else {
            self.tally.unread(rt, line, "no reader has this name");
        }
    }

    // Boot's answer to the record of a line.
    fn system(&mut self, rt: &impl Print, line: &[u8]) {
        let built = built(&self.system, line);
        if built.keep {
            self.system = built.record;
        }
        if built.start {
            self.boot = built.record;
        }
        let code = system_record::read_system(built.record.bytes()).code;
        self.tally.shown(rt, line, code, built.whole, UNREAD);
    }

    // The cell reader's answer in the system that was started.
    fn cell(&mut self, rt: &impl Print, line: &[u8]) {
        let built = built(&self.cell, line);
        if built.keep {
            self.cell = built.record;
        }
        let started = system_record::read_system(self.boot.bytes());
        let code = cell_rules::read_cell(&started.config, built.record.bytes()).code;
        self.tally.shown(rt, line, code, built.whole, UNREAD);
    }
}
