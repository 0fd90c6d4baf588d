// Asks the page questions, the communication region, the detection leaves and two counts of bits after
// the lines of a script, and prints each line with the answer that came. The file `stdin` is the
// script, with the answer that document 01 gives to each line; `stdout` is the same text and a count.
//
//   record NAME = BASE WORDS       a record (test_support, names.rt)
//   boot @NAME                     starts a machine from a system record
//   any line of a log              an event, answered by the entry for the shim
//   owner PAGE                     the owner of a physical page
//   touch PAGE                     whether root may touch it
//   map CELL PAGE                  what a cell page is mapped to
//   word CELL WORD                 a word of a cell's communication region
//   read CELL OFFSET               a byte of it
//   leaf NUMBER EAX EBX ECX EDX    the registers of a leaf, and those of the processor itself
//   count SET                      how many CPUs a set of CPUs has
//   free SET                       the smallest free ID where a set of 16 bits is in use; 16: none
//   # ..                           a remark
//
// Until the first `boot` there is no started machine. The numbers of a question are decimal, or
// after 0x hexadecimal. A question that cannot be read is an error, and counts as wrong.
#![tactic(auto)]

mod questions;
mod show;

use arrayvec::ArrayVec;
use lines::{MAX_LINE, MAX_RECORD};
use machine_state::{Event, Machine};
use questions::Question;
use test_support::cases::Tally;
use test_support::names::Script;
use test_support::{cases, console, expand, text};
use texts::MAX_TEXT;

// How far a script has come.
#[derive(Clone, Copy)]
struct Progress {
    machine: Machine,
    tally: Tally,
}

fn main(rt: HostRuntime) {
    let mut room = console::room::<65536>();
    let n = console::read_full(&mut rt.stdin(), &mut room);
    console::print_line(&rt, run(&rt, Script(text::first(&room, n))));
}

// Every line of the script.
fn run(rt: &impl Print, script: Script) -> Tally {
    let mut progress = Progress {
        machine: machine_state::boot(b"").machine,
        tally: Tally::new(),
    };
    for line in script.0.split_inclusive(text::is_feed) {
        progress.take(rt, &script, text::unended(line));
    }
    progress.tally
}

impl Progress {
    // One line: a remark, a record, a boot, a question or an event.
    fn take(&mut self, rt: &impl Print, script: &Script, line: &[u8]) {
        if text::is_remark(line) {
            cases::print_as_is(rt, line);
        } else if line.starts_with(b"record ") {
            self.tally.record_line(rt, script, line);
        } else if line.starts_with(b"boot @") {
            self.boot(rt, script, line);
        } else if questions::is_question(text::word(line, 0)) {
            self.ask(rt, line);
        } else {
            self.event(rt, script, line);
        }
    }

    // A boot, which is an error where not all of the record can be read.
    fn boot(&mut self, rt: &impl Print, script: &Script, line: &[u8]) {
        let named = script.record_at(text::word(cases::asked(line), 1));
        let booted = machine_state::boot(named.record.bytes());
        self.machine = booted.machine;
        let mut out = [0; MAX_TEXT];
        let n = texts::put_boot(booted.code, &mut out);
        let told = text::first_line(text::text_of(&out, n));
        let why = "this record cannot be read";
        self.tally.shown(rt, line, told, named.whole, why);
    }

    // A question, which changes nothing.
    fn ask(&mut self, rt: &impl Print, line: &[u8]) {
        match Question::read(cases::asked(line)) {
            Some(question) => {
                let reply = question.reply(&self.machine);
                self.tally.answered(rt, line, reply);
            }
            None => self.tally.unread(rt, line, "this question cannot be read"),
        }
    }

    // An event, by the entry for the shim. A malformed line is an error here.
    fn event(&mut self, rt: &impl Print, script: &Script, line: &[u8]) {
        let mut bytes = ArrayVec::<u8, MAX_LINE>::new();
        let whole = expand::expand(&mut bytes, script, cases::asked(line));
        let mut record = [0; MAX_RECORD];
        let read = lines::read_line(bytes.as_slice(), &mut record);
        let brought = record.get(..read.len).unwrap_or(&record);
        let stepped = manager::step(self.machine, read.event, brought);
        self.machine = stepped.machine;
        let mut out = [0; MAX_TEXT];
        let n = texts::put_answer(stepped.answer, &mut out);
        let told = text::first_line(text::text_of(&out, n));
        let said = whole && !matches!(read.event, Event::Malformed);
        let why = "no such word, or not its numbers";
        self.tally.shown(rt, line, told, said, why);
    }
}
