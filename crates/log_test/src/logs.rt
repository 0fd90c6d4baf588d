// The machine of a log, and the ways to run a log over it.
use crate::show::{Block, Kind};
use lines::MAX_RECORD;
use machine_state::Machine;
use test_support::{cases, text};
use texts::MAX_TEXT;

// A machine, and the first `told` bytes of an answer.
#[derive(Clone, Copy)]
pub(crate) struct Made {
    pub machine: Machine,
    answer: [u8; MAX_TEXT],
    told: usize,
}

impl Made {
    // A machine that no line has answered for.
    fn silent(machine: Machine) -> Self {
        Made {
            machine,
            answer: [0; MAX_TEXT],
            told: 0,
        }
    }

    // The answer with its line feed.
    fn written(&self) -> &str {
        text::text_of(&self.answer, self.told)
    }

    pub(crate) fn answer(&self) -> &str {
        text::first_line(self.written())
    }
}

// The machine that a block's first line makes of the one before, and its answer.
pub(crate) fn begin(m: &Machine, block: &Block) -> Made {
    match Kind::of(block.head) {
        Kind::Counter => Made::silent(with_counter(m, block.head)),
        Kind::Times => polls(m, block.head),
        Kind::Boot => boot(block),
        _ => Made::silent(*m),
    }
}

// The machine with a raw value in an exit counter, by a line `counter CPU COUNTER VALUE`.
fn with_counter(m: &Machine, line: &[u8]) -> Machine {
    let number = |k: usize| text::number_of(text::word(line, k)).value;
    let mut after = *m;
    let cpu = (number(1) % 64) as usize;
    let counter = (number(2) % 6) as usize;
    after.cpus[cpu].counters[counter] = (number(3) % 0x1_0000_0000) as u32;
    after
}

// Boots from a record of the script. A record that cannot be read has no answer.
fn boot(block: &Block) -> Made {
    let word = text::word(cases::asked(block.head), 1);
    let named = block.script.record_at(word);
    let booted = machine_state::boot(named.record.bytes());
    let mut made = Made::silent(booted.machine);
    if named.whole {
        made.told = texts::put_boot(booted.code, &mut made.answer);
    }
    made
}

// One line of a log by the entry for the shim: the machine after it, and its answer.
fn step_line(m: &Machine, line: &[u8]) -> Made {
    let mut record = [0; MAX_RECORD];
    let read = lines::read_line(line, &mut record);
    let brought = record.get(..read.len).unwrap_or(&record);
    let stepped = manager::step(*m, read.event, brought);
    let mut made = Made::silent(stepped.machine);
    made.told = texts::put_answer(stepped.answer, &mut made.answer);
    made
}

// Polls in a row, by a line `times N poll > ANSWER`: the machine after them and their answer, up to
// the first that is not the one that is wanted.
fn polls(m: &Machine, line: &[u8]) -> Made {
    let mut made = Made::silent(*m);
    for _ in 0..text::number_of(text::word(line, 1)).value {
        made = step_line(&made.machine, b"poll");
        if made.answer().as_bytes() != cases::wanted(line) {
            return made;
        }
    }
    made
}

// A log that was run: the machine before it, its bytes, and the answers to it.
#[derive(Clone, Copy)]
pub(crate) struct Log<'a> {
    pub start: &'a Machine,
    pub bytes: &'a [u8],
    pub answers: &'a [u8],
}

impl<'a> Log<'a> {
    // Without its last byte, which is a line feed unless the log fills its room.
    pub(crate) fn unended(&self) -> Log<'a> {
        let (_, front) = self.bytes.split_last().unwrap_or((&0, b""));
        Log {
            start: self.start,
            bytes: front,
            answers: self.answers,
        }
    }

    // Whether every line gets these answers by the entry for the shim.
    pub(crate) fn by_steps(&self) -> bool {
        let mut machine = *self.start;
        let mut left = self.answers;
        for line in self.bytes.split_inclusive(text::is_feed) {
            let made = step_line(&machine, text::unended(line));
            let Some(rest) = left.strip_prefix(made.written().as_bytes()) else {
                return false;
            };
            left = rest;
            machine = made.machine;
        }
        left.is_empty()
    }

    // Whether the log gets these answers where it comes in pieces of `size` bytes.
    pub(crate) fn in_pieces(&self, size: usize) -> bool {
        let mut out = [0; 4096];
        let mut run = replay_log::start(*self.start);
        let mut left = self.answers;
        for piece in self.bytes.chunks(size.max(1)) {
            let ran = replay_log::run(run, piece, &mut out);
            let written = text::text_of(&out, ran.written);
            let Some(rest) = left.strip_prefix(written.as_bytes()) else {
                return false;
            };
            left = rest;
            run = ran.replay;
        }
        let n = replay_log::finish(run, &mut out);
        left == text::text_of(&out, n).as_bytes()
    }
}
