// Runs a script of logs and prints each line with the answer that came. The file `stdin` is the
// script: it says what its lines are, and has the answer that document 01 gives to each. The file
// `stdout` is the same text and a count.
//
// A block of the script is a log: a line `boot`, `counter` or `times` and what follows it up to the next. The
// log is run by the loop over a log, by the entry for the shim, and in pieces (logs.rt); where one
// of them gives another answer, a line says so and counts as wrong.
#![tactic(auto)]

mod logs;
mod show;

use arrayvec::ArrayVec;
use logs::Log;
use machine_state::Machine;
use show::Block;
use test_support::cases::Tally;
use test_support::names::Script;
use test_support::{console, text};

// Room for the bytes of a block's log, and for the answers to it.
const BYTES: usize = 65536;

const ANSWERS: usize = 16384;

// How far a script has come: the machine that the last block left, and the cases.
#[derive(Clone, Copy)]
struct Progress {
    machine: Machine,
    tally: Tally,
}

fn main(rt: HostRuntime) {
    let mut room = console::room::<262144>();
    let n = console::read_full(&mut rt.stdin(), &mut room);
    console::print_line(&rt, blocks(&rt, Script(text::first(&room, n))));
}

// Every block of the script.
fn blocks(rt: &impl Print, script: Script) -> Tally {
    let mut progress = Progress {
        machine: machine_state::boot(b"").machine,
        tally: Tally::new(),
    };
    let mut left = script.0;
    // A block has a byte at least.
    for _ in 0..script.0.len() {
        if left.is_empty() {
            return progress.tally;
        }
        let (block, behind) = Block::first(script, left);
        progress.block(rt, &block);
        left = behind;
    }
    progress.tally
}

impl Progress {
    // One block: its first line makes a machine, and its log is written out and run.
    fn block(&mut self, rt: &impl Print, block: &Block) {
        let begun = logs::begin(&self.machine, block);
        let mut bytes = ArrayVec::<u8, BYTES>::new();
        let read = block.gather(&mut bytes);
        let mut out = [0; ANSWERS];
        let ran = replay_log::run(replay_log::start(begun.machine), bytes.as_slice(), &mut out);
        let answers = text::text_of(&out, ran.written);
        let answer = begun.answer();
        block.show(rt, &mut self.tally, answer, answers);
        let why = "a name or an escape cannot be read";
        self.check(rt, block, read, why);
        let log = Log {
            start: &begun.machine,
            bytes: bytes.as_slice(),
            answers: answers.as_bytes(),
        };
        self.again(rt, block, &log);
        self.machine = ran.replay.machine;
    }

    // The log again, by the entry for the shim, cut into pieces and without its last line feed: each time
    // the same text.
    fn again(&mut self, rt: &impl Print, block: &Block, log: &Log) {
        let shim = log.by_steps();
        self.check(rt, block, shim, "other answers by the entry for the shim");
        let pieces = [1, 7, 64].iter().all(|size| log.in_pieces(*size));
        self.check(rt, block, pieces, "other answers in pieces");
        let ended = log.unended().in_pieces(64);
        self.check(rt, block, ended, "other answers without the last line feed");
    }

    // Says of a block what is wrong with its log as a whole, unless `ok`.
    fn check(&mut self, rt: &impl Print, block: &Block, ok: bool, why: &str) {
        if !ok {
            self.tally.unread(rt, block.head, why);
        }
    }
}
