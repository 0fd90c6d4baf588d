// A random run: events of every kind from a fixed seed, over machines that are started from several
// system records. After each event both entries have to agree, and what demands 1 and 2 say of every
// machine has to hold (claims.rt). It prints how often each kind of answer came, and each answer that
// document 01 names has to come.
//
// The file `stdin` has the records, the lines that are thrown and the numbers in them (lines_made.rt).
// The counts in `stdout` are not worked out from document 01: they show that a run is the last one
// again. `0 broken claims` and no `WRONG` are the test.
#![tactic(auto)]

mod claims;
mod counts;
mod dice;
mod lines_made;
mod view;

use arrayvec::ArrayVec;
use counts::{Counts, Kind};
use dice::{Dice, SEED};
use lines::MAX_RECORD;
use lines_made::{LOG, nth};
use machine_state::{Booted, Machine, Stepped};
use test_support::names::Script;
use test_support::{console, text};

// How many machines are run, and how many events each of them meets.
const MACHINES: usize = 77;

const EVENTS: u64 = 200;

// How many events a machine meets that is off.
const EVENTS_OFF: u64 = 8;

// A run over a script that has so many templates: the dice, how many claims were broken, and how
// often each kind of answer came.
#[derive(Clone, Copy)]
struct Run<'a> {
    script: Script<'a>,
    templates: u64,
    dice: Dice,
    broken: u64,
    counts: Counts,
}

fn main(rt: HostRuntime) {
    let mut room = console::room::<65536>();
    let n = console::read_full(&mut rt.stdin(), &mut room);
    let script = Script(text::first(&room, n));
    let mut run = Run {
        script,
        templates: lines_made::templates(&script),
        dice: Dice(SEED),
        broken: 0,
        counts: Counts::none(),
    };
    run.machines(&rt);
    run.counts.print(&rt, &script);
    let broken = run.broken;
    console::print_line(&rt, format_args!("{broken} broken claims"));
}

// A line by the entry for the shim.
fn by_shim(m: &Machine, line: &[u8]) -> Stepped {
    let mut record = [0; MAX_RECORD];
    let read = lines::read_line(line, &mut record);
    let brought = record.get(..read.len).unwrap_or(&record);
    manager::step(*m, read.event, brought)
}

impl<'a> Run<'a> {
    // Every machine.
    fn machines(&mut self, rt: &impl Print) {
        for k in (1..=MACHINES).rev() {
            let booted = self.boot(k);
            self.counts.count(Kind::of_boot(booted.code));
            self.events(rt, booted.machine);
        }
    }

    // The next machine: the script's list `system` has the records, some of which are refused.
    fn boot(&self, k: usize) -> Booted {
        let word = lines_made::of_list(&self.script, b"system", k);
        machine_state::boot(self.script.record_at(word).record.bytes())
    }

    // Every event of a machine.
    fn events(&mut self, rt: &impl Print, start: Machine) {
        let mut machine = start;
        let mut off: u64 = 0;
        for _ in 0..EVENTS {
            if EVENTS_OFF <= off {
                return;
            }
            let stepped = self.event(rt, &machine);
            let kind = Kind::of(stepped.answer);
            self.counts.count(kind);
            off = off.saturating_add((kind == Kind::Off) as u64);
            machine = stepped.machine;
        }
    }

    // One event, by both entries, and the claims. A broken one is printed with the line after which it
    // was.
    fn event(&mut self, rt: &impl Print, before: &Machine) -> Stepped {
        let mut log = ArrayVec::<u8, LOG>::new();
        self.dice = lines_made::line(&mut log, &self.script, self.templates, self.dice);
        let line = log.as_slice();
        // Without its last byte, which is a line feed unless the line fills its room.
        let (_, said) = line.split_last().unwrap_or((&0, b""));
        let stepped = by_shim(before, said);
        if let Err(claim) = claims::hold(before, &stepped, line) {
            console::print_bytes(rt, nth(&self.script, b"claim", claim as usize));
            console::print(rt, ": ");
            console::print_bytes(rt, line);
            self.broken = self.broken.saturating_add(1);
        }
        stepped
    }
}
