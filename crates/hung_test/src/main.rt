// Replays the log of samples/hung in one piece, and prints what the replay program prints of it. The
// file `stdin` is the log, `data` has the machine's record, and `stdout` is what document 01, with
// the reply limit, answers. A program of a gate's run has one log; the replay program's own is
// Tuesday's.
#![tactic(auto)]

use std::fs;
use test_support::{console, text};

fn main(rt: HostRuntime) {
    let mut record = [0; 4096];
    // The file stays open while the log is read.
    let mut opened = fs::open(&rt, "system.tss");
    let n = match &mut opened {
        Ok(file) => console::read_full(file, &mut record),
        Err(_) => 0,
    };
    let booted = machine_state::boot(record.get(..n).unwrap_or(&record));
    let mut out = console::room::<65536>();
    let told = texts::put_boot(booted.code, &mut out);
    console::print(&rt, text::text_of(&out, told));
    let mut log = console::room::<65536>();
    let len = console::read_full(&mut rt.stdin(), &mut log);
    let start = replay_log::start(booted.machine);
    let ran = replay_log::run(start, log.get(..len).unwrap_or(&log), &mut out);
    console::print(&rt, text::text_of(&out, ran.written));
}
