// How often each kind of answer came. The script's lines `answer ..` name the kinds in this order.
use crate::lines_made::nth;
use machine_state::Answer;
use test_support::console;
use test_support::names::Script;

// The kinds of answers: to calls, to other events, why an event is not obeyed, and to boots. No other
// code may come.
#[derive(Clone, Copy, PartialEq, Eq)]
pub(crate) enum Kind {
    Zero,
    Positive,
    NotPermitted,
    NoEntry,
    TooBig,
    NoMemory,
    Busy,
    Exists,
    Invalid,
    NoSuchCall,
    Wait,
    Done,
    Off,
    Bad,
    Stopped,
    Held,
    Denied,
    Idle,
    Booted,
    BootInvalid,
    BootOutOfRange,
    BootNoMemory,
    Other,
}

impl Kind {
    // The kind of a return code.
    fn of_code(code: i32) -> Self {
        match code {
            0 => Kind::Zero,
            -1 => Kind::NotPermitted,
            -2 => Kind::NoEntry,
            -7 => Kind::TooBig,
            -12 => Kind::NoMemory,
            -16 => Kind::Busy,
            -17 => Kind::Exists,
            -22 => Kind::Invalid,
            -38 => Kind::NoSuchCall,
            _ if 0 < code => Kind::Positive,
            _ => Kind::Other,
        }
    }

    pub(crate) fn of(answer: Answer) -> Self {
        match answer {
            Answer::Code(code) => Kind::of_code(code),
            Answer::Wait(_) => Kind::Wait,
            Answer::Done => Kind::Done,
            Answer::Off => Kind::Off,
            Answer::Bad => Kind::Bad,
            Answer::Stopped => Kind::Stopped,
            Answer::Held => Kind::Held,
            Answer::Denied => Kind::Denied,
            Answer::Idle => Kind::Idle,
        }
    }

    // The kind of a boot's answer.
    pub(crate) fn of_boot(code: i32) -> Self {
        match code {
            0 => Kind::Booted,
            -22 => Kind::BootInvalid,
            -34 => Kind::BootOutOfRange,
            -12 => Kind::BootNoMemory,
            _ => Kind::Other,
        }
    }
}

// How many kinds there are: Other is the last.
const KINDS: usize = Kind::Other as usize + 1;

// How often each kind came.
#[derive(Clone, Copy)]
pub(crate) struct Counts([u64; KINDS]);

impl Counts {
    pub(crate) fn none() -> Self {
        Counts([0; KINDS])
    }

    // One more of a kind.
    pub(crate) fn count(&mut self, kind: Kind) {
        if let Some(n) = self.0.get_mut(kind as usize) {
            *n = n.saturating_add(1);
        }
    }

    // Each kind with its count. Each that document 01 names has to come, and no other may.
    pub(crate) fn print(&self, rt: &impl Print, script: &Script) {
        for (kind, n) in self.0.iter().enumerate() {
            console::print_bytes(rt, nth(script, b"answer", kind));
            let comes = kind != Kind::Other as usize;
            let mark = if comes == (*n == 0) { "   WRONG" } else { "" };
            console::print_line(rt, format_args!(": {n}{mark}"));
        }
    }
}
