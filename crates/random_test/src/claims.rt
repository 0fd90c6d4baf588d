// What has to hold after each event. The script's lines `claim ..` say the claims in the order of
// their numbers here; the first line, 0, is none.
use crate::view;
use machine_state::{Answer, Machine, Owner, PhysPage, Stepped};
use test_support::text;
use texts::MAX_TEXT;

#[derive(Clone, Copy)]
pub(crate) enum Claim {
    SameAnswers = 1,
    SameMachines,
    NotObeyed,
    Refused,
    OneOwner,
    Pages,
    Pool,
}

// The sample: the pages of the cells' regions and their neighbours, hypervisor memory and others.
const SAMPLE: [u64; 10] = [
    0xff, 0x100, 0x101, 0x103, 0x104, 0x106, 0x109, 0x10b, 0x3f000, 0x40000,
];

// What an event may change, by its answer.
#[derive(Clone, Copy, PartialEq, Eq)]
enum Change {
    Nothing,
    Counters,
    Anything,
}

// An error where a claim does not hold.
fn demand(holds: bool, claim: Claim) -> Result<(), Claim> {
    if holds { Ok(()) } else { Err(claim) }
}

// The first claim that an event broke: the machine before it, what the entry for the shim made of it,
// and the line that the run over the log has to answer in the same way.
pub(crate) fn hold(before: &Machine, stepped: &Stepped, line: &[u8]) -> Result<(), Claim> {
    let mut out = [0; 64];
    let ran = replay_log::run(replay_log::start(*before), line, &mut out);
    let written = text::text_of(&out, ran.written);
    demand(is_text_of(stepped.answer, written), Claim::SameAnswers)?;
    demand(ran.replay.machine == stepped.machine, Claim::SameMachines)?;
    let may = may_change(before, stepped.answer);
    demand(
        (may != Change::Nothing) || (*before == stepped.machine),
        Claim::NotObeyed,
    )?;
    if view::same_but_counters(before, &stepped.machine) {
        return Ok(());
    }
    demand(may == Change::Anything, Claim::Refused)?;
    hold_of(&stepped.machine)
}

// The same for the claims that a machine alone has to meet.
fn hold_of(m: &Machine) -> Result<(), Claim> {
    demand(view::have_one_owner(m), Claim::OneOwner)?;
    demand(SAMPLE.iter().all(|page| page_holds(m, *page)), Claim::Pages)?;
    demand(view::pool_is_sum(m), Claim::Pool)
}

// Whether an answer is the text that the run over the log wrote.
fn is_text_of(answer: Answer, written: &str) -> bool {
    let mut out = [0; MAX_TEXT];
    let n = texts::put_answer(answer, &mut out);
    text::text_of(&out, n) == written
}

// Nothing where an event is not obeyed; exit counters where it refuses a call that did not wait, and
// then no cell has been messaged.
fn may_change(before: &Machine, answer: Answer) -> Change {
    match answer {
        Answer::Code(code) if (code < 0) & !view::waits(before) => Change::Counters,
        Answer::Code(_) | Answer::Wait(_) | Answer::Done => Change::Anything,
        _ => Change::Nothing,
    }
}

// No two cells can touch a page unless it is shared or being loaded, and none hypervisor memory.
fn page_holds(m: &Machine, page: u64) -> bool {
    let root = pages::root_may_touch(m, PhysPage(page));
    let cells = view::cells_that_touch(m, page);
    match pages::owner_of(m, PhysPage(page)) {
        Owner::Hypervisor | Owner::Nobody => (cells == 0) & !root,
        Owner::Cell(_) => (cells == 1) & (!root | view::is_loaded(m, page)),
        Owner::Shared => 0 < cells,
        Owner::Root => (cells == 0) & root,
    }
}
