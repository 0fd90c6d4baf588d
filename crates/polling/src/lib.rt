// A poll of a waiting call: whether the cell waited for is heard, or its reply limit cuts it off, and what
// follows.
#![tactic(auto)]

ghost use Rattle.std.specs.Prelude.{◌≡◌, false, ◌<◌, Some};
ghost use Rattle.rules.specs.State.{comm_at};
ghost use Rattle.rules.specs.Effects.{cell_cut_off};
ghost use Rattle.rules.specs.Asking.{is_heard, hear as hear_of, is_last_poll, poll_cell, poll as poll_of};
ghost use Rattle.polling.specs.Polls.{uncut, PollMoves};

use asking::Move;
use comms::WordsChange;
use machine_state::{Answer, CallKind, FAILED, MAX_CELLS, Machine, STATE_WORD, Stage};

// Whether the poll that comes after `polls` others is the last that a limit allows.
#[tactic(auto, unfolding(rules::specs::Asking::is_last_poll))]
fn is_last_poll(limit: u16, polls: u16) -> bool
    ensures { result ≡ is_last_poll limit polls }
{
    (limit != 0) & (limit as u32 <= polls as u32 + 1)
}

// What a poll does: the cell that its limit cuts off, if it cuts one off, and then the move.
#[derive(Clone, Copy)]
pub struct Polled {
    pub cut: Option<usize>,
    pub moves: Move,
}

// A poll that cuts no cell off.
fn uncut(moves: Move) -> Polled
    ensures { result ≡ uncut moves }
{
    Polled { cut: None, moves }
}

// A poll at which the cell waited for is cut off, and then heard as final.
fn cut_off(m: &Machine, kind: CallKind, stage: Stage) -> Polled
    requires { stage.cell < 16 }
    ensures { PollMoves m.now (λ new m. hear_of kind stage new (cell_cut_off stage.cell m)) result }
{
    let cell = stage.cell;
    let failed = comms::change_words(m.comms[cell], WordsChange::Store(STATE_WORD, FAILED));
    let cells = comms::cell_sets(m);
    let others = comms::without_cell(cells, cell);
    Polled {
        cut: Some(cell),
        moves: asking::hear(others, failed, kind, stage),
    }
}

// A poll that hears nothing from a cell with a limit: the last one cuts the cell off, and any other
// is counted.
fn unheard(m: &Machine, kind: CallKind, stage: Stage) -> Polled
    requires { (stage.cell < 16) × (is_heard (comm_at m.now stage.cell) ≡ false) × ((comm_at m.now stage.cell).reply_limit ≡ 0 → ⊥) }
    ensures { PollMoves m.now (poll_cell kind stage) result }
{
    if is_last_poll(m.comms[stage.cell].reply_limit, stage.polls) {
        return cut_off(m, kind, stage);
    }
    let next = Stage {
        polls: stage.polls + 1,
        ..stage
    };
    let waiting = Some((kind, next));
    uncut(asking::keep_words(Answer::Wait(stage.cell), None, waiting))
}

// A poll of the waiting call: looks at the cell waited for.
fn poll_cell(m: &Machine, kind: CallKind, stage: Stage) -> Polled
    requires { m.now.waiting ≡ Some (kind, stage) }
    ensures { PollMoves m.now (poll_cell kind stage) result }
{
    let cell = stage.cell;
    let still_waits = uncut(asking::stay(Answer::Wait(cell), m.waiting));
    let w = m.comms[comms::cell_index(cell)];
    let limit = w.reply_limit;
    if MAX_CELLS <= cell {
        return still_waits;
    }
    if comms::is_heard(w) {
        return uncut(asking::hear(comms::cell_sets(m), w, kind, stage));
    }
    if limit == 0 {
        return still_waits;
    }
    unheard(m, kind, stage)
}

// A poll.
pub fn poll(m: &Machine) -> Polled
    ensures { PollMoves m.now (poll_of m.now.waiting) result }
{
    match m.waiting {
        None => uncut(asking::stay(Answer::Idle, m.waiting)),
        Some((kind, stage)) => poll_cell(m, kind, stage),
    }
}
