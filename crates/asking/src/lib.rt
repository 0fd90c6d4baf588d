// Asking cells, telling them, and hearing their replies: what a call that asks, or hears a cell, does,
// decided from the sets of cells and the words of the cell heard alone.
#![tactic(auto)]

ghost use Rattle.std.specs.Prelude.{◌≡◌, false, ℕ, ◌<◌, Some};
ghost use Rattle.base.specs.Codes.{number_of};
ghost use Rattle.rules.specs.State.{with_waiting, answered};
ghost use Rattle.rules.specs.Asking.{asks, tells as tells_of, is_destroy, end_code, wait_for, finished, carry_out, none_to_ask, ask as ask_of, hear as hear_of};
ghost use Rattle.comms.specs.Comms.{among};
ghost use Rattle.asking.specs.Moves.{effect_of, AnyMachine, WithSets, Hears, tell_next, Moves};

use base::Errno;
use comms::{CellSets, Whom, WordsChange};
use machine_state::{
    Answer, CallKind, CommRegion, RECONFIG_COMPLETED, SHUTDOWN_REQUEST, Stage, Waiting,
};

// The effect that comes: none, or that of a call on its target.
pub type Effect = Option<(CallKind, usize)>;

// What a call or a poll does: its answer, the effect that comes, then what is done to the words of
// one cell, and the call that waits then.
#[derive(Clone, Copy)]
pub struct Move {
    pub answer: Answer,
    pub effect: Effect,
    pub cell: usize,
    pub words: WordsChange,
    pub waiting: Waiting,
}

// A move that changes no words.
pub fn keep_words(answer: Answer, effect: Effect, waiting: Waiting) -> Move
    ensures { Moves AnyMachine (λ new m. answered answer (with_waiting waiting (effect_of effect new m))) result }
{
    Move {
        answer,
        effect,
        cell: 0,
        words: WordsChange::Keep,
        waiting,
    }
}

// An answer that changes nothing; `waiting` is the call that waits already.
pub fn stay(answer: Answer, waiting: Waiting) -> Move
    ensures { Moves (λ m. m.waiting ≡ waiting) (λ new m. answered answer m) result }
{
    keep_words(answer, None, waiting)
}

// The end of a call that is refused: nothing changes, and no call waits then.
fn refuse(why: Errno) -> Move
    ensures { Moves AnyMachine (λ new m. finished (number_of why) m) result }
{
    keep_words(Answer::Code(i32::from(why)), None, None)
}

// The end of a call that comes to its effect, with 0 or the new ID.
fn finish(code: i32, effect: Effect) -> Move
    ensures { Moves AnyMachine (λ new m. finished code (effect_of effect new m)) result }
{
    keep_words(Answer::Code(code), effect, None)
}

// A message to the stage's cell, for which the call then waits.
fn wait_for(kind: CallKind, stage: Stage, code: u32, effect: Effect) -> Move
    requires { stage.cell < 16 }
    ensures { Moves AnyMachine (λ new m. wait_for kind stage code (effect_of effect new m)) result }
{
    let cell = stage.cell;
    Move {
        answer: Answer::Wait(cell),
        effect,
        cell,
        words: WordsChange::Message(code),
        waiting: Some((kind, stage)),
    }
}

// The code with which a call ends that has told everyone: the new ID or 0, a number and no refusal.
#[tactic(auto, unfolding(rules::specs::Asking::end_code))]
fn end_code(kind: CallKind, target: usize) -> i32
    ensures { result ≡ end_code kind target }
{
    if kind == CallKind::Create {
        (target % 0x8000_0000) as i32
    } else {
        0
    }
}

// Telling the cell `next`, or with none left the call's end.
fn tell_next(kind: CallKind, target: usize, next: Option<usize>, effect: Effect) -> Move
    requires { (cell : ℕ) → next ≡ Some cell → cell < 16 }
    ensures { Moves AnyMachine (λ new m. tell_next kind target next (effect_of effect new m)) result }
{
    match next {
        Some(cell) => {
            let stage = Stage {
                target,
                cell,
                telling: true,
                polls: 0,
            };
            wait_for(kind, stage, RECONFIG_COMPLETED, effect)
        }
        None => finish(end_code(kind, target), effect),
    }
}

// Whether the call tells after its effect.
fn tells(kind: CallKind) -> bool
    ensures { result ≡ tells_of kind }
{
    matches!(kind, CallKind::Create | CallKind::Destroy)
}

// The effect of a call that may go ahead, and what follows it. The cells that are told after it are
// those that could be told before it, but the target.
fn carry_out(cells: CellSets, kind: CallKind, target: usize) -> Move
    ensures { Moves (WithSets cells) (carry_out kind target) result }
{
    let effect: Effect = Some((kind, target));
    if tells(kind) {
        let next = comms::next_cell(cells.messageable, Whom::EveryoneBut(target), 0);
        tell_next(kind, target, next, effect)
    } else {
        finish(0, effect)
    }
}

// Whether the call is Destroy.
pub fn is_destroy(kind: CallKind) -> bool
    ensures { result ≡ is_destroy kind }
{
    kind == CallKind::Destroy
}

// What follows when no cell is left to ask: Destroy looks at the locks once more.
fn none_to_ask(cells: CellSets, kind: CallKind, target: usize) -> Move
    ensures { Moves (WithSets cells) (none_to_ask kind target) result }
{
    if is_destroy(kind) && comms::is_locked_but(cells.locked, target) {
        refuse(Errno::NotPermitted)
    } else {
        carry_out(cells, kind, target)
    }
}

// The cells that a call asks.
#[tactic(auto, unfolding(rules::specs::Asking::asks, comms::specs::Comms::among))]
fn asked(kind: CallKind, target: usize) -> Whom
    ensures { (id : ℕ) → among result id ≡ asks kind target id }
{
    match kind {
        CallKind::Disable => Whom::Everyone,
        CallKind::Create => Whom::Nobody,
        CallKind::Start | CallKind::SetLoadable | CallKind::Destroy => Whom::Only(target),
    }
}

// Moves on while asking: messages the next cell after `after`, or comes to the effect.
pub fn ask(cells: CellSets, kind: CallKind, target: usize, after: usize) -> Move
    ensures { Moves (WithSets cells) (ask_of kind target after) result }
{
    match comms::next_cell(cells.messageable, asked(kind, target), after) {
        Some(cell) => {
            let stage = Stage {
                target,
                cell,
                telling: false,
                polls: 0,
            };
            wait_for(kind, stage, SHUTDOWN_REQUEST, None)
        }
        None => none_to_ask(cells, kind, target),
    }
}

// What the reply of a heard cell, whose words are `w`, leads to.
pub fn hear(cells: CellSets, w: CommRegion, kind: CallKind, stage: Stage) -> Move
    ensures { Moves (Hears cells w stage) (hear_of kind stage) result }
{
    let cell = stage.cell;
    let target = stage.target;
    if stage.telling {
        let next = comms::next_cell(cells.messageable, Whom::Everyone, cell);
        return tell_next(kind, target, next, None);
    }
    if comms::consents(w) {
        ask(cells, kind, target, cell)
    } else {
        refuse(Errno::NotPermitted)
    }
}
