// Which events are obeyed, and the word that says why the others are not: each row of the table of
// refusals is a test of the machine, in the table's order.
#![tactic(auto)]

ghost use Rattle.std.specs.Prelude.{◌≡◌, false, ℕ, ◌<◌};
ghost use Rattle.rules.specs.State.{waits as waits_of, cpu_at};
ghost use Rattle.rules.specs.Unobeyed.{is_on, store_denied as store_denied_of};
ghost use Rattle.unobeyed.specs.Admission.{AdmitsOwn, AdmitsOn, Admits};

use machine_state::{Answer, Event, MAX_CELLS, Machine, Power, Waiting};

// Whether the machine is on.
fn is_on(power: Power) -> bool
    ensures { result ≡ is_on power }
{
    power == Power::On
}

// Whether a call waits.
fn waits(waiting: Waiting) -> bool
    ensures { result ≡ waits_of waiting }
{
    waiting.is_some()
}

// The rows that look at the event's CPU.
fn admit_own(m: &Machine, cpu: usize) -> Result<(), Answer>
    requires { cpu < 64 }
    ensures { AdmitsOwn m.now cpu result }
{
    let p = &m.cpus[cpu];
    if p.stopped | p.failed {
        return Err(Answer::Stopped);
    }
    if (p.cell == 0) & waits(m.waiting) {
        return Err(Answer::Held);
    }
    Ok(())
}

// The rows of every event on CPU `cpu`; `bad` is what else makes the event bad.
fn admit_on(m: &Machine, cpu: u64, bad: bool) -> Result<(), Answer>
    ensures { AdmitsOn m.now cpu bad result }
{
    if !is_on(m.power) {
        return Err(Answer::Off);
    }
    if !cpu_set::contains(m.system.cpus, cpu) {
        return Err(Answer::Bad);
    }
    if bad {
        return Err(Answer::Bad);
    }
    admit_own(m, cpu as usize)
}

// Whether a store to a word by CPU `cpu` is denied. A cell past the tables' end has no words.
fn store_denied(m: &Machine, cpu: usize, word: u64) -> bool
    requires { cpu < 64 }
    ensures value { result ≡ store_denied_of cpu word m.now }
    ensures in_table { result ≡ false → (cpu_at m.now cpu).cell < 16 }
{
    let cell = m.cpus[cpu].cell;
    if MAX_CELLS <= cell {
        return true;
    }
    let w = m.comms[cell];
    (cell == 0) | !w.mapped | (2 < word) | (word == 2) & comms::is_final(w.cell_state)
}

// A store.
fn admit_store(m: &Machine, cpu: u64, word: u64) -> Result<(), Answer>
    ensures { (value : ℕ) → Admits m.now (Event.Store cpu word value) result }
{
    admit_on(m, cpu, false)?;
    if store_denied(m, cpu as usize, word) {
        return Err(Answer::Denied);
    }
    Ok(())
}

// A poll.
fn admit_poll(m: &Machine) -> Result<(), Answer>
    ensures { Admits m.now Event.Poll result }
{
    if !is_on(m.power) {
        return Err(Answer::Off);
    }
    if !waits(m.waiting) {
        return Err(Answer::Idle);
    }
    Ok(())
}

// A malformed line.
fn admit_malformed(m: &Machine) -> Result<(), Answer>
    ensures { Admits m.now Event.Malformed result }
{
    if !is_on(m.power) {
        return Err(Answer::Off);
    }
    Err(Answer::Bad)
}

// Whether a machine obeys an event, else the word that says why it does not.
pub fn admit(m: &Machine, e: Event) -> Result<(), Answer>
    ensures { Admits m.now e result }
{
    match e {
        Event::Call(cpu, _, _, _) => admit_on(m, cpu, false),
        Event::Store(cpu, word, _) => admit_store(m, cpu, word),
        Event::Fault(cpu) => admit_on(m, cpu, false),
        Event::Exit(cpu, kind) => admit_on(m, cpu, 3 < kind),
        Event::Poll => admit_poll(m),
        Event::Malformed => admit_malformed(m),
    }
}
