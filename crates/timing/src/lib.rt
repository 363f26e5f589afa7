// The functions that the benchmark links: a group is started and stepped, by one event or by many at a time. Each refuses bad lengths as a
// batch does and requires nothing, and both have the contract of one batch: they compute the same.
#![tactic(auto)]

ghost use Rattle.std.specs.Prelude.{◌≡◌, ◌*◌, ◌≤◌, ◌<◌, cond, length, IfOk};
ghost use Rattle.answers.specs.Answers.{answer_of};
ghost use Rattle.tree.specs.Forms.{tree_of};
ghost use Rattle.state.specs.States.{own_tree};
ghost use Rattle.state.specs.Starting.{started};
ghost use Rattle.playing.specs.Playing.{event_in, played};
ghost use Rattle.batches.specs.Batches.{batch, events_of, too_short, uneven};

use answers::Refusal;
use state::State;

// The state to begin with, where the two lengths are right for a batch. A refused start leaves the empty group to be stepped.
fn begin(n: u32, form: u32, span: u32, events: &[u32], out: &[u32]) -> Result<State, Refusal>
    ensures value { answer_of result ≡ cond (uneven events.now) 40 (cond (too_short events.now out.now) 41 0) }
    ensures state { IfOk result (λ s. s ≡ (started (tree_of form span) n form span).state) }
{
    if events.len() % 3 != 0 {
        return Err(Refusal::NotByThree);
    }
    if out.len() < 3 * (events.len() / 3) {
        return Err(Refusal::FewAnswers);
    }
    match state::start(n, form, span) {
        Ok(s) => Ok(s),
        Err(r) => Ok(r.state),
    }
}

// The events one after the other, a call of `event` for each.
fn step_all(events: &[u32], out: &mut [u32], mut s: State)
    requires { 3 * events_of events.now ≤ length out.old }
    ensures { out.new ≡ (played (own_tree s) (event_in events.now) (events_of events.now) 0 s out.old).answers }
{
    for k in 0..events.len() / 3 {
        let ev = playing::event_in(events, k);
        match group::event(s, ev) {
            Ok(r) => {
                playing::put_three(out, k, 0, r.sent, r.moved.count);
                s = r.state;
            }
            Err(r) => {
                playing::put_three(out, k, r.refusal.number(), 0, 0);
                s = r.state;
            }
        }
    }
}

// Where a handful of `size` events from place k on ends. A size of 0 is taken as 1, so that every handful has an event.
fn handful_end(size: u32, total: usize, k: usize) -> usize
    requires { k < total }
    ensures { (k < result) × (result ≤ total) }
{
    k + (size as usize).max(1).min(total - k)
}

// The events by the handful, a call of `batch` for each, which is lent its part of both slices.
fn batch_all(size: u32, events: &[u32], out: &mut [u32], mut s: State)
    requires { 3 * events_of events.now ≤ length out.old }
    ensures { out.new ≡ (played (own_tree s) (event_in events.now) (events_of events.now) 0 s out.old).answers }
{
    let total = events.len() / 3;
    let mut k: usize = 0;
    while k < total {
        let end = handful_end(size, total, k);
        let from = 3 * k;
        let to = 3 * end;
        let _taken = batches::batch(&events[from..to], &mut out[from..to], &mut s);
        k = end;
    }
}

// Starts a group of n, in a form with a box size, and steps it event by event.
#[unsafe(no_mangle)]
pub extern "C" fn duha_one_by_one(
    n: u32,
    form: u32,
    span: u32,
    events: &[u32],
    out: &mut [u32],
) -> u32
    ensures value { result ≡ (batch (own_tree (started (tree_of form span) n form span).state) events.now out.old (started (tree_of form span) n form span).state).answer }
    ensures out_after { out.new ≡ (batch (own_tree (started (tree_of form span) n form span).state) events.now out.old (started (tree_of form span) n form span).state).answers }
{
    match begin(n, form, span, events, out) {
        Ok(s) => {
            step_all(events, out, s);
            0
        }
        Err(refusal) => refusal.number(),
    }
}

// Starts a group of n, in a form with a box size, and steps it by handfuls of `size` events.
#[unsafe(no_mangle)]
pub extern "C" fn duha_in_handfuls(
    n: u32,
    form: u32,
    span: u32,
    size: u32,
    events: &[u32],
    out: &mut [u32],
) -> u32
    ensures value { result ≡ (batch (own_tree (started (tree_of form span) n form span).state) events.now out.old (started (tree_of form span) n form span).state).answer }
    ensures out_after { out.new ≡ (batch (own_tree (started (tree_of form span) n form span).state) events.now out.old (started (tree_of form span) n form span).state).answers }
{
    match begin(n, form, span, events, out) {
        Ok(s) => {
            batch_all(size, events, out, s);
            0
        }
        Err(refusal) => refusal.number(),
    }
}
