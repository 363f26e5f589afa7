// Events by the handful, on a state that is lent. The entry point for callers is batch; it refuses bad input and requires nothing.
#![tactic(auto)]

ghost use Rattle.std.specs.Prelude.{◌≡◌, ◌*◌, ◌≤◌, length};
ghost use Rattle.answers.specs.Answers.{answer_of};
ghost use Rattle.state.specs.States.{own_tree};
ghost use Rattle.state.specs.Starting.{told};
ghost use Rattle.playing.specs.Playing.{event_in, played, spelt};
ghost use Rattle.batches.specs.Batches.{batch, events_of, refused_each};

use answers::Refusal;
use state::{Refused, State};

// Spells the events out where their answers will stand.
fn spell(events: &[u32], out: &mut [u32])
    requires { 3 * events_of events.now ≤ length out.old }
    ensures { out.new ≡ spelt (event_in events.now) (events_of events.now) out.old }
{
    for k in 0..events.len() / 3 {
        let ev = playing::event_in(events, k);
        playing::put_three(out, k, ev.kind, ev.a, ev.b);
    }
}

// Answers each event with one number.
fn refuse_each(number: u32, total: usize, out: &mut [u32])
    requires { 3 * total ≤ length out.old }
    ensures { out.new ≡ refused_each number total out.old }
{
    for k in 0..total {
        playing::put_three(out, k, number, 0, 0);
    }
}

// The events one after the other. Size and order are looked at once: no event changes whether they are right.
fn step_each(events: &[u32], out: &mut [u32], s: &mut State)
    requires { 3 * events_of events.now ≤ length out.old }
    ensures s_after { s.new ≡ (played (own_tree s.old) (event_in events.now) (events_of events.now) 0 s.old out.old).state }
    ensures out_after { out.new ≡ (played (own_tree s.old) (event_in events.now) (events_of events.now) 0 s.old out.old).answers }
{
    let total = events.len() / 3;
    if tree::wrong_size(s.group.n as u32) {
        refuse_each(Refusal::BadSize.number(), total, out);
        return;
    }
    if !order::in_order(*s) {
        refuse_each(Refusal::NotInOrder.number(), total, out);
        return;
    }
    spell(events, out);
    playing::play_on(total, out, s);
}

// Entry point: events by the handful on the state that the caller lends, in that state's form. Writes answer, sent and moved's count for each event.
// Refuses with 40 and 41. It and lend stay out of line, as state::start does.
#[inline(never)]
pub fn batch(events: &[u32], out: &mut [u32], s: &mut State) -> Result<(), Refusal>
    ensures value { answer_of result ≡ (batch (own_tree s.old) events.now out.old s.old).answer }
    ensures s_after { s.new ≡ (batch (own_tree s.old) events.now out.old s.old).state }
    ensures out_after { out.new ≡ (batch (own_tree s.old) events.now out.old s.old).answers }
{
    if events.len() % 3 != 0 {
        return Err(Refusal::NotByThree);
    }
    if out.len() < 3 * (events.len() / 3) {
        return Err(Refusal::FewAnswers);
    }
    step_each(events, out, s);
    Ok(())
}

// The same for a caller that holds a state by value: its copy is lent to batch.
#[inline(never)]
pub fn lend(events: &[u32], out: &mut [u32], mut s: State) -> Result<State, Refused>
    ensures answer_value { (told result).answer ≡ (batch (own_tree s) events.now out.old s).answer }
    ensures state_value { (told result).state ≡ (batch (own_tree s) events.now out.old s).state }
    ensures out_after { out.new ≡ (batch (own_tree s) events.now out.old s).answers }
{
    match batch(events, out, &mut s) {
        Ok(()) => Ok(s),
        Err(refusal) => Err(Refused { refusal, state: s }),
    }
}
