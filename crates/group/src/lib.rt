// The group: one event on a state handed in. The entry point for callers is event; it refuses bad input and requires nothing.
#![tactic(auto)]

ghost use Rattle.std.specs.Prelude.{◌≡◌, cond, true, ◌+◌, ◌-◌, ◌<◌, ◌≤◌, length};
ghost use Rattle.sets.specs.Sets.{add};
ghost use Rattle.rank.specs.Sends.{size};
ghost use Rattle.state.specs.States.{own_tree};
ghost use Rattle.plans.specs.Plans.{as_planned};
ghost use Rattle.plans.specs.Plans as Plans;
ghost use Rattle.order.specs.Between.{InOrder};
ghost use Rattle.group.specs.Events.{applied, event, plan_of, posted, stepped, subject_of, told};
ghost use Rattle.group.specs.Between.{Carriable};

use answers::Refusal;
use events::Event;
use net::Flight;
use plans::{NotPlanned, Plan};
use rank::Seat;
use state::{Refused, State};
use tree::Moved;

// What an accepted event answers: how many messages were sent, which ranks moved, and the state.
#[derive(Clone, Copy)]
pub struct Stepped {
    pub sent: u32,
    pub moved: Moved,
    pub state: State,
}

// The dead set, with one rank more if it dies.
pub fn buried(dead: u64, me: u8, dies: bool) -> u64
    requires { me < 64 }
    ensures { result ≡ cond dies (add dead me) dead }
{
    if dies {
        return sets::with(dead, me);
    }
    dead
}

// The rank that an event is about.
fn subject_of(s: &State, ev: Event) -> u8
    ensures { result ≡ subject_of s.now ev }
{
    plans::subject(s.group.n, ev, net::at(s.group.net, ev.a))
}

// What an event on a state in order will change, or why it is refused.
fn plan_of(s: &State, ev: Event) -> Result<Plan, NotPlanned>
    requires { InOrder (own_tree s.now) s.now }
    ensures { Plans.told result ≡ plan_of (own_tree s.now) s.now ev }
{
    let g = &s.group;
    let m = net::at(g.net, ev.a);
    let me = plans::subject(g.n, ev, m);
    let row = s.tables[me as usize];
    let seat = Seat {
        n: g.n,
        form: g.form,
        span: g.span,
        me,
        rank: g.ranks[me as usize],
        row,
    };
    plans::plan_event(seat, g.dead, g.count, ev, m)
}

// The list after a plan: a message has left, if one leaves, and two sends have joined. Answers how many have joined. In line, so that no plan is
// stored for a call.
#[inline(always)]
pub fn post(flight: &mut Flight, place: u32, me: u8, p: Plan) -> u32
    requires place_in { p.leaves ≡ true → place < length flight.old }
    requires room { length flight.old + size p.acted.first + size p.acted.second - cond p.leaves 1 0 ≤ 128 }
    ensures sent { result ≡ size p.acted.first + size p.acted.second }
    ensures after { flight.new ≡ posted flight.old place me (as_planned p) }
{
    flight.forward(place, me, p.leaves, p.acted.first, p.acted.second)
}

// Carries an accepted plan out: one rank's record and row, the dead set and the list.
fn carry(mut s: State, place: u32, me: u8, p: Plan) -> State
    requires { Carriable s place me (as_planned p) }
    ensures { result ≡ applied s place me (as_planned p) }
{
    let mut flight = Flight::of(s.group.net, s.group.count);
    post(&mut flight, place, me, p);
    let row = p.acted.row;
    s.group.count = flight.count();
    s.group.dead = buried(s.group.dead, me, p.dies);
    s.group.ranks[me as usize] = p.acted.rank;
    s.group.net = flight.places();
    s.tables[me as usize] = row;
    s
}

// One event on a state in order. A refusal hands the state back as it came.
pub fn step(s: State, ev: Event) -> Result<Stepped, Refused>
    requires { InOrder (own_tree s) s }
    ensures { told result ≡ stepped (own_tree s) s ev }
{
    match plan_of(&s, ev) {
        Ok(p) => {
            let sent = sets::size(p.acted.first.to) as u32 + sets::size(p.acted.second.to) as u32;
            let me = subject_of(&s, ev);
            let state = carry(s, ev.a, me, p);
            Ok(Stepped {
                sent,
                moved: p.acted.moved,
                state,
            })
        }
        Err(none) => Err(Refused {
            refusal: none.refusal,
            state: s,
        }),
    }
}

// Entry point: one event on a state handed in, in the state's own form. Refuses with 1 to 11. It stays out of line, as state::start does.
#[inline(never)]
pub fn event(s: State, ev: Event) -> Result<Stepped, Refused>
    ensures { told result ≡ event (own_tree s) s ev }
{
    if tree::wrong_size(s.group.n as u32) {
        return Err(Refused {
            refusal: Refusal::BadSize,
            state: s,
        });
    }
    if !order::in_order(s) {
        return Err(Refused {
            refusal: Refusal::NotInOrder,
            state: s,
        });
    }
    step(s, ev)
}
