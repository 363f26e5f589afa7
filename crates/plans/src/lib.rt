// The plan of an event: what it will change, decided from one rank's record and row and the message at the place. A draft of it is made in line, as rules are.
#![tactic(auto)]

ghost use Rattle.std.specs.Prelude.{◌≡◌, ◌&&◌, cond, eqb, ◌+◌, ◌-◌, ◌<◌};
ghost use Rattle.sets.specs.Sets.{has};
ghost use Rattle.tree.specs.Forms.{tree_of};
ghost use Rattle.rank.specs.Sends.{size};
ghost use Rattle.refusals.specs.Refusing.{refusal};
ghost use Rattle.plans.specs.Plans.{accepting, acting, as_planned, delivered, idle, planned, subject, told};
ghost use Rattle.plans.specs.Between.{FreshSubject};

use answers::Refusal;
use events::{ACKNOWLEDGES, DELIVERS, ENTERS, Event, NOTICES};
use rank::{Acted, DOWN, Message, Rank, Seat, Send, UP};
use tree::Moved;

// What an event will change: whether its message leaves, whether its rank dies, and what that rank does.
#[derive(Clone, Copy)]
pub struct Plan {
    pub leaves: bool,
    pub dies: bool,
    pub acted: Acted,
}

// Why an event has no plan, and the record and the row of its rank as they came.
#[derive(Clone, Copy)]
pub struct NotPlanned {
    pub refusal: Refusal,
    pub rank: Rank,
    pub row: [u8; 64],
}

// A rank that does nothing.
fn idle(seat: Seat) -> Acted
    ensures { result ≡ idle seat.rank seat.row }
{
    let row = seat.row;
    Acted {
        rank: seat.rank,
        row,
        first: Send::silent(),
        second: Send::silent(),
        moved: Moved::nobody(),
    }
}

// The rank that an event is about.
#[tactic(auto, unfolding(crate::specs::Plans::subject))]
pub fn subject(n: u8, ev: Event, m: Message) -> u8
    ensures { result ≡ subject n ev m }
{
    if events::names_place(ev.kind) {
        return m.to;
    }
    if ev.a < (n as u32) {
        return ev.a as u8;
    }
    0
}

// Whether an event tells its rank of a death that it knows: then nothing changes.
pub fn known(ev: Event, marks: u64) -> bool
    requires { ev.kind ≡ 4 → ev.b < 64 }
    ensures { result ≡ eqb ev.kind 4 && has marks ev.b }
{
    if ev.kind != NOTICES {
        return false;
    }
    sets::member(marks, ev.b as u8)
}

// A message reaches its receiver.
#[tactic(auto, unfolding(crate::specs::Plans::delivered))]
#[inline(always)]
fn deliver(seat: Seat, dead: u64, m: Message) -> Acted
    requires { FreshSubject (tree_of seat.form seat.span) seat.n m seat.me seat.rank }
    ensures { result ≡ delivered (tree_of seat.form seat.span) seat.n dead seat.me m seat.rank seat.row }
{
    if sets::member(dead, seat.me) | sets::member(seat.rank.marks, m.from) {
        return idle(seat);
    }
    match m.kind {
        UP => seat.up(m.from, m.triple),
        DOWN => seat.down(m.triple),
        _ => seat.ask(m.from),
    }
}

// What the event has its rank do.
#[tactic(auto, unfolding(crate::specs::Plans::acting))]
#[inline(always)]
fn act(seat: Seat, dead: u64, ev: Event, m: Message) -> Acted
    requires fresh_subject { FreshSubject (tree_of seat.form seat.span) seat.n m seat.me seat.rank }
    requires b_lt_n { ev.kind ≡ 4 → ev.b < seat.n }
    ensures { result ≡ acting (tree_of seat.form seat.span) seat.n dead ev m seat.me seat.rank seat.row }
{
    match ev.kind {
        ENTERS => seat.enter(ev.b),
        DELIVERS => deliver(seat, dead, m),
        NOTICES => seat.notice(ev.b as u8),
        ACKNOWLEDGES => seat.acknowledge(),
        _ => idle(seat),
    }
}

// How many are in flight once a message has left and the sends have joined.
pub fn afterwards(count: u8, first: Send, second: Send, leaves: bool) -> u32
    ensures { result ≡ count + size first + size second - cond leaves 1 0 }
{
    let total = count as u32 + sets::size(first.to) as u32 + sets::size(second.to) as u32;
    if leaves {
        total.saturating_sub(1)
    } else {
        total
    }
}

// What an event does that is not refused, whether or not there is room for what it sends.
#[inline(always)]
pub fn draft(seat: Seat, dead: u64, ev: Event, m: Message) -> Plan
    requires fresh_subject { FreshSubject (tree_of seat.form seat.span) seat.n m seat.me seat.rank }
    requires b_lt_n { ev.kind ≡ 4 → ev.b < seat.n }
    ensures { as_planned result ≡ accepting ev (acting (tree_of seat.form seat.span) seat.n dead ev m seat.me seat.rank seat.row) }
{
    Plan {
        leaves: events::names_place(ev.kind),
        dies: ev.kind == events::CRASHES,
        acted: act(seat, dead, ev, m),
    }
}

// A refusal plans nothing: record and row are handed back.
fn not_planned(refusal: Refusal, seat: Seat) -> NotPlanned
    ensures { result ≡ record { refusal = refusal; rank = seat.rank; row = seat.row } }
{
    let row = seat.row;
    NotPlanned {
        refusal,
        rank: seat.rank,
        row,
    }
}

// Decides what an event does that none of 3 to 10 refuses: that, or 11.
pub fn plan_clean(
    seat: Seat,
    dead: u64,
    count: u8,
    ev: Event,
    m: Message,
) -> Result<Plan, NotPlanned>
    requires fresh_subject { FreshSubject (tree_of seat.form seat.span) seat.n m seat.me seat.rank }
    requires m_value { refusal seat.n dead count ev seat.rank m ≡ 0 }
    ensures { told result ≡ planned (tree_of seat.form seat.span) seat.n dead count ev m seat.me seat.rank seat.row }
{
    let p = draft(seat, dead, ev, m);
    if 128 < afterwards(count, p.acted.first, p.acted.second, p.leaves) {
        return Err(not_planned(Refusal::TooMany, seat));
    }
    Ok(p)
}

// Decides what an event does, from one rank's record and row and the message at the place.
pub fn plan_event(
    seat: Seat,
    dead: u64,
    count: u8,
    ev: Event,
    m: Message,
) -> Result<Plan, NotPlanned>
    requires { FreshSubject (tree_of seat.form seat.span) seat.n m seat.me seat.rank }
    ensures { told result ≡ planned (tree_of seat.form seat.span) seat.n dead count ev m seat.me seat.rank seat.row }
{
    if let Err(refusal) = refusals::refusal(seat.n, dead, count, ev, seat.rank, m) {
        return Err(not_planned(refusal, seat));
    }
    plan_clean(seat, dead, count, ev, m)
}
