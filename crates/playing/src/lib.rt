// Events one after the other: the loop that the run of a file and a call on a lent run of events share.
#![tactic(auto)]

ghost use Rattle.std.specs.Prelude.{◌≡◌, ◌+◌, ◌*◌, ◌≤◌, length};
ghost use Rattle.state.specs.States.{own_tree};
ghost use Rattle.order.specs.Between.{InOrder};
ghost use Rattle.group.specs.Events.{event};
ghost use Rattle.playing.specs.Playing.{event_in, played, written};
ghost use Rattle.playing.specs.Between.{listed, told_of};

use answers::Refusal;
use events::Event;
use net::Flight;
use rank::Seat;
use state::State;
use tree::Moved;

// What is told of an accepted event: how many messages were sent, and which ranks moved.
#[derive(Clone, Copy)]
struct Told {
    sent: u32,
    moved: Moved,
}

// The event at a place of a run of numbers.
pub fn event_in(numbers: &[u32], k: usize) -> Event
    requires { 3 * k + 3 ≤ length numbers.now }
    ensures { result ≡ event_in numbers.now k }
{
    let place = 3 * k;
    Event {
        kind: numbers[place],
        a: numbers[place + 1],
        b: numbers[place + 2],
    }
}

// Puts three numbers at a place.
pub fn put_three(out: &mut [u32], k: usize, x: u32, y: u32, z: u32)
    requires { 3 * k + 3 ≤ length out.old }
    ensures { out.new ≡ written out.old k x y z }
{
    let place = 3 * k;
    out[place] = x;
    out[place + 1] = y;
    out[place + 2] = z;
}

// One event on a state in order, whose messages in flight are held beside it. Only what the event changes is stored: a refusal is found before the
// rank's record and row are taken out, and so is a death that is known.
fn advance(s: &mut State, flight: &mut Flight, ev: Event) -> Result<Told, Refusal>
    requires { InOrder (own_tree s.old) (listed s.old flight.old) }
    ensures { told_of result (listed s.new flight.new) ≡ event (own_tree s.old) (listed s.old flight.old) ev }
{
    let m = flight.at(ev.a);
    let me = plans::subject(s.group.n, ev, m);
    let count = flight.count();
    refusals::refusal(
        s.group.n,
        s.group.dead,
        count,
        ev,
        s.group.ranks[me as usize],
        m,
    )?;
    if plans::known(ev, s.group.ranks[me as usize].marks) {
        return Ok(Told {
            sent: 0,
            moved: Moved::nobody(),
        });
    }
    let r = s.group.ranks[me as usize];
    let row = s.tables[me as usize];
    let seat = Seat {
        n: s.group.n,
        form: s.group.form,
        span: s.group.span,
        me,
        rank: r,
        row,
    };
    let p = plans::draft(seat, s.group.dead, ev, m);
    if 128 < plans::afterwards(count, p.acted.first, p.acted.second, p.leaves) {
        return Err(Refusal::TooMany);
    }
    let sent = group::post(flight, ev.a, me, p);
    let told = Told {
        sent,
        moved: p.acted.moved,
    };
    s.group.dead = group::buried(s.group.dead, me, p.dies);
    s.group.ranks[me as usize] = p.acted.rank;
    if p.acted.rank.marks == r.marks {
        return Ok(told);
    }
    let row = p.acted.row;
    s.tables[me as usize] = row;
    Ok(told)
}

// Plays the events that are spelt out in the slice on a state in order, which is lent; what is told of an event takes its place.
pub fn play_on(total: usize, out: &mut [u32], s: &mut State)
    requires in_order { InOrder (own_tree s.old) s.old }
    requires total_in_bounds { 3 * total ≤ length out.old }
    ensures s_after { s.new ≡ (played (own_tree s.old) (event_in out.old) total 0 s.old out.old).state }
    ensures out_after { out.new ≡ (played (own_tree s.old) (event_in out.old) total 0 s.old out.old).answers }
{
    let mut flight = Flight::of(s.group.net, s.group.count);
    for k in 0..total {
        let ev = event_in(out, k);
        match advance(s, &mut flight, ev) {
            Ok(told) => put_three(out, k, 0, told.sent, told.moved.count),
            Err(refusal) => put_three(out, k, refusal.number(), 0, 0),
        }
    }
    s.group.count = flight.count();
    s.group.net = flight.places();
}

// The same for a caller that holds a state by value.
pub fn play(total: usize, out: &mut [u32], mut s: State) -> State
    requires in_order { InOrder (own_tree s) s }
    requires total_in_bounds { 3 * total ≤ length out.old }
    ensures value { result ≡ (played (own_tree s) (event_in out.old) total 0 s out.old).state }
    ensures out_after { out.new ≡ (played (own_tree s) (event_in out.old) total 0 s out.old).answers }
{
    play_on(total, out, &mut s);
    s
}
