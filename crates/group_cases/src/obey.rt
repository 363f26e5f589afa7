// The commands that act: s starts a group of the last number in the flat form with box size 1, f one of the last three, a size, a form and a
// box size; e is an event of the last three, any other changes the state by hand.
use super::by_hand;
use events::Event;
use state::{Refused, State};
use tree::Moved;

// What the last start or event answered, as a number, with what it sent and who moved, and the state.
#[derive(Clone, Copy)]
pub struct Told {
    pub answer: u32,
    pub sent: u32,
    pub moved: Moved,
    pub state: State,
}

fn refused(r: Refused) -> Told {
    Told {
        answer: r.refusal.number(),
        sent: 0,
        moved: Moved::nobody(),
        state: r.state,
    }
}

pub fn start(n: u32, form: u32, span: u32) -> Told {
    match state::start(n, form, span) {
        Ok(state) => Told {
            answer: 0,
            sent: 0,
            moved: Moved::nobody(),
            state,
        },
        Err(r) => refused(r),
    }
}

fn event(s: State, ev: Event) -> Told {
    match group::event(s, ev) {
        Ok(r) => Told {
            answer: 0,
            sent: r.sent,
            moved: r.moved,
            state: r.state,
        },
        Err(r) => refused(r),
    }
}

fn with_state(mut t: Told, state: State) -> Told {
    t.state = state;
    t
}

pub fn obey(t: Told, last: [u32; 7], b: u8) -> Told {
    let [.., x, y, z] = last;
    match b {
        b's' => start(z, 0, 1),
        b'f' => start(x, y, z),
        b'e' => event(
            t.state,
            Event {
                kind: x,
                a: y,
                b: z,
            },
        ),
        _ => with_state(t, by_hand::after(t.state, last, b)),
    }
}
