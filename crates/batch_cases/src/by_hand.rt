// Changes by hand. 1 to 6 put any state of a right size out of order: 1 the count, 2 the dead, 3 the first rank's marks, 4 the last rank's
// result, 5 the last message, 6 the last entry of the last table. 7 makes the size a wrong one, 8 the form, 9 the box size. Any
// other number changes nothing.
use rank::{Message, Triple};
use state::State;

pub fn after(mut s: State, hand: u32) -> State {
    match hand {
        1 => s.group.count = 200,
        2 => s.group.dead = u64::MAX,
        3 => s.group.ranks[0].marks = u64::MAX,
        4 => s.group.ranks[63].result.word = 1,
        5 => {
            s.group.net[127] = Message {
                kind: 4,
                from: 0,
                to: 1,
                triple: Triple::zero(),
            };
        }
        6 => s.tables[63][63] = 64,
        7 => s.group.n = 65,
        8 => s.group.form = 3,
        9 => s.group.span = 65,
        _ => {}
    }
    s
}
