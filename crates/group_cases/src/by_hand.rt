// Changes by hand: c the count, d the dead, i the form, x the box size, n a message (kind, from, to, a triple and its place), t a table's entry (whose, of whom, the
// parent), and of a rank (which, what) p phase, m marks, k acknowledged, h heard, a awaited, o owed, w triple, v result. A triple is a word,
// the known dead and an acknowledged set. Any other byte changes nothing.
use rank::{Message, Rank, Triple};
use state::State;

pub fn small(n: u32) -> u8 {
    (n % 256) as u8
}

fn triple(word: u32, known: u32, acknowledged: u32) -> Triple {
    Triple {
        word,
        known: known as u64,
        acknowledged: acknowledged as u64,
    }
}

// Of a rank; the last number is what it gets, or the last of a triple's three.
fn field(mut t: Rank, [.., x, y, z]: [u32; 7], b: u8) -> Rank {
    match b {
        b'p' => t.phase = small(z),
        b'm' => t.marks = z as u64,
        b'k' => t.acknowledged = z as u64,
        b'h' => t.heard = z as u64,
        b'a' => t.awaited = z as u64,
        b'o' => t.owed = z as u64,
        b'w' => t.triple = triple(x, y, z),
        b'v' => t.result = triple(x, y, z),
        _ => {}
    }
    t
}

pub fn after(mut s: State, last: [u32; 7], b: u8) -> State {
    let [t, u, v, w, x, y, z] = last;
    match b {
        b'c' => s.group.count = small(z),
        b'd' => s.group.dead = z as u64,
        b'i' => s.group.form = small(z),
        b'x' => s.group.span = small(z),
        b'n' => {
            s.group.net[(z % 128) as usize] = Message {
                kind: small(t),
                from: small(u),
                to: small(v),
                triple: triple(w, x, y),
            };
        }
        b't' => s.tables[(x % 64) as usize][(y % 64) as usize] = small(z),
        // A rank's number stands before what it gets.
        _ => {
            let rank = match b {
                b'w' | b'v' => w,
                _ => y,
            };
            let at = (rank % 64) as usize;
            s.group.ranks[at] = field(s.group.ranks[at], last, b);
        }
    }
    s
}
