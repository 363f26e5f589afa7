// A state: the group record with the tables beside it. The entry point for callers is start; it refuses bad input and requires nothing.
#![tactic(auto)]

ghost use Rattle.std.specs.Prelude.{◌≡◌, ◌≤◌, replicate};
ghost use Rattle.sets.specs.Sets.{none};
ghost use Rattle.tree.specs.Tree.{fresh, row};
ghost use Rattle.tree.specs.Forms.{tree_of};
ghost use Rattle.calls.specs.Calls.{misshapen};
ghost use Rattle.state.specs.States.{joined, zero_rank};
ghost use Rattle.state.specs.Starting.{empty_state, first_rank, first_row, fresh_state, started, told};

use answers::Refusal;
use rank::{Message, Rank, Triple};

// The group record: its size, the form and the box size of its tree, how many messages are in flight, the dead, the ranks and the messages. The
// small fields come first, so that no gap lies beside an array.
#[derive(Clone, Copy)]
pub struct Group {
    pub n: u8,
    pub form: u8,
    pub span: u8,
    pub count: u8,
    pub dead: u64,
    pub ranks: [Rank; 64],
    pub net: [Message; 128],
}

// The group record with the tables beside it, one row for each rank's view.
#[derive(Clone, Copy)]
pub struct State {
    pub group: Group,
    pub tables: [[u8; 64]; 64],
}

// What a call that takes a state by value answers when it refuses: why, and the state that it hands back.
#[derive(Clone, Copy)]
pub struct Refused {
    pub refusal: Refusal,
    pub state: State,
}

// The two parts of a state: put together, and the tables taken out.
pub fn join(group: Group, tables: [[u8; 64]; 64]) -> State
    ensures { result ≡ joined group tables }
{
    State { group, tables }
}

pub fn tables_of(s: State) -> [[u8; 64]; 64]
    ensures { result ≡ s.tables }
{
    s.tables
}

// A record past the group.
pub fn no_rank() -> Rank
    ensures { result ≡ zero_rank }
{
    Rank {
        phase: 0,
        marks: 0,
        acknowledged: 0,
        heard: 0,
        awaited: 0,
        owed: 0,
        triple: Triple::zero(),
        result: Triple::zero(),
    }
}

// The records of n fresh ranks, and their rows, into arrays that hold nobody yet.
fn first_seats(
    n: u8,
    form: u8,
    span: u8,
    table: [u8; 64],
    ranks: &mut [Rank; 64],
    tables: &mut [[u8; 64]; 64],
)
    requires n_bound { n ≤ 64 }
    requires table_value { table ≡ fresh (tree_of form span) n 0 }
    requires no_ranks { ranks.old ≡ replicate 64 zero_rank }
    requires no_rows { tables.old ≡ replicate 64 (replicate 64 none) }
    ensures ranks_after { ranks.new ≡ row (first_rank (tree_of form span) n) 64 }
    ensures tables_after { tables.new ≡ row (first_row (tree_of form span) n) 64 }
{
    for i in 0..n {
        ranks[i as usize] = Rank::fresh(n, form, span, i, table);
        tables[i as usize] = table;
    }
}

// The state of a refused start, and of a refused run.
pub fn empty_state() -> State
    ensures { result ≡ empty_state }
{
    State {
        group: Group {
            n: 0,
            form: 0,
            span: 0,
            count: 0,
            dead: 0,
            ranks: [no_rank(); 64],
            net: [net::nothing(); 128],
        },
        tables: [[0u8; 64]; 64],
    }
}

// Seats a group of n fresh ranks, whose size, form and box size are right, in an empty state where it stands.
pub fn seat(s: &mut State, n: u8, form: u8, span: u8)
    requires shape { misshapen n form span ≡ 0 }
    requires empty { s.old ≡ empty_state }
    ensures { s.new ≡ fresh_state (tree_of form span) n form span }
{
    let table = tree::fresh(n, form, span, 0);
    s.group.n = n;
    s.group.form = form;
    s.group.span = span;
    s.tables = [[sets::NONE; 64]; 64];
    first_seats(n, form, span, table, &mut s.group.ranks, &mut s.tables);
}

// Entry point: a group of n fresh ranks in a form with a box size, all living, with nothing in flight. Refuses with 1, 50 or 51. It stays
// out of line: a compiler that splits a state into its fields in the caller takes minutes.
#[inline(never)]
pub fn start(n: u32, form: u32, span: u32) -> Result<State, Refused>
    ensures { told result ≡ started (tree_of form span) n form span }
{
    let mut s = empty_state();
    match calls::misshapen(n, form, span) {
        Ok(()) => {
            seat(&mut s, n as u8, form as u8, span as u8);
            Ok(s)
        }
        Err(refusal) => Err(Refused { refusal, state: s }),
    }
}
