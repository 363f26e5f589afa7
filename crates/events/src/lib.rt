// An event: its kind, and what the kind names.
#![tactic(auto)]

ghost use Rattle.std.specs.Prelude.{◌≡◌};
ghost use Rattle.events.specs.Events.{names_place, names_rank};

// The kinds stay numbers: a caller may hand in any, and 3 refuses those that are none of these.
pub const ENTERS: u32 = 1;

pub const DELIVERS: u32 = 2;

pub const CRASHES: u32 = 3;

pub const NOTICES: u32 = 4;

pub const LOSES: u32 = 5;

pub const ACKNOWLEDGES: u32 = 6;

#[derive(Clone, Copy)]
pub struct Event {
    pub kind: u32,
    pub a: u32,
    pub b: u32,
}

pub fn names_rank(kind: u32) -> bool
    ensures { result ≡ names_rank kind }
{
    matches!(kind, ENTERS | CRASHES | NOTICES | ACKNOWLEDGES)
}

pub fn names_place(kind: u32) -> bool
    ensures { result ≡ names_place kind }
{
    matches!(kind, DELIVERS | LOSES)
}
