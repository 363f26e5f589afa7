// The calls on a view that is handed in, mark and climb, in a form with a box size; and the check of size, form and box size that start shares.
// mark and climb are entry points for callers: they refuse bad input and require nothing.
#![tactic(auto)]

ghost use Rattle.std.specs.Prelude.{◌≡◌, ◌<◌};
ghost use Rattle.sets.specs.Sets.{found};
ghost use Rattle.answers.specs.Answers.{answer_of};
ghost use Rattle.tree.specs.Forms.{tree_of};
ghost use Rattle.calls.specs.Calls.{climbed, climbing, mark_told, marked, misshapen, named, told};
ghost use Rattle.calls.specs.declared.NotClimbed.TheVariants.{Refused};

use answers::Refusal;
use tree::{Mended, View};

// What a refused mark answers: why, and the view with its table as they were handed in.
#[derive(Clone, Copy)]
pub struct NotMarked {
    pub refusal: Refusal,
    pub marks: u64,
    pub table: [u8; 64],
}

// The rank that a climb has reached, with the links climbed.
#[derive(Clone, Copy, Debug, PartialEq, Eq)]
pub struct Climbed {
    pub rank: u8,
    pub links: u32,
}

// Why no root was reached: the call is refused, the rank is marked, or the allowance is used up at a rank below the root.
#[derive(Clone, Copy, Debug, PartialEq, Eq)]
pub enum NotClimbed {
    Refused(Refusal),
    FromMarked(u8),
    Short(Climbed),
}

impl From<Refusal> for NotClimbed {
    ghost from_gives = { λ refusal e. e ≡ Refused refusal };

    fn from(refusal: Refusal) -> NotClimbed {
        NotClimbed::Refused(refusal)
    }
}

#[tactic(auto, unfolding(crate::specs::Calls::misshapen))]
// Whether a group size, a form and a box size are right, and in this order: refuses with 1, 50 or 51.
pub fn misshapen(n: u32, form: u32, span: u32) -> Result<(), Refusal>
    ensures { answer_of result ≡ misshapen n form span }
{
    if tree::wrong_size(n) {
        return Err(Refusal::BadSize);
    }
    if tree::wrong_size(span) {
        return Err(Refusal::BadBox);
    }
    if (tree::NESTED as u32) < form {
        return Err(Refusal::BadForm);
    }
    Ok(())
}

// A refused mark hands back what it was given.
fn not_marked(refusal: Refusal, marks: u64, table: [u8; 64]) -> NotMarked
    ensures { result ≡ record { refusal = refusal; marks = marks; table = table } }
{
    NotMarked {
        refusal,
        marks,
        table,
    }
}

// Marks q in a view whose size, form and box size are right. Refuses with 2 or 4.
fn mark_view(
    n: u8,
    form: u8,
    span: u8,
    marks: u64,
    table: [u8; 64],
    q: u32,
) -> Result<Mended, NotMarked>
    requires { misshapen n form span ≡ 0 }
    ensures { mark_told result ≡ marked n form span marks table q }
{
    if sets::minus(marks, sets::below(n)) != 0 {
        return Err(not_marked(Refusal::NotInOrder, marks, table));
    }
    if !tree::same(table, tree::fresh(n, form, span, marks)) {
        return Err(not_marked(Refusal::NotInOrder, marks, table));
    }
    if (n as u32) <= q {
        return Err(not_marked(Refusal::BadRank, marks, table));
    }
    let view = View {
        n,
        form,
        span,
        marks,
        table,
    };
    Ok(view.mend(q as u8))
}

// Entry point: marks q in a view of n ranks, in a form with a box size. Refuses with 1, 50, 51, 2 or 4, and hands the view back.
pub fn mark(
    n: u32,
    form: u32,
    span: u32,
    marks: u64,
    table: [u8; 64],
    q: u32,
) -> Result<Mended, NotMarked>
    ensures { mark_told result ≡ marked n form span marks table q }
{
    if let Err(refusal) = misshapen(n, form, span) {
        return Err(not_marked(refusal, marks, table));
    }
    mark_view(n as u8, form as u8, span as u8, marks, table, q)
}

// Climbs from an unmarked rank, at most `allowance` links.
fn climb_from(form: u8, span: u8, marks: u64, p: u8, allowance: u32) -> Result<Climbed, NotClimbed>
    requires span_nonzero { 0 < span }
    requires p_bound { p < 64 }
    ensures told { told result ≡ climbing (tree_of form span) marks p allowance }
    ensures named { named result ≡ found (climbing (tree_of form span) marks p allowance).rank }
{
    let mut at = p;
    let mut links: u32 = 0;
    while let Some(up) = tree::parent_of(form, span, marks, at) {
        if links == allowance {
            return Err(NotClimbed::Short(Climbed { rank: at, links }));
        }
        at = up;
        links += 1;
    }
    Ok(Climbed { rank: at, links })
}

// Entry point: the root above a rank, in a form with a box size. Refuses with 1, 50, 51, 4, 6 or 12; marks at n and above are ignored.
pub fn climb(
    n: u32,
    form: u32,
    span: u32,
    marks: u64,
    p: u32,
    allowance: u32,
) -> Result<Climbed, NotClimbed>
    ensures told { told result ≡ climbed n form span marks p allowance }
    ensures named { named result ≡ found (climbed n form span marks p allowance).rank }
{
    misshapen(n, form, span)?;
    if n <= p {
        return Err(NotClimbed::Refused(Refusal::BadRank));
    }
    let view = sets::meet(marks, sets::below(n as u8));
    let from = p as u8;
    if sets::member(view, from) {
        return Err(NotClimbed::FromMarked(from));
    }
    climb_from(form as u8, span as u8, view, from, allowance)
}
