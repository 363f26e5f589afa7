// Refusals 3 to 10 of an event: only what can apply to its kind is tested, and the lowest that applies is given.
#![tactic(auto)]

ghost use Rattle.std.specs.Prelude.{◌≡◌, cond, false, not, true, ◌&&◌, ◌<◌, ◌≤◌, eqb};
ghost use Rattle.sets.specs.Sets.{below, has, minus, only};
ghost use Rattle.answers.specs.Answers.{answer_of};
ghost use Rattle.answers.specs.Refusals.{accepted, entered, living_ends, living_rank, only_living};
ghost use Rattle.rank.specs.Words.{outside};
ghost use Rattle.events.specs.Events.{names_place, names_rank};
ghost use Rattle.refusals.specs.Refusing.{refusal, wrong_kind, wrong_rank};

use answers::Refusal;
use events::{ACKNOWLEDGES, CRASHES, DELIVERS, ENTERS, Event, LOSES, NOTICES};
use rank::{Message, OUTSIDE, Rank};

// Whether a number names a member of the set.
fn is_in(w: u64, a: u32) -> bool
    ensures { result ≡ has w a }
{
    if a < 64 {
        return sets::member(w, a as u8);
    }
    false
}

#[tactic(auto, unfolding(crate::specs::Refusing::wrong_kind))]
fn wrong_kind(ev: Event) -> bool
    ensures { result ≡ wrong_kind ev }
{
    match ev.kind {
        ENTERS | NOTICES => false,
        DELIVERS | CRASHES | LOSES | ACKNOWLEDGES => ev.b != 0,
        _ => true,
    }
}

#[tactic(auto, unfolding(crate::specs::Refusing::wrong_rank))]
fn wrong_rank(n: u8, ev: Event) -> bool
    requires { names_rank ev.kind ≡ true }
    ensures { result ≡ wrong_rank n ev }
{
    ((n as u32) <= ev.a) | ((ev.kind == NOTICES) & ((n as u32) <= ev.b))
}

// 10 where a message that is to be lost has both ends living.
fn of_loss(dead: u64, m: Message) -> Result<(), Refusal>
    ensures { answer_of result ≡ cond (not (has dead m.from) && not (has dead m.to)) living_ends accepted }
{
    if !is_in(dead, m.from as u32) & !is_in(dead, m.to as u32) {
        return Err(Refusal::LivingEnds);
    }
    Ok(())
}

// 7 where a rank that is to enter or to acknowledge is not outside.
fn of_outside(r: Rank) -> Result<(), Refusal>
    ensures { answer_of result ≡ cond (not (eqb r.phase outside)) entered accepted }
{
    if r.phase != OUTSIDE {
        return Err(Refusal::Entered);
    }
    Ok(())
}

// 8 where the rank that a notice tells of is living.
fn of_notice(dead: u64, q: u8) -> Result<(), Refusal>
    requires { q < 64 }
    ensures { answer_of result ≡ cond (not (has dead q)) living_rank accepted }
{
    if !sets::member(dead, q) {
        return Err(Refusal::LivingRank);
    }
    Ok(())
}

// 9 where the rank that is to crash is the only living one.
fn of_crash(n: u8, dead: u64, p: u8) -> Result<(), Refusal>
    requires n_bound { n ≤ 64 }
    requires p_bound { p < 64 }
    ensures { answer_of result ≡ cond (eqb (minus (below n) dead) (only p)) only_living accepted }
{
    if sets::minus(sets::below(n), dead) == sets::only(p) {
        return Err(Refusal::OnlyLiving);
    }
    Ok(())
}

// The lowest refusal from 5 on of an event that names a place.
fn of_place(dead: u64, count: u8, ev: Event, m: Message) -> Result<(), Refusal>
    requires { (wrong_kind ev ≡ false) × (names_place ev.kind ≡ true) }
    ensures { (n r : _) → answer_of result ≡ refusal n dead count ev r m }
{
    if (count as u32) <= ev.a {
        return Err(Refusal::BadPlace);
    }
    if ev.kind == LOSES {
        return of_loss(dead, m);
    }
    Ok(())
}

// The lowest refusal from 4 on of an event that names a rank.
fn of_rank(n: u8, dead: u64, ev: Event, r: Rank) -> Result<(), Refusal>
    requires n_bound { n ≤ 64 }
    requires ev_value { (wrong_kind ev ≡ false) × (names_rank ev.kind ≡ true) }
    ensures { (count m : _) → answer_of result ≡ refusal n dead count ev r m }
{
    if wrong_rank(n, ev) {
        return Err(Refusal::BadRank);
    }
    if sets::member(dead, ev.a as u8) {
        return Err(Refusal::DeadRank);
    }
    match ev.kind {
        ENTERS | ACKNOWLEDGES => of_outside(r),
        NOTICES => of_notice(dead, ev.b as u8),
        _ => of_crash(n, dead, ev.a as u8),
    }
}

// The lowest refusal from 3 to 10 that applies.
pub fn refusal(n: u8, dead: u64, count: u8, ev: Event, r: Rank, m: Message) -> Result<(), Refusal>
    requires { n ≤ 64 }
    ensures { answer_of result ≡ refusal n dead count ev r m }
{
    if wrong_kind(ev) {
        return Err(Refusal::BadKind);
    }
    if events::names_place(ev.kind) {
        return of_place(dead, count, ev, m);
    }
    of_rank(n, dead, ev, r)
}
