// Whether a state handed in is in order.
#![tactic(auto)]

ghost use Rattle.std.specs.Prelude.{◌≡◌, ◌&&◌, true, [], ◌<◌, ◌≤◌, get_or, length};
ghost use Rattle.sets.specs.Sets.{every};
ghost use Rattle.tree.specs.Forms.{tree_of};
ghost use Rattle.calls.specs.Calls.{misshapen};
ghost use Rattle.net.specs.Net.{zero_message};
ghost use Rattle.state.specs.States.{own_tree, zero_rank};
ghost use Rattle.order.specs.Order.{in_order, is_within, is_zero, member_in_order, message_in_order, place_in_order, proper, rank_in_order, seat_in_order, stranger_in_order, triple_within, zero_place, zero_record};
ghost use Rattle.order.specs.Between.{Shaped};

use rank::{ASK, DECIDED, GATHERING, Message, Rank, Triple, UP, WAITING};
use state::State;
use tree::View;

// What ranks and places are tested against: their group's size and tree, which are right, its dead, and how many messages are in flight.
#[derive(Clone, Copy)]
struct Shape {
    n: u8,
    form: u8,
    span: u8,
    dead: u64,
    count: u8,
    ghost small: { n ≤ 64 },
    ghost boxed: { 0 < span },
}

// Whether a set lies within another.
fn is_within(w: u64, bound: u64) -> bool
    ensures { result ≡ is_within w bound }
{
    sets::minus(w, bound) == 0
}

// Whether a triple is all 0.
fn is_zero(t: Triple) -> bool
    ensures { result ≡ is_zero t }
{
    t == Triple::zero()
}

// A record past the group.
fn zero_record(r: Rank) -> bool
    ensures { result ≡ zero_record r }
{
    r == state::no_rank()
}

fn stranger_in_order(r: Rank, row: [u8; 64]) -> bool
    ensures { result ≡ stranger_in_order r row }
{
    zero_record(r) & (row == [sets::NONE; 64])
}

// A place after the last.
fn zero_place(m: Message) -> bool
    ensures { result ≡ zero_place m }
{
    m == net::nothing()
}

impl Shape {
    // Whether a set lies within n and leaves out its own rank.
    fn proper(self, me: u8, w: u64) -> bool
        requires { me < self.n }
        ensures { result ≡ proper self.n me w }
    {
        is_within(w, sets::below(self.n)) & !sets::member(w, me)
    }

    // Whether the four sets of a rank are proper.
    fn sets_proper(self, me: u8, r: Rank) -> bool
        requires { me < self.n }
        ensures { result ≡ proper self.n me r.marks && proper self.n me r.heard && proper self.n me r.awaited && proper self.n me r.owed }
    {
        self.proper(me, r.marks)
            & self.proper(me, r.heard)
            & self.proper(me, r.awaited)
            & self.proper(me, r.owed)
    }

    // Whether a triple's sets lie within n.
    fn triple_within(self, t: Triple) -> bool
        ensures { result ≡ triple_within self.n t }
    {
        let all = sets::below(self.n);
        is_within(t.known, all) & is_within(t.acknowledged, all)
    }

    // Whether the sets of a rank's two triples lie within n.
    fn triples_within(self, r: Rank) -> bool
        ensures { result ≡ triple_within self.n r.triple && triple_within self.n r.result }
    {
        self.triple_within(r.triple) & self.triple_within(r.result)
    }

    // One rank: its record and its row.
    fn rank_in_order(self, me: u8, r: Rank, row: [u8; 64]) -> bool
        requires { me < self.n }
        ensures { result ≡ rank_in_order (tree_of self.form self.span) self.n me r row }
    {
        if row != tree::fresh(self.n, self.form, self.span, r.marks) {
            return false;
        }
        let parent = row[me as usize];
        let view = View {
            n: self.n,
            form: self.form,
            span: self.span,
            marks: r.marks,
            table: row,
        };
        let awaited = sets::minus(view.children_of(me), r.heard);
        let gathers = (r.phase != GATHERING) | (r.awaited != 0);
        let waits = (r.phase != WAITING) | (parent != sets::NONE);
        let unless = (r.phase == DECIDED) | is_zero(r.result);
        let inside = self.sets_proper(me, r)
            & is_within(r.acknowledged, r.marks)
            & self.triples_within(r);
        inside & (r.awaited == awaited) & gathers & waits & unless & (r.phase <= DECIDED)
    }

    // A rank of the group.
    fn member_in_order(self, i: u8, r: Rank, row: [u8; 64]) -> bool
        requires { i < self.n }
        ensures { result ≡ member_in_order (tree_of self.form self.span) self.n self.dead i r row }
    {
        self.rank_in_order(i, r, row) & is_within(r.marks, self.dead)
    }

    // The record and row of a place among the ranks.
    fn seat_in_order(self, i: u8, r: Rank, row: [u8; 64]) -> bool
        ensures { result ≡ seat_in_order (tree_of self.form self.span) self.n self.dead i r row }
    {
        if i < self.n {
            return self.member_in_order(i, r, row);
        }
        stranger_in_order(r, row)
    }

    // All 64 records and rows.
    fn seats_in_order(self, ranks: &[Rank; 64], tables: &[[u8; 64]; 64]) -> bool
        ensures every_seat { result ≡ every (λ i. seat_in_order (tree_of self.form self.span) self.n self.dead i (get_or ranks.now i zero_rank) (get_or tables.now i [])) 64 }
        ensures ranks_len { length ranks.now ≡ 64 }
        ensures tables_len { length tables.now ≡ 64 }
    {
        for i in 0..64u8 {
            if !self.seat_in_order(i, ranks[i as usize], tables[i as usize]) {
                return false;
            }
        }
        true
    }

    // A message in flight.
    fn message_in_order(self, m: Message) -> bool
        ensures { result ≡ message_in_order self.n self.dead m }
    {
        if self.n <= m.from {
            return false;
        }
        let low = is_within(sets::below(m.from), self.dead);
        (m.to < self.n)
            & (m.from != m.to)
            & (UP <= m.kind)
            & (m.kind <= ASK)
            & self.triple_within(m.triple)
            & ((m.kind != ASK) | is_zero(m.triple))
            & ((m.kind != ASK) | low)
    }

    // One of the 128 places.
    fn place_in_order(self, i: u8, m: Message) -> bool
        ensures { result ≡ place_in_order self.n self.dead self.count i m }
    {
        if i < self.count {
            return self.message_in_order(m);
        }
        zero_place(m)
    }

    // All 128 places.
    fn places_in_order(self, net: &[Message; 128]) -> bool
        ensures every_place { result ≡ every (λ i. place_in_order self.n self.dead self.count i (get_or net.now i zero_message)) 128 }
        ensures net_len { length net.now ≡ 128 }
    {
        for i in 0..128u8 {
            if !self.place_in_order(i, net[i as usize]) {
                return false;
            }
        }
        true
    }
}

// Whether a state whose size, form and box size are right is in order.
fn all_in_order(s: &State) -> bool
    requires { misshapen s.now.group.n s.now.group.form s.now.group.span ≡ 0 }
    ensures value { result ≡ in_order (own_tree s.now) s.now }
    ensures shaped { Shaped s.now }
{
    let g = &s.group;
    let all = sets::below(g.n);
    let shape = Shape {
        n: g.n,
        form: g.form,
        span: g.span,
        dead: g.dead,
        count: g.count,
    };
    let seats = shape.seats_in_order(&g.ranks, &s.tables);
    let places = shape.places_in_order(&g.net);
    (sets::minus(all, g.dead) != 0) & is_within(g.dead, all) & (g.count <= 128) & seats & places
}

// Whether a state is in order.
pub fn in_order(s: State) -> bool
    ensures value { result ≡ in_order (own_tree s) s }
    ensures shaped { result ≡ true → Shaped s }
{
    if calls::misshapen(s.group.n as u32, s.group.form as u32, s.group.span as u32).is_err() {
        return false;
    }
    all_in_order(&s)
}
