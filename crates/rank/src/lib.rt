// One rank: what it holds, and what it does when it enters, takes a message, hears of a death, or settles.
// A rank at its seat goes in by value and the new record comes back, with its row of the tables, what it sends, and moved. The rules are in line:
// a call would store the seat and what comes back, and read both again.
// The proofs below may cite the laws and open the definitions that stand here.
#![tactic(auto, using(crate::proofs::Laws::Acting::along_the_code), unfolding(crate::specs::Rules::saying, crate::specs::Rules::in_phase, crate::specs::Rules::deciding, crate::specs::Rules::settled, crate::specs::Rules::done, crate::specs::Rules::settling, crate::specs::Rules::entering, crate::specs::Rules::lowered, crate::specs::Rules::taking_down, crate::specs::Rules::asked, crate::specs::Rules::renewing, crate::specs::Rules::regathering, crate::specs::Rules::orphaned, crate::specs::Rules::noticing, crate::specs::Rules::acknowledging, crate::specs::Records::becoming, crate::specs::Records::combining, crate::specs::Records::concluding, crate::specs::Records::owing, crate::specs::Records::admitting, crate::specs::Records::proposal, crate::specs::Records::children_of, crate::specs::Records::fresh_rank, crate::specs::Records::hearing, crate::specs::Sends::silent, crate::specs::Sends::reports, crate::specs::Sends::tells, crate::specs::Sends::asks, crate::specs::Triples::fresh_triple, crate::specs::Triples::combine, crate::specs::Triples::closing, crate::specs::Triples::code))]

ghost use Rattle.std.specs.Prelude.{◌≡◌, ℕ, ◌<◌, ◌≤◌, ◌&&◌, cond, false, eqb, get_or};
ghost use Rattle.sets.specs.Sets.{has, meet, none, set_of};
ghost use Rattle.tree.specs.Tree.{children, fresh, nobody, parent};
ghost use Rattle.tree.specs.Forms.{tree_of};
ghost use Rattle.tree.specs.Calls.{mended, mended_below};
ghost use Rattle.rank.specs.Words.{gathering, waiting};
ghost use Rattle.rank.specs.Triples.{closing, code, combine, fresh_triple, zero_triple};
ghost use Rattle.rank.specs.Records.{children_of, fresh_rank, parent_of, proposal, viewing};
ghost use Rattle.rank.specs.Sends.{asks, reports, silent, tells};
ghost use Rattle.rank.specs.Rules.{acknowledging, asked, deciding, done, entering, in_phase, noticing, orphaned, saying, settled, settling, taking_ask, taking_down, taking_up};
ghost use Rattle.rank.specs.Between.{Awaits, FreshRow};

use tree::{Mended, Moved, View};

// Phases: a number and no enum, since a caller of group::event may hand in any.
pub const OUTSIDE: u8 = 0;

pub const GATHERING: u8 = 1;

pub const WAITING: u8 = 2;

pub const DECIDED: u8 = 3;

// Kinds of messages, numbers for the same reason.
pub const UP: u8 = 1;

pub const DOWN: u8 = 2;

pub const ASK: u8 = 3;

// What ranks vote on: a word, a set of known dead, and an acknowledged set.
#[derive(Clone, Copy, PartialEq, Eq)]
pub struct Triple {
    pub word: u32,
    pub known: u64,
    pub acknowledged: u64,
}

// What a rank holds.
#[derive(Clone, Copy, PartialEq, Eq)]
pub struct Rank {
    pub phase: u8,
    pub marks: u64,
    pub acknowledged: u64,
    pub heard: u64,
    pub awaited: u64,
    pub owed: u64,
    pub triple: Triple,
    pub result: Triple,
}

// A rank at its seat: its group's size and tree, its own number, its record, and its row, the fresh table of its view. That its awaited set is
// the fresh one is a clause and no field: acknowledge asks nothing of it. A row is looked up in a copy, so that a compiler can hold the other
// fields in registers.
#[derive(Clone, Copy)]
pub struct Seat {
    pub n: u8,
    pub form: u8,
    pub span: u8,
    pub me: u8,
    pub rank: Rank,
    pub row: [u8; 64],
    pub ghost fresh_row: { FreshRow (tree_of form span) n me rank row },
}

// One message in flight.
#[derive(Clone, Copy, PartialEq, Eq)]
pub struct Message {
    pub kind: u8,
    pub from: u8,
    pub to: u8,
    pub triple: Triple,
}

// One message for each rank of a set, in ascending order.
#[derive(Clone, Copy)]
pub struct Send {
    pub kind: u8,
    pub triple: Triple,
    pub to: u64,
}

// A rank after a part of a rule, and what that part sends.
#[derive(Clone, Copy)]
pub struct Said {
    pub rank: Rank,
    pub send: Send,
}

// A rank after a rule: its row, the rule's own send, then settle's, and moved.
#[derive(Clone, Copy)]
pub struct Acted {
    pub rank: Rank,
    pub row: [u8; 64],
    pub first: Send,
    pub second: Send,
    pub moved: Moved,
}

impl Triple {
    // All bits, no ranks, all ranks of a group of n.
    fn fresh(n: u8) -> Triple
        requires { n ≤ 64 }
        ensures { result ≡ fresh_triple n }
    {
        Triple {
            word: 0xffff_ffff,
            known: 0,
            acknowledged: sets::below(n),
        }
    }

    // All 0: what an ASK carries, and the result of a rank that has not decided.
    pub fn zero() -> Triple
        ensures { result ≡ zero_triple }
    {
        Triple {
            word: 0,
            known: 0,
            acknowledged: 0,
        }
    }

    // Two triples become one.
    fn combine(self, other: Triple) -> Triple
        ensures { result ≡ combine self other }
    {
        Triple {
            word: self.word & other.word,
            known: sets::union(self.known, other.known),
            acknowledged: sets::meet(self.acknowledged, other.acknowledged),
        }
    }

    // The triple with a root's marks among its known dead.
    fn close(mut self, marks: u64) -> Triple
        ensures { result ≡ closing marks self }
    {
        self.known = sets::union(self.known, marks);
        self
    }

    // The code of a verdict: whether a known death is missing from the acknowledged set.
    pub fn code(self) -> u32
        ensures { result ≡ code self }
    {
        if sets::minus(self.known, self.acknowledged) == 0 {
            return 0;
        }
        1
    }
}

impl Send {
    // Nothing is sent.
    pub fn silent() -> Send
        ensures { result ≡ silent }
    {
        Send {
            kind: 0,
            triple: Triple::zero(),
            to: 0,
        }
    }

    // DOWN x to each rank of the set.
    pub fn down(x: Triple, to: u64) -> Send
        ensures { result ≡ tells x to }
    {
        Send {
            kind: DOWN,
            triple: x,
            to,
        }
    }

    // ASK each rank of the set.
    pub fn ask(to: u64) -> Send
        ensures { result ≡ asks to }
    {
        Send {
            kind: ASK,
            triple: Triple::zero(),
            to,
        }
    }
}

impl Rank {
    // A rank that has done nothing yet, for the seat of these numbers and this row.
    pub fn fresh(n: u8, form: u8, span: u8, me: u8, row: [u8; 64]) -> Rank
        requires { FreshRow (tree_of form span) n me (fresh_rank (tree_of form span) n me) row }
        ensures { result ≡ fresh_rank (tree_of form span) n me }
    {
        let view = View {
            n,
            form,
            span,
            marks: 0,
            table: row,
        };
        Rank {
            phase: OUTSIDE,
            marks: 0,
            acknowledged: 0,
            heard: 0,
            awaited: view.children_of(me),
            owed: 0,
            triple: Triple::fresh(n),
            result: Triple::zero(),
        }
    }

    // It says this.
    fn saying(self, send: Send) -> Said
        ensures { result ≡ saying self send }
    {
        Said { rank: self, send }
    }

    // UP triple to q.
    fn report(self, q: u8) -> Send
        requires { q < 64 }
        ensures { result ≡ reports self q }
    {
        Send {
            kind: UP,
            triple: self.triple,
            to: sets::only(q),
        }
    }

    // What it proposes with word w.
    fn propose(self, w: u32) -> Triple
        ensures { result ≡ proposal w self }
    {
        Triple {
            word: w,
            known: self.marks,
            acknowledged: self.acknowledged,
        }
    }
}

impl Seat {
    // Its view, with its row for a table.
    fn own_view(&self) -> View
        ensures n_value { result.n ≡ self.now.n }
        ensures form_value { result.form ≡ self.now.form }
        ensures span_value { result.span ≡ self.now.span }
        ensures marks_value { result.marks ≡ self.now.rank.marks }
    {
        let table = self.row;
        View {
            n: self.n,
            form: self.form,
            span: self.span,
            marks: self.rank.marks,
            table,
        }
    }

    fn children(&self) -> u64
        ensures { result ≡ children_of (tree_of self.now.form self.now.span) self.now.n self.now.me self.now.rank }
    {
        self.own_view().children_of(self.me)
    }

    // Its view once q is marked, and once all below q are.
    fn mended(&self, q: u8) -> Mended
        requires { q < self.now.n }
        ensures { result ≡ mended (tree_of self.now.form self.now.span) self.now.n self.now.rank.marks q }
    {
        self.own_view().mend(q)
    }

    fn mended_below(&self, q: u8) -> Mended
        requires { q ≤ self.now.n }
        ensures { result ≡ mended_below (tree_of self.now.form self.now.span) self.now.n self.now.rank.marks q }
    {
        self.own_view().mend_below(q)
    }

    // Result x, phase decided, DOWN x to every unmarked rank in children or owed.
    fn decide(&self, x: Triple) -> Said
        requires { Awaits (tree_of self.now.form self.now.span) self.now.n self.now.me self.now.rank }
        ensures { result ≡ deciding (tree_of self.now.form self.now.span) self.now.n self.now.me x self.now.rank }
    {
        let mut r = self.rank;
        let row = self.row;
        // a child is awaited or was heard; of the heard ones, who is owed is told anyway, and only the others are looked up
        let heard = tree::pointing(row, sets::minus(r.heard, r.owed), self.me);
        let children = sets::union(r.awaited, heard);
        let to = sets::minus(sets::union(children, r.owed), r.marks);
        r.phase = DECIDED;
        r.result = x;
        r.saying(Send::down(x, to))
    }

    // Decides or reports, where it gathers and nobody is awaited any more.
    #[inline(always)]
    fn settled(&self) -> Said
        requires { Awaits (tree_of self.now.form self.now.span) self.now.n self.now.me self.now.rank }
        ensures { result ≡ settled (tree_of self.now.form self.now.span) self.now.n self.now.me self.now.rank }
    {
        let mut r = self.rank;
        if (r.phase != GATHERING) | (r.awaited != 0) {
            return r.saying(Send::silent());
        }
        let row = self.row;
        let parent = row[self.me as usize];
        if parent == sets::NONE {
            return self.decide(r.triple.close(r.marks));
        }
        let send = r.report(parent);
        r.phase = WAITING;
        r.saying(send)
    }

    // Settles; `first` is what the rule has sent before. In line, and on the seat where it stands: a copy of it costs a rule more than the rule.
    #[inline(always)]
    fn acted(&self, first: Send, moved: Moved) -> Acted
        requires { Awaits (tree_of self.now.form self.now.span) self.now.n self.now.me self.now.rank }
        ensures { result ≡ settling (tree_of self.now.form self.now.span) self.now.n self.now.me (saying self.now.rank first) moved }
    {
        let row = self.row;
        let end = self.settled();
        Acted {
            rank: end.rank,
            row,
            first,
            second: end.send,
            moved,
        }
    }

    // The same for a caller that holds a seat by value.
    pub fn settle(self, first: Send, moved: Moved) -> Acted
        requires { Awaits (tree_of self.form self.span) self.n self.me self.rank }
        ensures { result ≡ settling (tree_of self.form self.span) self.n self.me (saying self.rank first) moved }
    {
        self.acted(first, moved)
    }

    // A rule that moves nobody and does not settle ends here.
    fn done(&self, first: Send) -> Acted
        ensures { result ≡ done (tree_of self.now.form self.now.span) self.now.n self.now.me (saying self.now.rank first) nobody }
    {
        let row = self.row;
        Acted {
            rank: self.rank,
            row,
            first,
            second: Send::silent(),
            moved: Moved::nobody(),
        }
    }

    // The rank enters with word w.
    #[inline(always)]
    pub fn enter(mut self, w: u32) -> Acted
        requires { Awaits (tree_of self.form self.span) self.n self.me self.rank }
        ensures { result ≡ entering (tree_of self.form self.span) self.n self.me w self.rank }
    {
        self.rank.triple = self.rank.triple.combine(self.rank.propose(w));
        self.rank.phase = GATHERING;
        self.acted(Send::silent(), Moved::nobody())
    }

    // UP x from q.
    #[tactic(auto, using(crate::proofs::Laws::Acting::fewer_awaited), unfolding(crate::specs::Rules::taking_up, crate::specs::Rules::raised, crate::specs::Rules::noting, crate::specs::Rules::in_phase, crate::specs::Records::owing, crate::specs::Records::combining, crate::specs::Records::hearing))]
    #[inline(always)]
    pub fn up(mut self, q: u8, x: Triple) -> Acted
        requires awaits { Awaits (tree_of self.form self.span) self.n self.me self.rank }
        requires q_lt_n { q < self.n }
        ensures { result ≡ taking_up (tree_of self.form self.span) self.n self.me q x self.rank }
    {
        if self.rank.phase == DECIDED {
            return self.acted(Send::down(self.rank.result, sets::only(q)), Moved::nobody());
        }
        self.rank.heard = sets::with(self.rank.heard, q);
        self.rank.owed = sets::with(self.rank.owed, q);
        self.rank.awaited = sets::minus(self.rank.awaited, sets::only(q));
        self.rank.triple = self.rank.triple.combine(x);
        self.acted(Send::silent(), Moved::nobody())
    }

    // DOWN x.
    #[inline(always)]
    pub fn down(mut self, x: Triple) -> Acted
        requires { Awaits (tree_of self.form self.span) self.n self.me self.rank }
        ensures { result ≡ taking_down (tree_of self.form self.span) self.n self.me x self.rank }
    {
        if (self.rank.phase != GATHERING) & (self.rank.phase != WAITING) {
            return self.done(Send::silent());
        }
        let end = self.decide(x);
        self.rank = end.rank;
        self.done(end.send)
    }

    // A new view, and who of those who moved by it came here: awaited are those who stayed and those who came, if not heard and not marked.
    fn view(&self, m: Mended, gained: u64) -> Rank
        requires table_value { m.table ≡ fresh (tree_of self.now.form self.now.span) self.now.n m.marks }
        requires awaits { Awaits (tree_of self.now.form self.now.span) self.now.n self.now.me self.now.rank }
        requires marks_stay { (p : ℕ) → has m.marks p ≡ false → has self.now.rank.marks p ≡ false }
        requires parents_stay { (p : ℕ) → p < self.now.n → has m.marks p ≡ false → has m.moved.ranks p ≡ false → parent (tree_of self.now.form self.now.span) m.marks p ≡ parent (tree_of self.now.form self.now.span) self.now.rank.marks p }
        requires gained_value { gained ≡ meet m.moved.ranks (set_of (λ p. eqb (get_or m.table p 0) self.now.me) 64) }
        ensures { result ≡ viewing (tree_of self.now.form self.now.span) self.now.n self.now.me m.marks self.now.rank }
    {
        let mut r = self.rank;
        let stayed = sets::minus(r.awaited, m.moved.ranks);
        let unheard = sets::minus(sets::union(stayed, gained), r.heard);
        r.marks = m.marks;
        r.awaited = sets::minus(unheard, m.marks);
        r
    }

    // ASK from q: every rank below q is dead.
    #[inline(always)]
    pub fn ask(mut self, q: u8) -> Acted
        requires awaits { Awaits (tree_of self.form self.span) self.n self.me self.rank }
        requires q_lt_n { q < self.n }
        ensures { result ≡ taking_ask (tree_of self.form self.span) self.n self.me q self.rank }
    {
        let m = self.mended_below(q);
        let table = m.table;
        self.rank = self.view(m, tree::pointing(table, m.moved.ranks, self.me));
        self.row = table;
        let reply = self.answer(q);
        self.rank = reply.rank;
        self.acted(reply.send, m.moved)
    }

    // What an ASK from q means to a rank that has marked all below q: DOWN if decided, else UP if q is now the parent.
    fn answer(&self, q: u8) -> Said
        requires { q < self.now.n }
        ensures { result ≡ asked (tree_of self.now.form self.now.span) self.now.n self.now.me q self.now.rank }
    {
        let mut r = self.rank;
        if r.phase == DECIDED {
            return r.saying(Send::down(r.result, sets::only(q)));
        }
        r.owed = sets::with(r.owed, q);
        if self.waits_for(q) {
            return r.saying(r.report(q));
        }
        r.saying(Send::silent())
    }

    // Told that q is dead.
    #[inline(always)]
    pub fn notice(mut self, q: u8) -> Acted
        requires awaits { Awaits (tree_of self.form self.span) self.n self.me self.rank }
        requires q_lt_n { q < self.n }
        ensures { result ≡ noticing (tree_of self.form self.span) self.n self.me q self.rank }
    {
        if sets::member(self.rank.marks, q) {
            return self.done(Send::silent());
        }
        let parent_died = self.waits_for(q);
        let child_died = self.lost_child(q);
        let m = self.mended(q);
        let table = m.table;
        let gained = tree::gained(
            self.n,
            self.form,
            self.span,
            self.rank.marks,
            q,
            table,
            m.moved.ranks,
            self.me,
        );
        self.rank = self.view(m, gained);
        self.row = table;
        let said = self.mourn(parent_died, child_died, gained);
        self.rank = said.rank;
        self.acted(said.send, m.moved)
    }

    // Whether it waits, and q is its parent.
    fn waits_for(&self, q: u8) -> bool
        ensures { result ≡ in_phase waiting self.now.rank && eqb (parent_of (tree_of self.now.form self.now.span) self.now.me self.now.rank) q }
    {
        let row = self.row;
        (self.rank.phase == WAITING) & (row[self.me as usize] == q)
    }

    // Whether it gathers without a parent, and q is its child.
    fn lost_child(&self, q: u8) -> bool
        requires q_lt_n { q < self.now.n }
        requires q_value { has self.now.rank.marks q ≡ false }
        ensures { result ≡ in_phase gathering self.now.rank && eqb (parent_of (tree_of self.now.form self.now.span) self.now.me self.now.rank) none && has (children_of (tree_of self.now.form self.now.span) self.now.n self.now.me self.now.rank) q }
    {
        let row = self.row;
        (self.rank.phase == GATHERING)
            & (row[self.me as usize] == sets::NONE)
            & (row[q as usize] == self.me)
    }

    // What the death means to a rank that has marked it: that of its parent, of a child, whose children it has gained, or of another.
    fn mourn(&self, parent_died: bool, child_died: bool, gained: u64) -> Said
        ensures { result ≡ cond parent_died (orphaned (tree_of self.now.form self.now.span) self.now.n self.now.me self.now.rank) (cond child_died (saying self.now.rank (asks gained)) (saying self.now.rank silent)) }
    {
        if parent_died {
            return self.orphan();
        }
        if child_died {
            return self.rank.saying(Send::ask(gained));
        }
        self.rank.saying(Send::silent())
    }

    // Waiting, and the parent died: reports to the new parent, or gathers again as the root and asks all children.
    fn orphan(&self) -> Said
        ensures { result ≡ orphaned (tree_of self.now.form self.now.span) self.now.n self.now.me self.now.rank }
    {
        let mut r = self.rank;
        let row = self.row;
        let parent = row[self.me as usize];
        if parent != sets::NONE {
            return r.saying(r.report(parent));
        }
        let children = self.children();
        r.heard = 0;
        r.awaited = children;
        r.phase = GATHERING;
        r.saying(Send::ask(children))
    }

    // The acknowledged set becomes the marks.
    #[inline(always)]
    pub fn acknowledge(mut self) -> Acted
        ensures { result ≡ acknowledging (tree_of self.form self.span) self.n self.me self.rank }
    {
        self.rank.acknowledged = self.rank.marks;
        self.done(Send::silent())
    }
}
