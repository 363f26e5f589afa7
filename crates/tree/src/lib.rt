// Views of the tree: who is whose parent once some ranks are marked dead, and the table of parents, mended at each mark.
#![tactic(auto)]

ghost use Rattle.std.specs.Prelude.{◌≡◌, ℕ, cond, ◌+◌, ◌<◌, ◌≤◌, eqb, ltb, get_or};
ghost use Rattle.sets.specs.Sets.{add, below, found, has, largest, meet, minus, none, set_of, smallest};
ghost use Rattle.tree.specs.Tree.{ancestors, children, fresh, half, nobody, parent, row, sized};
ghost use Rattle.tree.specs.Forms.{head_above, in_nest, in_star, tree_of};
ghost use Rattle.tree.specs.Calls.{and_then, mended, mended_below, same, wrong_size};

// Forms of tree, as numbers: a caller may hand in any, and start, mark and climb refuse those that are none of these.
pub const FLAT: u8 = 0;

pub const STAR: u8 = 1;

pub const NESTED: u8 = 2;

// A view: the ranks that are marked dead in a group of n, the form and the box size of its tree, and its table, which is the fresh one.
#[derive(Clone, Copy)]
pub struct View {
    pub n: u8,
    pub form: u8,
    pub span: u8,
    pub marks: u64,
    pub table: [u8; 64],
    pub ghost size: { n ≤ 64 },
    pub ghost fresh: { table ≡ fresh (tree_of form span) n marks },
}

// The unmarked ranks that moved, and how many; of several marks the union and the sum.
#[derive(Clone, Copy)]
pub struct Moved {
    pub ranks: u64,
    pub count: u32,
}

// A view with its table, and what the marking moved.
#[derive(Clone, Copy)]
pub struct Mended {
    pub marks: u64,
    pub table: [u8; 64],
    pub moved: Moved,
}

impl Moved {
    // Nobody moved.
    pub fn nobody() -> Moved
        ensures { result ≡ nobody }
    {
        Moved { ranks: 0, count: 0 }
    }

    // These ranks moved, at one mark.
    fn sized(ranks: u64) -> Moved
        ensures { result ≡ sized ranks }
    {
        Moved {
            ranks,
            count: sets::size(ranks) as u32,
        }
    }

    // Moved by one marking and then another; 64 marks move at most 64 ranks each.
    fn and_then(self, next: Moved) -> Moved
        requires { self.count + next.count ≤ 4096 }
        ensures { result ≡ and_then self next }
    {
        Moved {
            ranks: sets::union(self.ranks, next.ranks),
            count: self.count + next.count,
        }
    }
}

// Next above the head of a box: the head of the box whose number is half of this one's.
fn head_above(span: u8, p: u8) -> u8
    requires { 0 < span }
    ensures { result ≡ head_above span p }
{
    p / span / 2 * span
}

// Next above p where a box's other ranks report to its head.
fn in_star(span: u8, p: u8) -> u8
    requires { 0 < span }
    ensures { result ≡ in_star span p }
{
    let place = p % span;
    if place == 0 {
        return head_above(span, p);
    }
    p - place
}

// Next above p where they report along a tree that halves places inside the box.
fn in_nest(span: u8, p: u8) -> u8
    requires { 0 < span }
    ensures { result ≡ in_nest span p }
{
    let place = p % span;
    if place == 0 {
        return head_above(span, p);
    }
    let head = p - place;
    head + place / 2
}

// Next above p in the flat form.
fn half(p: u8) -> u8
    ensures { result ≡ half p }
{
    p / 2
}

// The ancestors of p that a parent is looked for among, the nearest first: as far as the first that is unmarked, and down to the lowest unmarked
// rank, below which all are marked. `above` answers the rank next above one.
fn ancestors_by<F: Fn(u8) -> u8>(above: F, marks: u64, p: u8, lowest: u8) -> u64
    requires callable { F.IsAlwaysCallable above }
    requires smaller { (x r : ℕ) → 0 < x → F.post above x r → r < x }
    requires p_bound { p < 64 }
    requires lowest_value { lowest ≡ smallest (has (minus (below p) marks)) 64 none }
    ensures { (next : ℕ → ℕ) → ((x r : ℕ) → F.post above x r → r ≡ next x) → ((x : ℕ) → 0 < x → next x < x) → cond (eqb (minus result marks) 0) lowest (largest (has (minus result marks)) 64 none) ≡ parent (ancestors next) marks p }
{
    let mut found: u64 = 0;
    let mut at = above(p);
    while lowest < at {
        found = sets::with(found, at);
        if !sets::member(marks, at) {
            return found;
        }
        at = above(at);
    }
    found
}

// Those of the form; which one it is is asked once for a rank and not at each step.
fn ancestors(form: u8, span: u8, marks: u64, p: u8, lowest: u8) -> u64
    requires span_nonzero { 0 < span }
    requires p_bound { p < 64 }
    requires lowest_value { lowest ≡ smallest (has (minus (below p) marks)) 64 none }
    ensures { cond (eqb (minus result marks) 0) lowest (largest (has (minus result marks)) 64 none) ≡ parent (tree_of form span) marks p }
{
    match form {
        STAR => ancestors_by(|q| in_star(span, q), marks, p, lowest),
        NESTED => ancestors_by(|q| in_nest(span, q), marks, p, lowest),
        _ => ancestors_by(half, marks, p, lowest),
    }
}

// The parent of p: the nearest unmarked ancestor, else the lowest unmarked rank below p.
pub fn parent_of(form: u8, span: u8, marks: u64, p: u8) -> Option<u8>
    requires span_nonzero { 0 < span }
    requires p_bound { p < 64 }
    ensures { result ≡ found (parent (tree_of form span) marks p) }
{
    let lowest = sets::smallest(sets::minus(sets::below(p), marks))?;
    let near = sets::minus(ancestors(form, span, marks, p, lowest), marks);
    Some(sets::largest(near).unwrap_or(lowest))
}

// The whole table of a view, worked out from nothing.
pub fn fresh(n: u8, form: u8, span: u8, marks: u64) -> [u8; 64]
    requires span_nonzero { 0 < span }
    requires n_bound { n ≤ 64 }
    ensures { result ≡ fresh (tree_of form span) n marks }
{
    let mut table = [sets::NONE; 64];
    for p in 0..n {
        table[p as usize] = parent_of(form, span, marks, p).unwrap_or(sets::NONE);
    }
    table
}

// Those of a set whose entry in the table is q; most sets are empty.
pub fn pointing(table: [u8; 64], among: u64, q: u8) -> u64
    ensures { result ≡ meet among (set_of (λ p. eqb (get_or table p 0) q) 64) }
{
    if among == 0 {
        return 0;
    }
    sets::meet(among, sets::places(table, q))
}

// An entry once q is marked: `to` where it was q.
fn handed(entry: u8, q: u8, to: u8) -> u8
    ensures { result ≡ cond (eqb entry q) to entry }
{
    if entry == q {
        return to;
    }
    entry
}

// Each entry that is q becomes what `to` answers at its place.
fn hand_over<F: Fn(u8) -> u8>(mut table: [u8; 64], q: u8, to: F) -> [u8; 64]
    requires { F.IsAlwaysCallable to }
    ensures { (f : ℕ → ℕ) → ((p r : ℕ) → F.post to p r → r ≡ f p) → result ≡ row (λ p. cond (eqb (get_or table p 0) q) (f p) (get_or table p 0)) 64 }
{
    for p in 0..64u8 {
        table[p as usize] = handed(table[p as usize], q, to(p));
    }
    table
}

// Whom p reports to under the root `low`: nobody, if it is that root or stands below it.
fn led(low: u8, p: u8) -> u8
    ensures { result ≡ cond (ltb low p) low none }
{
    if low < p {
        return low;
    }
    sets::NONE
}

impl View {
    // The children of p, read off the table.
    pub fn children_of(self, p: u8) -> u64
        requires { p < 64 }
        ensures { result ≡ children (tree_of self.form self.span) self.n self.marks p }
    {
        let table = self.table;
        sets::minus(sets::places(table, p), self.marks)
    }

    // The table once q is marked: the links that ended at q end at its heir, its parent or, where it had none, the lowest unmarked rank.
    fn relink(self, q: u8, after: u64) -> [u8; 64]
        requires q_lt_n { q < self.n }
        requires after_value { after ≡ add self.marks q }
        ensures { result ≡ fresh (tree_of self.form self.span) self.n after }
    {
        let table = self.table;
        let up = table[q as usize];
        if up != sets::NONE {
            return hand_over(table, q, |_| up);
        }
        let low = sets::smallest(sets::minus(sets::below(64), after)).unwrap_or(sets::NONE);
        hand_over(table, q, |p| led(low, p))
    }

    // Marks q and mends the table: only entries that pointed at q change.
    #[inline(always)]
    pub fn mend(self, q: u8) -> Mended
        requires { q < self.n }
        ensures { result ≡ mended (tree_of self.form self.span) self.n self.marks q }
    {
        let marks = self.marks;
        let table = self.table;
        if sets::member(marks, q) {
            return Mended {
                marks,
                table,
                moved: Moved::nobody(),
            };
        }
        let after = sets::with(marks, q);
        let changed = sets::places(table, q);
        if changed == 0 {
            return Mended {
                marks: after,
                table,
                moved: Moved::nobody(),
            };
        }
        Mended {
            marks: after,
            table: self.relink(q, after),
            moved: Moved::sized(sets::minus(changed, after)),
        }
    }

    // Marks every rank below q, ascending; moved is the union and the sum over the marks.
    pub fn mend_below(self, q: u8) -> Mended
        requires { q ≤ self.n }
        ensures { result ≡ mended_below (tree_of self.form self.span) self.n self.marks q }
    {
        let mut marks = self.marks;
        let mut table = self.table;
        let mut moved = Moved::nobody();
        for k in 0..q {
            if sets::member(marks, k) {
                continue;
            }
            let view = View {
                n: self.n,
                form: self.form,
                span: self.span,
                marks,
                table,
            };
            let next = view.mend(k);
            marks = next.marks;
            table = next.table;
            moved = moved.and_then(next.moved);
        }
        Mended {
            marks,
            table,
            moved,
        }
    }
}

// Those who moved at the mark of q and report to p now. All who moved have one heir, so it is all of them but p itself, or nobody.
pub fn gained(
    n: u8,
    form: u8,
    span: u8,
    marks: u64,
    q: u8,
    table: [u8; 64],
    moved: u64,
    p: u8,
) -> u64
    requires n_bound { n ≤ 64 }
    requires q_lt_n { q < n }
    requires p_bound { p < 64 }
    requires table_value { table ≡ (mended (tree_of form span) n marks q).table }
    requires moved_value { moved ≡ (mended (tree_of form span) n marks q).moved.ranks }
    ensures { result ≡ meet moved (set_of (λ c. eqb (get_or table c 0) p) 64) }
{
    let Some(last) = sets::largest(moved) else {
        return 0;
    };
    if table[last as usize] != p {
        return 0;
    }
    sets::minus(moved, sets::only(p))
}

// Whether a size, of a group or of a box, is not 1 to 64.
pub fn wrong_size(n: u32) -> bool
    ensures { result ≡ wrong_size n }
{
    (n == 0) | (64 < n)
}

// Whether two tables are the same.
pub fn same(a: [u8; 64], b: [u8; 64]) -> bool
    ensures { result ≡ same a b }
{
    a == b
}
