// Sets of ranks as 64-bit words, one bit a rank. Smallest, largest and size come from the processor's own bit counts.
#![tactic(auto)]

ghost use Rattle.std.specs.Prelude.{◌≡◌, Bool, cond, ℕ, ◌+◌, ◌*◌, ◌%◌, ◌^◌, ◌<◌, ◌≤◌, eqb, get_or};
ghost use Rattle.sets.specs.Sets.{add, below, count, found, has, largest, meet, minus, none, only, set_of, smallest, union};

// No rank, in a table.
pub const NONE: u8 = 255;

// Whether p is a member.
pub fn member(w: u64, p: u8) -> bool
    requires { p < 64 }
    ensures { result ≡ has w p }
{
    (w >> p) % 2 == 1
}

// The set of p alone.
pub fn only(p: u8) -> u64
    requires { p < 64 }
    ensures { result ≡ only p }
{
    1u64 << p
}

// The set with p added.
pub fn with(w: u64, p: u8) -> u64
    requires { p < 64 }
    ensures { result ≡ add w p }
{
    w | (1u64 << p)
}

// The members of either set.
pub fn union(a: u64, b: u64) -> u64
    ensures { result ≡ union a b }
{
    a | b
}

// The members of both sets.
pub fn meet(a: u64, b: u64) -> u64
    ensures { result ≡ meet a b }
{
    a & b
}

// The members of a that are not in b.
pub fn minus(a: u64, b: u64) -> u64
    ensures { result ≡ minus a b }
{
    a & !b
}

// The ranks below p.
pub fn below(p: u8) -> u64
    requires { p ≤ 64 }
    ensures { result ≡ below p }
{
    if p == 64 {
        return 0xffff_ffff_ffff_ffff;
    }
    (1u64 << p) - 1
}

// The smallest member, by the zeros below it.
pub fn smallest(w: u64) -> Option<u8>
    ensures { result ≡ found (smallest (has w) 64 none) }
{
    if w == 0 {
        return None;
    }
    Some(u64::trailing_zeros(w) as u8)
}

// The largest member, by the zeros above it.
pub fn largest(w: u64) -> Option<u8>
    ensures { result ≡ found (largest (has w) 64 none) }
{
    if w == 0 {
        return None;
    }
    Some((63 - u64::leading_zeros(w)) as u8)
}

// How many members the set has; most sets are empty, and a count of ones takes long.
pub fn size(w: u64) -> u8
    ensures { result ≡ count (has w) 64 }
{
    if w == 0 {
        return 0;
    }
    u64::count_ones(w) as u8
}

// The digit of place p among its eight, where q stands there.
fn flag(entry: u8, q: u8, p: u8) -> u8
    ensures { result ≡ cond (eqb entry q) (2 ^ (p % 8)) 0 }
{
    if entry == q {
        return 1u8 << (p % 8);
    }
    0
}

fn flags(row: [u8; 64], q: u8) -> [u8; 64]
    ensures { (p : ℕ) → p < 64 → get_or result p 0 ≡ cond (eqb (get_or row p 0) q) (2 ^ (p % 8)) 0 }
{
    let mut found = [0u8; 64];
    for p in 0..64u8 {
        found[p as usize] = flag(row[p as usize], q, p);
    }
    found
}

// Eight flags as one byte.
fn octet(flags: [u8; 64], k: u8) -> u8
    requires k_bound { k < 8 }
    requires by_index { (j : ℕ) → j < 8 → get_or flags (8 * k + j) 0 ≤ 2 ^ j }
    ensures { (f : ℕ → Bool) → ((j : ℕ) → j < 8 → get_or flags (8 * k + j) 0 ≡ cond (f j) (2 ^ j) 0) → result ≡ set_of f 8 }
{
    let mut sum: u8 = 0;
    for j in 0..8u8 {
        sum += flags[(8 * k + j) as usize];
    }
    sum
}

// The places of a row at which q stands. All of them at once, eight to a byte: a processor does this faster than a scan that is cut short.
pub fn places(row: [u8; 64], q: u8) -> u64
    ensures { result ≡ set_of (λ p. eqb (get_or row p 0) q) 64 }
{
    let f = flags(row, q);
    octet(f, 0) as u64
        + 256 * (octet(f, 1) as u64)
        + 65536 * (octet(f, 2) as u64)
        + 16777216 * (octet(f, 3) as u64)
        + 4294967296 * (octet(f, 4) as u64)
        + 1099511627776 * (octet(f, 5) as u64)
        + 281474976710656 * (octet(f, 6) as u64)
        + 72057594037927936 * (octet(f, 7) as u64)
}
