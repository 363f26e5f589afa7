// The view that a reader proposes for a text, from the first line and the node lines. Whoever asks must still compare the text with the picture of
// that view.
#![tactic(auto)]

ghost use Rattle.std.specs.Prelude.{◌≡◌, ◌≤◌, get_or};
ghost use Rattle.sets.specs.Sets.{found};
ghost use Rattle.proposing.specs.Proposing.{after_node, marks_in, number_in, number_from, size_in, width};

// The byte at a place, 0 past the end.
fn byte_at(text: &[u8], at: usize) -> u8
    ensures { result ≡ get_or text.now at 0 }
{
    text.get(at).copied().unwrap_or(0)
}

// The number of one digit or two that two bytes begin with, where the first is a digit.
fn number_from(first: u8, second: u8) -> Option<u8>
    ensures { result ≡ found (number_from first second) }
{
    if !first.is_ascii_digit() {
        return None;
    }
    if !second.is_ascii_digit() {
        return Some(first - b'0');
    }
    Some(10 * (first - b'0') + (second - b'0'))
}

// The number at a place.
fn number_in(text: &[u8], at: usize) -> Option<u8>
    requires { at ≤ 4096 }
    ensures { result ≡ found (number_in text.now at) }
{
    number_from(byte_at(text, at), byte_at(text, at + 1))
}

// How many digits a rank or a size has.
fn width(p: u8) -> usize
    ensures { result ≡ width p }
{
    if p < 10 { 1 } else { 2 }
}

// The place after the node line of p.
fn after_node(text: &[u8], at: usize, p: u8) -> usize
    requires { at ≤ 4096 }
    ensures { result ≡ after_node text.now at p }
{
    let end = at + width(p);
    if byte_at(text, end) == b';' {
        return end + 2;
    }
    end + 14
}

// The size that the first line names.
pub fn size_in(text: &[u8]) -> Option<u8>
    ensures { result ≡ found (size_in text.now) }
{
    number_in(text, 9)
}

// The marks that the node lines leave of a group of n ranks.
pub fn marks_in(text: &[u8], n: u8) -> u64
    requires { n ≤ 64 }
    ensures { result ≡ marks_in text.now n }
{
    let mut marks: u64 = 0;
    let mut at = 12 + width(n);
    for p in 0..n {
        if number_in(text, at) == Some(p) {
            at = after_node(text, at, p);
        } else {
            marks = sets::with(marks, p);
        }
    }
    marks
}
