// Numbers, letters and lines onto a page.
#![tactic(auto)]

ghost use Rattle.std.specs.Prelude.{◌++◌, ◌∷◌, [], ◌+◌, ◌*◌, ◌<◌, ◌≤◌, ℕ, length};
ghost use Rattle.std.specs.Borrow.{MutBor};
ghost use Rattle.text.specs.Text.{Wrote, decimal, feed, field, lines};
ghost use Rattle.text.specs.Pages.{HasRoom, Lines, Puts};

// A lent buffer, and the place in it where the next byte goes.
#[derive(Drop)]
pub struct Page<'a> {
    pub text: &'a mut [u8],
    pub at: usize,
}

// The other digits first, then the last; answers the place after it. On the buffer and a place by themselves, since a page would be read and stored
// again at each digit.
fn put_digits(text: &mut [u8], at: usize, x: u32) -> usize
    requires { at + 10 ≤ length text.old }
    ensures { Wrote text.old at (decimal x) text.new result }
{
    if x < 10 {
        text[at] = b'0' + x as u8;
        at + 1
    } else {
        let last = put_digits(text, at, x / 10);
        text[last] = b'0' + (x % 10) as u8;
        last + 1
    }
}

impl<'a> Page<'a> {
    pub fn put_byte(&mut self, byte: u8)
        requires { HasRoom self.old 1 }
        ensures { Puts self.old (byte ∷ []) self.new }
    {
        self.text[self.at] = byte;
        self.at += 1;
    }

    // A word's letters, in order.
    pub fn put_letters(&mut self, letters: &[u8])
        requires { HasRoom self.old (length letters.now) }
        ensures { Puts self.old letters.now self.new }
    {
        let end = self.at + letters.len();
        let text = &mut *self.text;
        text[self.at..end].copy_from_slice(letters);
        self.at = end;
    }

    // The formatter's contracts say what a write that succeeds has written, and not that it succeeds, so that no number that it prints could be
    // promised here.
    pub fn put_number(&mut self, x: u32)
        requires { HasRoom self.old 10 }
        ensures { Puts self.old (decimal x) self.new }
    {
        self.at = put_digits(&mut *self.text, self.at, x);
    }

    // One space, and the number.
    pub fn put_field(&mut self, x: u32)
        requires { HasRoom self.old 11 }
        ensures { Puts self.old (field x) self.new }
    {
        self.put_byte(b' ');
        self.put_number(x);
    }

    // A field that ends its line.
    pub fn put_end(&mut self, x: u32)
        requires { HasRoom self.old 12 }
        ensures { Puts self.old (field x ++ feed) self.new }
    {
        self.put_field(x);
        self.put_byte(b'\n');
    }

    // Three fields that end their line.
    pub fn put_three(&mut self, x: u32, y: u32, z: u32)
        requires { HasRoom self.old 34 }
        ensures { Puts self.old (field x ++ (field y ++ (field z ++ feed))) self.new }
    {
        self.put_field(x);
        self.put_field(y);
        self.put_end(z);
    }

    // The lines of the places below n, ascending, each by the function.
    pub fn put_lines<F: Fn(&mut Page, usize)>(&mut self, n: usize, line: F)
        ghost of: { Lines }
        requires room { HasRoom self.old (n * of.most) }
        requires takes { (page : MutBor Page) (k : ℕ) → k < n → HasRoom page.now of.most → F.pre line page k }
        requires writes { (page left : MutBor Page) (k : ℕ) → k < n → HasRoom page.now of.most → F.post line page k tt left → Puts page.now (of.line k) left.now }
        ensures { Puts self.old (lines of.line n) self.new }
    {
        for k in 0..n {
            line(self, k);
        }
    }
}
