// The numbers of a line of cases, byte by byte: a word, of which the first letter counts, and numbers with other bytes between them.
#![tactic(auto, unfolding(crate::specs::Reading::blank, crate::specs::Reading::longer, crate::specs::Reading::taken))]

ghost use Rattle.std.specs.Prelude.{◌≡◌, ◌<◌};
ghost use Rattle.reader.specs.Reading.{blank, taken};

// A line so far: its letter, its first N numbers, how many of them are done, and whether one is being read. Past N numbers digits go on at the first.
#[derive(Clone, Copy)]
pub struct Reader<const N: usize> {
    pub letter: u8,
    pub numbers: [u64; N],
    pub count: u8,
    pub inside: bool,
}

impl<const N: usize> Reader<N> {
    // Before a line.
    pub fn new() -> Self
        ensures { result ≡ blank N }
    {
        Reader {
            letter: 0,
            numbers: [0; N],
            count: 0,
            inside: false,
        }
    }

    // One more byte of the line. Numbers are modulo 2^64; in ASCII a digit is its byte modulo 16.
    pub fn take(&mut self, b: u8)
        requires { 0 < N }
        ensures { self.new ≡ taken N self.old b }
    {
        if b.is_ascii_digit() {
            let at = self.count as usize % N;
            self.numbers[at] = self.numbers[at]
                .wrapping_mul(10)
                .wrapping_add((b % 16) as u64);
            self.inside = true;
            return;
        }
        if self.inside {
            self.count = self.count.wrapping_add(1);
        }
        self.inside = false;
        if self.letter == 0 {
            self.letter = b;
        }
    }
}
