// The numbers of a text, and where a case has which.

// A case: what its first line says, and where its lists begin and end.
#[derive(Clone, Copy)]
pub struct Case {
    pub size: u32,
    pub form: u32,
    pub span: u32,
    pub hand: u32,
    pub places: usize,
    pub count: usize,
    pub parts: usize,
    pub list: usize,
    pub from: usize,
    pub to: usize,
}

// A number with one more digit, modulo 2^32; in ASCII a digit is its byte modulo 16.
fn longer(n: u32, b: u8) -> u32 {
    n.wrapping_mul(10).wrapping_add((b % 16) as u32)
}

fn store(out: &mut [u32], at: usize, number: u32) {
    if let Some(place) = out.get_mut(at) {
        *place = number;
    }
}

// Writes the numbers of a text into the slice, and answers how many they are. A number is stored where it ends.
pub fn numbers(text: &[u8], out: &mut [u32]) -> usize {
    let mut number = None;
    let mut count: usize = 0;
    for b in text {
        if b.is_ascii_digit() {
            number = Some(longer(number.unwrap_or(0), *b));
        } else if let Some(n) = number {
            store(out, count, n);
            count = count.wrapping_add(1);
            number = None;
        }
    }
    count
}

// The number at a place, and 0 past the last.
pub fn number(numbers: &[u32], at: usize) -> u32 {
    numbers.get(at).copied().unwrap_or(0)
}

// The number some places after a place, as a place or a length.
pub fn length(numbers: &[u32], at: usize, more: usize) -> usize {
    number(numbers, at.wrapping_add(more)) as usize
}

// The case that begins at a place. Places are added modulo 2^64: a case that is not whole reaches past the numbers, and is not played.
pub fn case_at(numbers: &[u32], at: usize) -> Case {
    let count = length(numbers, at, 5);
    let parts = length(numbers, at, 6);
    let list = at.wrapping_add(7);
    let from = list.wrapping_add(parts).wrapping_add(parts);
    Case {
        size: number(numbers, at),
        form: number(numbers, at.wrapping_add(1)),
        span: number(numbers, at.wrapping_add(2)),
        hand: number(numbers, at.wrapping_add(3)),
        places: length(numbers, at, 4),
        count,
        parts,
        list,
        from,
        to: from.wrapping_add(count),
    }
}
