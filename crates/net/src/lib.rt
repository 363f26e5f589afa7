// The messages in flight: 128 places, zero after the last message.
#![tactic(auto)]

ghost use Rattle.std.specs.Prelude.{◌≡◌, List, cond, true, ◌++◌, ◌∷◌, [], ◌+◌, ◌-◌, ◌^◌, ◌<◌, ◌≤◌, get_or, length, set, take};
ghost use Rattle.rank.specs.declared.Message.{Message};
ghost use Rattle.rank.specs.Sends.{letters, size};
ghost use Rattle.net.specs.Net.{joining, message_of, messages_of, padded, placed, Small, without, zero_message};

use rank::{Message, Send, Triple};
use std::marker::Model;

// No message.
pub fn nothing() -> Message
    ensures { result ≡ zero_message }
{
    Message {
        kind: 0,
        from: 0,
        to: 0,
        triple: Triple::zero(),
    }
}

// The message at a place of a record's list, zero past the last.
pub fn at(net: [Message; 128], place: u32) -> Message
    ensures { result ≡ get_or net place zero_message }
{
    if place < 128 {
        net[place as usize]
    } else {
        nothing()
    }
}

// The first of a message's three numbers, and the message of three.
fn number_of(m: Message) -> u64
    ensures message { message_of result m.triple.known m.triple.acknowledged ≡ m }
    ensures upper_bound { result < 2 ^ 56 }
{
    m.kind as u64
        + 256 * (m.from as u64)
        + 65536 * (m.to as u64)
        + 16777216 * (m.triple.word as u64)
}

#[tactic(auto, unfolding(crate::specs::Net::message_of))]
fn message_of(x: u64, known: u64, acknowledged: u64) -> Message
    ensures { result ≡ message_of x known acknowledged }
{
    Message {
        kind: (x % 256) as u8,
        from: (x / 256 % 256) as u8,
        to: (x / 65536 % 256) as u8,
        triple: Triple {
            word: (x / 16777216 % 4294967296) as u32,
            known,
            acknowledged,
        },
    }
}

// A message is put at a place; and the message of the next place is.
fn put(numbers: &mut [u64; 384], place: u8, m: Message)
    requires { place < 128 }
    ensures messages { messages_of numbers.new ≡ set (messages_of numbers.old) place m }
    ensures small { Small numbers.old → Small numbers.new }
{
    let i = place as usize;
    numbers[i] = number_of(m);
    numbers[128 + i] = m.triple.known;
    numbers[256 + i] = m.triple.acknowledged;
}

fn pull(numbers: &mut [u64; 384], place: u8)
    requires { place + 1 < 128 }
    ensures messages { messages_of numbers.new ≡ set (messages_of numbers.old) place (get_or (messages_of numbers.old) (place + 1) zero_message) }
    ensures small { Small numbers.old → Small numbers.new }
{
    let i = place as usize;
    let next = i + 1;
    numbers[i] = numbers[next];
    numbers[128 + i] = numbers[128 + next];
    numbers[256 + i] = numbers[256 + next];
}

// The list while events are played, changed where it stands. Each message is three numbers, in three runs of one array, as messages_of has
// them, small and with zeros past the count: one list has one array.
#[derive(Drop)]
pub struct Flight {
    numbers: [u64; 384],
    count: u8,
}

impl Model for Flight {
    ghost Value = { List Message };

    ghost view = { λ f. take f.count (messages_of f.numbers) };

    ghost invariant = { λ f. (f.count ≤ 128) × Small f.numbers × (messages_of f.numbers ≡ padded (take f.count (messages_of f.numbers))) };
}

impl Flight {
    // Of a record's list and its length, and back.
    pub fn of(net: [Message; 128], count: u8) -> Flight
        requires { count ≤ 128 }
        ensures { result ≡ take count net }
    {
        let mut numbers = [0u64; 384];
        for i in 0..count {
            put(&mut numbers, i, net[i as usize]);
        }
        Flight { numbers, count }
    }

    pub fn places(&self) -> [Message; 128]
        ensures { result ≡ padded self.now }
    {
        let mut found = [nothing(); 128];
        for i in 0..self.count {
            found[i as usize] = self.at(i as u32);
        }
        found
    }

    // Of a caller's messages as numbers, and back. Past the last message the numbers that come back are 0.
    pub fn of_numbers(numbers: [u64; 384], count: u8) -> Flight
        requires { count ≤ 128 }
        ensures { result ≡ take count (messages_of numbers) }
    {
        let mut found = [0u64; 384];
        for i in 0..count {
            let k = i as usize;
            put(
                &mut found,
                i,
                message_of(numbers[k], numbers[128 + k], numbers[256 + k]),
            );
        }
        Flight {
            count,
            numbers: found,
        }
    }

    pub fn numbers(&self) -> [u64; 384]
        ensures messages { messages_of result ≡ padded self.now }
        ensures small { Small result }
    {
        let mut found = [0u64; 384];
        for i in 0..self.count {
            put(&mut found, i, self.at(i as u32));
        }
        found
    }

    pub fn count(&self) -> u8
        ensures { result ≡ length self.now }
    {
        self.count
    }

    // The message at a place, zero past the last.
    pub fn at(&self, place: u32) -> Message
        ensures { result ≡ get_or self.now place zero_message }
    {
        if place < self.count as u32 {
            let i = place as usize;
            message_of(
                self.numbers[i],
                self.numbers[128 + i],
                self.numbers[256 + i],
            )
        } else {
            nothing()
        }
    }

    // The message at a place leaves, and later ones move up.
    fn take_out(&mut self, place: u32)
        requires { place < length self.old }
        ensures { self.new ≡ without place self.old }
    {
        let last = self.count - 1;
        for i in place as u8..last {
            pull(&mut self.numbers, i);
        }
        put(&mut self.numbers, last, nothing());
        self.count = last;
    }

    // The message at a place leaves, if one leaves.
    fn let_go(&mut self, place: u32, leaves: bool)
        requires { leaves ≡ true → place < length self.old }
        ensures { self.new ≡ cond leaves (without place self.old) self.old }
    {
        if leaves {
            self.take_out(place);
        }
    }

    // A message joins at the end.
    fn join(&mut self, m: Message)
        requires { length self.old < 128 }
        ensures { self.new ≡ self.old ++ m ∷ [] }
    {
        put(&mut self.numbers, self.count, m);
        self.count += 1;
    }

    // The messages of a send join at the end, in ascending order of receiver.
    fn post(&mut self, me: u8, s: Send)
        requires { length self.old + size s ≤ 128 }
        ensures { placed self.new ≡ joining self.old me s }
    {
        let mut left = s.to;
        while let Some(q) = sets::smallest(left) {
            self.join(Message {
                kind: s.kind,
                from: me,
                to: q,
                triple: s.triple,
            });
            left = sets::minus(left, sets::only(q));
        }
    }

    // A message leaves, if one leaves, and two sends join. Answers how many have joined. In line: a call would store both sends.
    #[inline(always)]
    pub fn forward(&mut self, place: u32, me: u8, leaves: bool, first: Send, second: Send) -> u32
        requires place_in { leaves ≡ true → place < length self.old }
        requires room { length self.old + size first + size second - cond leaves 1 0 ≤ 128 }
        ensures sent { result ≡ size first + size second }
        ensures after { self.new ≡ (cond leaves (without place self.old) self.old ++ letters me first) ++ letters me second }
    {
        self.let_go(place, leaves);
        let left = self.count();
        self.post(me, first);
        self.post(me, second);
        (self.count() - left) as u32
    }
}
