//! Numbers that look random, and are the same for the same seed.
ghost use Rattle.std.specs.Prelude.{◌<◌, length};

use rowan::TextSize;
use std::alloc::{AllocError, Global};

/// A generator of 64 bits of state: SplitMix64, of Guy Steele, Doug Lea and Christine Flood.
#[derive(Drop)]
pub struct Draws {
    state: u64,
}

impl Draws {
    pub fn new(seed: u64) -> Draws {
        Draws { state: seed }
    }

    fn next(&mut self) -> u64 {
        self.state = self.state.wrapping_add(0x9e37_79b9_7f4a_7c15);
        let mixed = folded(self.state, 30).wrapping_mul(0xbf58_476d_1ce4_e5b9);
        let mixed = folded(mixed, 27).wrapping_mul(0x94d0_49bb_1331_11eb);
        folded(mixed, 31)
    }

    /// A number below a bound.
    pub fn below(&mut self, bound: usize) -> usize
        requires { 0 < bound }
        ensures { result < bound }
    {
        (self.next() % bound as u64) as usize
    }

    /// A number below a bound, small ones more often than great ones.
    pub fn low_below(&mut self, bound: usize) -> usize
        requires { 0 < bound }
        ensures { result < bound }
    {
        let first = self.below(bound);
        self.below(first + 1)
    }

    /// One of these words.
    pub fn word(&mut self, words: &[&'static str]) -> &'static str
        requires { 0 < length words.now }
    {
        words[self.below(words.len())]
    }
}

/// A number with its upper bits in the lower ones, too. A function of its own, since the proof of
/// `next` would name each number twice for each time that it is folded.
fn folded(number: u64, by: u32) -> u64
    requires { by < 64 }
{
    number ^ (number >> by)
}

/// Steps of [`Turns`]: primes above each bound that a job has.
const STEPS: [u32; 8] = [
    1_000_000_007,
    1_234_567_891,
    1_618_033_999,
    2_147_483_629,
    2_718_281_831,
    3_141_592_661,
    3_500_000_011,
    4_000_000_007,
];

/// The numbers below a bound in an order that is drawn: each of them once, and then all again.
#[derive(Drop)]
pub struct Turns {
    bound: u32,
    step: u32,
    next: u32,
    ghost above_zero: { 0 < bound },
}

impl Turns {
    pub fn new(draws: &mut Draws, bound: u32) -> Turns
        requires { 0 < bound }
    {
        Turns {
            bound,
            step: STEPS[draws.below(STEPS.len())],
            next: draws.below(bound as usize) as u32,
        }
    }

    pub fn next(&mut self) -> u32 {
        let number = self.next;
        let sum = u64::from(number) + u64::from(self.step);
        self.next = (sum % u64::from(self.bound)) as u32;
        number
    }

    /// The smallest of some sizes, each of which is twice the one before, doubled as often as the
    /// next number says.
    pub fn next_size(&mut self, smallest: usize) -> usize {
        smallest << self.next().min(31)
    }
}

/// Which places of a text were seen.
#[derive(Drop)]
pub struct Seen {
    marks: Vec<bool>,
}

impl Seen {
    pub fn new(alloc: Global, places: usize) -> Result<Seen, AllocError> {
        let mut marks = Vec::with_capacity(alloc, places)?;
        for _ in 0..places {
            marks.push(false)?;
        }
        Ok(Seen { marks })
    }

    /// Whether a place is seen now and was not before.
    pub fn is_new(&mut self, place: TextSize) -> bool {
        match self.marks.get_mut(u32::from(place) as usize) {
            Some(mark) if !*mark => {
                *mark = true;
                true
            }
            _ => false,
        }
    }
}
