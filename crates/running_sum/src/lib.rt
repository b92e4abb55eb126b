// Sums of bytes that lie in several parts (docs/RULES.md U8 to U10): two sums added, the sums of two parts joined, and a sum that walks from part to part.
#![tactic(auto)]

ghost use Rattle.std.specs.Prelude.{◌≡◌, []};
ghost use Rattle.checksum.specs.Ones.{◌⊕◌, ones_sum};
ghost use Rattle.checksum.specs.Icmpv6.{pseudo_words};
ghost use Rattle.running_sum.specs.Parts.{join_of, over, ◌then◌};

use addresses::Addresses;

// The sum so far, and whether an odd number of bytes is in it.
#[derive(Clone, Copy, Debug, PartialEq, Eq)]
pub struct RunningSum {
    pub sum: u16,
    pub odd: bool,
}

// Two sums added, the carry taken round.
pub fn add(a: u16, b: u16) -> u16
    ensures { result ≡ a ⊕ b }
{
    let t = u32::from(a) + u32::from(b);
    (t % 65536 + t / 65536) as u16
}

// The sum of joined bytes, from the sums of both parts and how many bytes the first has.
pub fn join(first: u16, first_len: usize, second: u16) -> u16
    ensures { result ≡ join_of first first_len second }
{
    if first_len % 2 == 1 {
        // Behind an odd number of bytes every byte is in the other half of its word.
        return add(first, second.swap_bytes());
    }
    add(first, second)
}

// The sum of the pseudo-header of a packet of `length` bytes, an even number of bytes by itself.
pub fn pseudo(addresses: Addresses, length: u32) -> u16
    ensures { result ≡ ones_sum (pseudo_words addresses.source addresses.destination length) }
{
    let sums = add(
        checksum::sum(&addresses.source),
        checksum::sum(&addresses.destination),
    );
    add(
        add(sums, (length / 65536) as u16),
        add((length % 65536) as u16, 58),
    )
}

impl RunningSum {
    // The sum of no bytes.
    pub fn new() -> RunningSum
        ensures { result ≡ over [] }
    {
        RunningSum { sum: 0, odd: false }
    }

    // Two sums joined: the bytes of `later` stand behind those of this one.
    pub fn then(self, later: RunningSum) -> RunningSum
        ensures { result ≡ self then later }
    {
        RunningSum {
            // `as` of a bool: of `usize::from` the proof did not close.
            sum: join(self.sum, self.odd as usize, later.sum),
            odd: self.odd != later.odd,
        }
    }

    // The sum with more bytes behind those that are in it.
    pub fn push(self, bytes: &[u8]) -> RunningSum
        ensures { result ≡ self then over bytes.now }
    {
        self.then(RunningSum {
            sum: checksum::sum(bytes),
            odd: bytes.len() % 2 == 1,
        })
    }

    pub fn value(self) -> u16
        ensures { result ≡ self.sum }
    {
        self.sum
    }
}
