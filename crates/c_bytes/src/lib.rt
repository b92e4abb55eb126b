// What the calls share that read an option for its bytes: where they begin in it and how many they are. Nothing is copied.
#![tactic(auto)]

ghost use Rattle.std.specs.Prelude.{◌≡◌};
ghost use Rattle.ndp_option_read.specs.Rule.{read_told};
ghost use Rattle.c_bytes.specs.Bytes.{bytes_for};

use refusal::Refusal;

#[repr(C)]
#[derive(Clone, Copy)]
pub struct Bytes {
    pub answer: u32,
    pub refusal: u32,
    pub value: [u64; 5],
    pub at: usize,
    pub length: usize,
    pub place: usize,
}

// The reader's answer as numbers, of an option of so many bytes, which has its own from a place on. A function and no `From`: it
// takes two numbers more.
#[tactic(auto, unfolding(crate::specs::Bytes::bytes_for))]
pub fn told(read: Result<usize, Refusal>, from: usize, size: usize) -> Bytes
    ensures { result ≡ bytes_for from size (read_told read) }
{
    // Each arm returns: an answer is then written straight to where it goes (docs/BENCHMARKS.md).
    match read {
        Ok(place) => {
            return Bytes {
                answer: c_answer::BYTES,
                refusal: 0,
                value: [0; 5],
                at: from,
                length: size.saturating_sub(from),
                place,
            };
        }
        Err(why) => {
            let n = why.numbers();
            let value = n.values;
            return Bytes {
                answer: c_answer::REFUSED,
                refusal: u32::from(n.number),
                value,
                at: 0,
                length: 0,
                place: 0,
            };
        }
    }
}
