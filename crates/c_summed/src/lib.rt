// What the sums for C share: a sum, and whether an odd number of bytes is in it, in one struct that comes back as it went out.
#![tactic(auto)]

ghost use Rattle.std.specs.Prelude.{◌≡◌};
ghost use Rattle.c_summed.specs.Summed.{summed_for, running_of};

use running_sum::RunningSum;

#[repr(C)]
#[derive(Clone, Copy)]
pub struct Summed {
    pub answer: u32,
    pub sum: u16,
    pub odd: u16,
}

// A function and no `From`: docs/PROMISES.md names it, and the next.
pub fn told(r: RunningSum) -> Summed
    ensures { result ≡ summed_for r }
{
    let odd = u16::from(r.odd);
    Summed {
        answer: c_answer::SUM,
        sum: r.value(),
        odd,
    }
}

// What a struct says that came back. Its `answer` is not looked at.
pub fn running(s: Summed) -> RunningSum
    ensures { result ≡ running_of s }
{
    RunningSum {
        sum: s.sum,
        odd: s.odd % 2 == 1,
    }
}
