// What the two calls for C share that update a checksum: the answer as numbers.
#![tactic(auto)]

ghost use Rattle.std.specs.Prelude.{◌≡◌};
ghost use Rattle.checksum_update.specs.Told.{updated_told};
ghost use Rattle.c_updated.specs.Updated.{updated_for};

use refusal::Refusal;

#[repr(C)]
#[derive(Clone, Copy)]
pub struct Updated {
    pub answer: u32,
    pub refusal: u32,
    pub value: [u64; 5],
    pub field: u64,
}

// A function and no `From`: docs/PROMISES.md names it.
#[inline(always)]
pub fn told(answer: Result<u16, Refusal>) -> Updated
    ensures { result ≡ updated_for (updated_told answer) }
{
    // Each arm returns: an answer is then written straight to where it goes (docs/BENCHMARKS.md).
    match answer {
        Ok(field) => return Updated {
            answer: c_answer::UPDATED,
            refusal: 0,
            value: [0; 5],
            field: u64::from(field),
        },
        Err(why) => {
            let n = why.numbers();
            let value = n.values;
            return Updated {
                answer: c_answer::REFUSED,
                refusal: u32::from(n.number),
                value,
                field: 0,
            };
        }
    }
}
