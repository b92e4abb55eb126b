// What the calls for C share that write: a packet's header from its numbers, and the answer as numbers.
#![tactic(auto)]

ghost use Rattle.std.specs.Prelude.{◌≡◌};
ghost use Rattle.output.specs.Output.{written_told};
ghost use Rattle.c_written.specs.Written.{header_of_word, written_for};

use icmpv6::icmpv6_header::Icmpv6Header;
use icmpv6_type::Icmpv6Type;
use refusal::Refusal;

#[repr(C)]
#[derive(Clone, Copy)]
pub struct Written {
    pub answer: u32,
    pub refusal: u32,
    pub value: [u64; 5],
    pub length: usize,
}

// The header of a type, a code and bytes 4 to 7, as the decoder would have read it.
pub fn header_of(type_u8: u8, code_u8: u8, bytes5to8: u32) -> Icmpv6Header
    ensures { result ≡ header_of_word type_u8 code_u8 bytes5to8 }
{
    Icmpv6Header {
        icmp_type: Icmpv6Type::from_parts(type_u8, code_u8, wire::u32_to_be(bytes5to8)),
        checksum: 0,
        bytes5to8,
    }
}

// The writer's answer as numbers.
#[inline(always)]
#[tactic(auto, using(crate::proofs::Numbered::numbered), unfolding(crate::specs::Written::written_for))]
pub fn told(answer: Result<usize, Refusal>) -> Written
    ensures { result ≡ written_for (written_told answer) }
{
    // Each arm returns: an answer is then written straight to where it goes (docs/BENCHMARKS.md).
    match answer {
        Ok(length) => return Written {
            answer: c_answer::WRITTEN,
            refusal: 0,
            value: [0; 5],
            length,
        },
        Err(why) => {
            let n = why.numbers();
            let value = n.values;
            return Written {
                answer: c_answer::REFUSED,
                refusal: u32::from(n.number),
                value,
                length: 0,
            };
        }
    }
}

// The same, for `into`.
impl From<Result<usize, Refusal>> for Written {
    ghost use Rattle.std.specs.Prelude.{◌≡◌};
    ghost use Rattle.output.specs.Output.{written_told};
    ghost use Rattle.c_written.specs.Written.{written_for};

    ghost from_gives = { λ answer x. x ≡ written_for (written_told answer) };

    #[inline(always)]
    fn from(answer: Result<usize, Refusal>) -> Written {
        told(answer)
    }
}
