// Refusals 1 and 2: every call that reads a whole packet first tests its length with this one (docs/RULES.md H4).
#![tactic(auto)]

ghost use Rattle.std.specs.Prelude.{◌≡◌, []};
ghost use Rattle.paper.specs.Paper.{gives};
ghost use Rattle.packet_length.specs.Length.{sized, length_told};

use refusal::Refusal;

// The shortest packet: its head.
pub const MIN_LEN: usize = 8;

// The longest packet: what the pseudo-header's length field of 32 bits can say.
pub const MAX_ICMPV6_BYTE_LEN: usize = 4294967295;

#[tactic(auto, unfolding(crate::specs::Length::sized))]
pub fn check_len(length: usize) -> Result<(), Refusal>
    ensures { length_told result ≡ sized length (gives []) }
{
    if length < MIN_LEN {
        return Err(Refusal::ShortPacket {
            least: MIN_LEN,
            length,
        });
    }
    if MAX_ICMPV6_BYTE_LEN < length {
        return Err(Refusal::LongPacket {
            limit: MAX_ICMPV6_BYTE_LEN,
            length,
        });
    }
    Ok(())
}
