// Places in the whole packet (docs/RULES.md A1 to A3): option bytes come with the offset at which they begin there, and refusal 22 is given where
// a place in them could be past the last that a packet has.
#![tactic(auto)]

ghost use Rattle.std.specs.Prelude.{◌≡◌};
ghost use Rattle.packet_place.specs.Place.{is_far};

use packet_length::MAX_ICMPV6_BYTE_LEN;

// Whether so many bytes at an offset reach beyond the longest packet. Nothing is added up, so a far offset does not wrap.
pub fn is_far(offset: usize, length: usize) -> bool
    ensures { result ≡ is_far offset length }
{
    MAX_ICMPV6_BYTE_LEN < offset || MAX_ICMPV6_BYTE_LEN - offset < length
}
