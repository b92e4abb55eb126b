// The redirected header option (RFC 4861, section 4.6.3): 4, units, six reserved bytes, the start of the packet.
// Port of redirected_header_option_slice.rs.
ghost use Rattle.std.specs.Prelude.{◌≡◌};
ghost use Rattle.packet_place.specs.Place.{placed};
ghost use Rattle.ndp_option_read.specs.Rule.{read_told, sized_of, part_from};

use refusal::{NdpOptionType, Refusal};

const REDIRECTED_HEADER: NdpOptionType = NdpOptionType(4);

const FIXED_PART_LEN: usize = 8;

pub fn from_slice(slice: &[u8], offset: usize) -> Result<usize, Refusal>
    ensures { read_told result ≡ placed offset slice.now (sized_of 4 slice.now) }
{
    ndp_option_read::sized(REDIRECTED_HEADER, slice, offset)
}

// The redirected packet with any padding behind it; no bytes if the option is refused.
pub fn redirected_packet(slice: &[u8]) -> &[u8]
    ensures { result.now ≡ part_from 8 (sized_of 4 slice.now) slice.now }
{
    crate::part(from_slice(slice, 0), slice, FIXED_PART_LEN)
}
