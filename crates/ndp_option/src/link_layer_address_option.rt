// The source and the target link-layer address option (RFC 4861, section 4.6.1): 1 or 2, units, the address.
// For source_ and target_link_layer_address_option_slice.rs, by the tests of the redirected header (docs/DECISIONS.md).
ghost use Rattle.std.specs.Prelude.{◌≡◌};
ghost use Rattle.packet_place.specs.Place.{placed};
ghost use Rattle.ndp_option_read.specs.Rule.{read_told, sized_of, part_from};
ghost use Rattle.ndp_option.specs.LinkLayer.{link_layer_type, link_layer_of};

use refusal::{NdpOptionType, Refusal};

// Whose address it is.
#[derive(Clone, Copy, Debug, PartialEq, Eq)]
pub enum LinkLayerAddressOption {
    Source,
    Target,
}

impl LinkLayerAddressOption {
    // The one of a number, as the calls for C have it: 2 is the target's, every other number the source's.
    pub fn of(number: u32) -> Self
        ensures { result ≡ link_layer_of number }
    {
        match number {
            2 => LinkLayerAddressOption::Target,
            _ => LinkLayerAddressOption::Source,
        }
    }

    pub fn option_type(self) -> NdpOptionType
        ensures { result.0 ≡ link_layer_type self }
    {
        match self {
            LinkLayerAddressOption::Source => NdpOptionType(1),
            LinkLayerAddressOption::Target => NdpOptionType(2),
        }
    }

    pub fn from_slice(self, slice: &[u8], offset: usize) -> Result<usize, Refusal>
        ensures { read_told result ≡ placed offset slice.now (sized_of (link_layer_type self) slice.now) }
    {
        ndp_option_read::sized(self.option_type(), slice, offset)
    }

    // The address with any padding behind it; no bytes if the option is refused.
    pub fn link_layer_address(self, slice: &[u8]) -> &[u8]
        ensures { result.now ≡ part_from 2 (sized_of (link_layer_type self) slice.now) slice.now }
    {
        crate::part(self.from_slice(slice, 0), slice, 2)
    }
}
