// The header of every Neighbor Discovery option (RFC 4861, section 4.6): type and length, a byte each.
// Port of ndp_option/ndp_option_header.rs.
#![tactic(auto)]

ghost use Rattle.std.specs.Prelude.{◌≡◌, drop};
ghost use Rattle.packet_place.specs.Place.{placed};
ghost use Rattle.ndp_option_header.specs.Header.{unit_bytes, header_bytes, option_header_told, header_of};

use refusal::{LengthUnits, NdpOptionType, Refusal};

pub const NDP_OPTION_HEADER_LEN: usize = 2;

#[derive(Clone, Copy, Debug, PartialEq, Eq)]
pub struct NdpOptionHeader {
    pub option_type: NdpOptionType,
    pub length_units: LengthUnits,
}

impl NdpOptionHeader {
    pub fn from_bytes(bytes: [u8; 2]) -> Self
        ensures { header_bytes result ≡ bytes }
    {
        NdpOptionHeader {
            option_type: NdpOptionType(bytes[0]),
            length_units: LengthUnits(bytes[1]),
        }
    }

    pub fn to_bytes(self) -> [u8; 2]
        ensures { result ≡ header_bytes self }
    {
        [self.option_type.0, self.length_units.0]
    }

    // The header at the start of a slice, whose first byte is at an offset of the packet.
    pub fn from_slice(slice: &[u8], offset: usize) -> Result<(NdpOptionHeader, usize), Refusal>
        ensures { option_header_told result ≡ placed offset slice.now (header_of slice.now) }
    {
        let length = slice.len();
        if packet_place::is_far(offset, length) {
            return Err(Refusal::FarOffset);
        }
        if length < NDP_OPTION_HEADER_LEN {
            return Err(Refusal::UnexpectedSize {
                id: NdpOptionType(slice.first().copied().unwrap_or(0)),
                expected: NDP_OPTION_HEADER_LEN,
                actual: length,
                place: offset,
            });
        }
        Ok((NdpOptionHeader::from_bytes([slice[0], slice[1]]), offset))
    }

    // The bytes of the whole option. Nothing else turns units into bytes.
    pub fn byte_len(self) -> usize
        ensures { result ≡ unit_bytes self.length_units.0 }
    {
        usize::from(self.length_units.0) * 8
    }
}

// The bytes behind the header; none if the header is not whole.
pub fn behind_header(slice: &[u8]) -> &[u8]
    ensures { result.now ≡ drop 2 slice.now }
{
    if NDP_OPTION_HEADER_LEN <= slice.len() {
        &slice[2..]
    } else {
        &slice[..0]
    }
}
