// The MTU option (RFC 4861, section 4.6.4): 5, 1, two reserved bytes, the MTU. Port of mtu_option_slice.rs.
ghost use Rattle.std.specs.Prelude.{◌≡◌};
ghost use Rattle.packet_place.specs.Place.{placed};
ghost use Rattle.ndp_option.specs.Mtu.{mtu_told, mtu_of};

use refusal::{LengthUnits, NdpOptionType, Refusal};

const MTU: NdpOptionType = NdpOptionType(5);

const LENGTH_UNITS: LengthUnits = LengthUnits(1);

#[derive(Clone, Copy, Debug, PartialEq, Eq)]
pub struct MtuOption {
    pub mtu: u32,
    pub place: usize,
}

impl MtuOption {
    pub fn from_slice(slice: &[u8], offset: usize) -> Result<MtuOption, Refusal>
        ensures { mtu_told result ≡ placed offset slice.now (mtu_of slice.now) }
    {
        let place = ndp_option_read::exactly(MTU, LENGTH_UNITS, slice, offset)?;
        let mtu = wire::u32_from_be(slice[4], slice[5], slice[6], slice[7]);
        Ok(MtuOption { mtu, place })
    }
}
