// The prefix information option (RFC 4861, section 4.6.2). Port of prefix_information.rs.
#![tactic(auto)]

ghost use Rattle.std.specs.Prelude.{◌≡◌, length, drop};
ghost use Rattle.prefix_information.specs.Prefix.{prefix_told, prefix_of32, prefix_of, information_at, bytes_of};

use refusal::{LengthUnits, NdpOptionType, Refusal};

const PREFIX_INFORMATION: NdpOptionType = NdpOptionType(3);

const LENGTH_UNITS: LengthUnits = LengthUnits(4);

const ON_LINK_MASK: u8 = 128;

const AUTONOMOUS_ADDRESS_CONFIGURATION_MASK: u8 = 64;

#[derive(Clone, Copy, Debug, PartialEq, Eq)]
pub struct PrefixInformation {
    // How many leading bits of the prefix are valid. Not tested: it may be above 128.
    pub prefix_length: u8,
    pub on_link: bool,
    pub autonomous_address_configuration: bool,
    // Both in seconds.
    pub valid_lifetime: u32,
    pub preferred_lifetime: u32,
    pub prefix: [u8; 16],
}

impl PrefixInformation {
    // What the option says, and its place in the packet.
    pub fn from_bytes(bytes: [u8; 32], offset: usize) -> Result<(PrefixInformation, usize), Refusal>
        ensures { prefix_told result ≡ prefix_of32 offset bytes }
    {
        PrefixInformation::from_slice(&bytes, offset)
    }

    // The option whose first byte is at an offset of the packet.
    pub fn from_slice(slice: &[u8], offset: usize) -> Result<(PrefixInformation, usize), Refusal>
        ensures { prefix_told result ≡ prefix_of offset slice.now }
    {
        let place = ndp_option_read::exactly(PREFIX_INFORMATION, LENGTH_UNITS, slice, offset)?;
        Ok((information_in(slice), place))
    }

    // Byte by byte, as the option is drawn in the RFC (section 4.6.2): by slices it would be no plainer.
    pub fn to_bytes(self) -> [u8; 32]
        ensures { result ≡ bytes_of self }
    {
        let flags = wire::flag_of(self.on_link, ON_LINK_MASK)
            + wire::flag_of(
                self.autonomous_address_configuration,
                AUTONOMOUS_ADDRESS_CONFIGURATION_MASK,
            );
        let valid = wire::u32_to_be(self.valid_lifetime);
        let preferred = wire::u32_to_be(self.preferred_lifetime);
        let prefix = self.prefix;
        [
            3,
            4,
            self.prefix_length,
            flags,
            valid[0],
            valid[1],
            valid[2],
            valid[3],
            preferred[0],
            preferred[1],
            preferred[2],
            preferred[3],
            0,
            0,
            0,
            0,
            prefix[0],
            prefix[1],
            prefix[2],
            prefix[3],
            prefix[4],
            prefix[5],
            prefix[6],
            prefix[7],
            prefix[8],
            prefix[9],
            prefix[10],
            prefix[11],
            prefix[12],
            prefix[13],
            prefix[14],
            prefix[15],
        ]
    }
}

// The contents of 32 bytes, whatever their header. Reserved bits are dropped.
fn information_in(slice: &[u8]) -> PrefixInformation
    requires { length slice.now ≡ 32 }
    ensures { result ≡ information_at slice.now }
{
    let flags = slice[3];
    PrefixInformation {
        prefix_length: slice[2],
        on_link: wire::has_flag(flags, ON_LINK_MASK),
        autonomous_address_configuration: wire::has_flag(
            flags,
            AUTONOMOUS_ADDRESS_CONFIGURATION_MASK,
        ),
        valid_lifetime: wire::u32_from_be(slice[4], slice[5], slice[6], slice[7]),
        preferred_lifetime: wire::u32_from_be(slice[8], slice[9], slice[10], slice[11]),
        prefix: prefix_in(slice),
    }
}

// The last 16 bytes of 32, each by its place: of a `copy_from_slice` the compiler makes a copy below the stack pointer, which a kernel may not have.
fn prefix_in(slice: &[u8]) -> [u8; 16]
    requires { length slice.now ≡ 32 }
    ensures { result ≡ drop 16 slice.now }
{
    [
        slice[16], slice[17], slice[18], slice[19], slice[20], slice[21], slice[22], slice[23],
        slice[24], slice[25], slice[26], slice[27], slice[28], slice[29], slice[30], slice[31],
    ]
}
