// The header record: the type value, the checksum field and bytes 4 to 7 as they came in.
ghost use Rattle.std.specs.Prelude.{◌≡◌, ◌∷◌, length};
ghost use Rattle.icmpv6_type.specs.Value.{type_told};
ghost use Rattle.router_preference.specs.Preference.{preference_number};
ghost use Rattle.icmpv6.specs.Preference.{preference_in};
ghost use Rattle.icmpv6.specs.Head.{Clearing, Keeping, by_default, header_told, header_read_told, decode_of, encode_with, encode_by};

use icmpv6_type::Icmpv6Type;
use refusal::Refusal;
use router_preference::RouterPreference;

// Of `bytes5to8`, bytes 4 to 7 as one number, high byte first, the reserved bits alone count; 0 in a header that was made and not read.
#[derive(Clone, Copy, Debug, PartialEq, Eq)]
pub struct Icmpv6Header {
    pub icmp_type: Icmpv6Type,
    pub checksum: u16,
    pub bytes5to8: u32,
}

impl Icmpv6Header {
    // Every header that is known has eight bytes. The crate keeps room for longer ones, and so may whoever lends a buffer by this constant.
    pub const MIN_LEN: usize = packet_length::MIN_LEN;

    pub const MAX_LEN: usize = 40;

    // A header whose checksum is still to be set.
    pub fn new(icmp_type: Icmpv6Type) -> Self
        ensures { header_told result ≡ 0 ∷ 0 ∷ type_told icmp_type }
    {
        Self {
            icmp_type,
            checksum: 0,
            bytes5to8: 0,
        }
    }

    // The header at the start of a packet.
    pub fn from_slice(packet: &[u8]) -> Result<Icmpv6Header, Refusal>
        ensures { header_read_told result ≡ decode_of packet.now }
    {
        packet_length::check_len(packet.len())?;
        let rest = [packet[4], packet[5], packet[6], packet[7]];
        Ok(Self {
            icmp_type: Icmpv6Type::from_parts(packet[0], packet[1], rest),
            checksum: wire::u16_from_be(packet[2], packet[3]),
            bytes5to8: wire::u32_from_be(rest[0], rest[1], rest[2], rest[3]),
        })
    }

    // How many bytes the header is written as. What `from_slice` leaves of the packet is `icmpv6_slice::payload`.
    pub fn header_len(self) -> usize
        ensures { result ≡ length (encode_by by_default self) }
    {
        Icmpv6Header::MIN_LEN
    }

    // The eight bytes of the header with the reserved bits of `kept`.
    fn with_kept(self, kept: u32) -> [u8; 8]
        ensures { result ≡ encode_with kept self }
    {
        let [s, t] = wire::u16_to_be(self.checksum);
        let [a, b, c, d] = self.icmp_type.bytes5to8_keeping(kept);
        [
            self.icmp_type.type_u8(),
            self.icmp_type.code_u8(),
            s,
            t,
            a,
            b,
            c,
            d,
        ]
    }

    // The eight bytes of the header with 0 in every reserved bit, as the crate writes them and as RFC 4861 asks of a sender.
    pub fn to_bytes_clearing(self) -> [u8; 8]
        ensures { result ≡ encode_by Clearing self }
    {
        self.with_kept(0)
    }

    // The eight bytes of the header with the reserved bits that it kept.
    pub fn to_bytes_keeping(self) -> [u8; 8]
        ensures { result ≡ encode_by Keeping self }
    {
        self.with_kept(self.bytes5to8)
    }

    // The eight bytes of the header by the default, which keeps: of a header that was read, the bytes that came in.
    pub fn to_bytes(self) -> [u8; 8]
        ensures { result ≡ encode_by by_default self }
    {
        self.to_bytes_keeping()
    }

    // How far a router advertisement asks that its router be preferred (RFC 4191, section 2.2): two of the bits that it keeps. Medium of a record
    // that was made, and of any other kind. A router lifetime of 0, for which no preference counts, is not looked at.
    pub fn router_preference(self) -> RouterPreference
        ensures { preference_number result ≡ preference_in self }
    {
        match self.icmp_type {
            Icmpv6Type::RouterAdvertisement(_) => {
                let [_, flags, _, _] = wire::u32_to_be(self.bytes5to8);
                RouterPreference::of_flags(flags)
            }
            _ => RouterPreference::Medium,
        }
    }
}
