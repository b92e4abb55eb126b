// The value of a packet's eight-byte head, without the checksum.
#![tactic(auto)]

ghost use Rattle.std.specs.Prelude.{◌≡◌};
ghost use Rattle.wire.specs.Wire.{bytes32};
ghost use Rattle.icmpv6_type.specs.Value.{type_told, type_of, kind_number, type_number, code_number, field_bytes};
ghost use Rattle.icmpv6_type.specs.Reserved.{keeping};

use icmpv6_codes::dest_unreachable_code::DestUnreachableCode;
use icmpv6_codes::parameter_problem_code::ParameterProblemCode;
use icmpv6_codes::time_exceeded_code::TimeExceededCode;
use icmpv6_headers::icmp_echo_header::IcmpEchoHeader;
use icmpv6_headers::neighbor_advertisement_header::NeighborAdvertisementHeader;
use icmpv6_headers::router_advertisement_header::RouterAdvertisementHeader;
use message_table::types;

// A parameter problem: its code, and the place of the error in the packet that caused it.
#[derive(Clone, Copy, Debug, PartialEq, Eq)]
pub struct ParameterProblemHeader {
    pub code: ParameterProblemCode,
    pub pointer: u32,
}

// Unknown keeps type, code and bytes 4 to 7, these as one number, high byte first.
#[derive(Clone, Copy, Debug, PartialEq, Eq)]
pub enum Icmpv6Type {
    Unknown {
        type_u8: u8,
        code_u8: u8,
        bytes5to8: u32,
    },
    DestinationUnreachable(DestUnreachableCode),
    PacketTooBig {
        mtu: u32,
    },
    TimeExceeded(TimeExceededCode),
    ParameterProblem(ParameterProblemHeader),
    EchoRequest(IcmpEchoHeader),
    EchoReply(IcmpEchoHeader),
    RouterSolicitation,
    RouterAdvertisement(RouterAdvertisementHeader),
    NeighborSolicitation,
    NeighborAdvertisement(NeighborAdvertisementHeader),
    Redirect,
}

impl Icmpv6Type {
    // The value of a type, a code and bytes 4 to 7; a pair that the table does not have is Unknown.
    #[tactic(auto, unfolding(crate::specs::Value::type_of))]
    pub fn from_parts(type_u8: u8, code_u8: u8, bytes5to8: [u8; 4]) -> Icmpv6Type
        ensures { type_told result ≡ type_of type_u8 code_u8 bytes5to8 }
    {
        let all = wire::u32_from_be(bytes5to8[0], bytes5to8[1], bytes5to8[2], bytes5to8[3]);
        let other = Icmpv6Type::Unknown {
            type_u8,
            code_u8,
            bytes5to8: all,
        };
        if !message_table::is_known(type_u8, code_u8) {
            return other;
        }
        match type_u8 {
            types::TYPE_DST_UNREACH => match DestUnreachableCode::from_u8(code_u8) {
                Some(code) => Icmpv6Type::DestinationUnreachable(code),
                // Never: the table has no other code of this type.
                None => other,
            },
            types::TYPE_PACKET_TOO_BIG => Icmpv6Type::PacketTooBig { mtu: all },
            types::TYPE_TIME_EXCEEDED => match TimeExceededCode::from_u8(code_u8) {
                Some(code) => Icmpv6Type::TimeExceeded(code),
                // Never: the table has no other code of this type.
                None => other,
            },
            types::TYPE_PARAMETER_PROBLEM => match ParameterProblemCode::from_u8(code_u8) {
                Some(code) => Icmpv6Type::ParameterProblem(ParameterProblemHeader {
                    code,
                    pointer: all,
                }),
                // Never: the table has no other code of this type.
                None => other,
            },
            types::TYPE_ECHO_REQUEST => Icmpv6Type::EchoRequest(IcmpEchoHeader::from_bytes(
                bytes5to8,
            )),
            types::TYPE_ECHO_REPLY => Icmpv6Type::EchoReply(IcmpEchoHeader::from_bytes(bytes5to8)),
            types::TYPE_ROUTER_SOLICITATION => Icmpv6Type::RouterSolicitation,
            types::TYPE_ROUTER_ADVERTISEMENT => Icmpv6Type::RouterAdvertisement(
                RouterAdvertisementHeader::from_bytes(bytes5to8),
            ),
            types::TYPE_NEIGHBOR_SOLICITATION => Icmpv6Type::NeighborSolicitation,
            types::TYPE_NEIGHBOR_ADVERTISEMENT => Icmpv6Type::NeighborAdvertisement(
                NeighborAdvertisementHeader::from_bytes(bytes5to8),
            ),
            types::TYPE_REDIRECT_MESSAGE => Icmpv6Type::Redirect,
            // Never: the table has no other type.
            _ => other,
        }
    }

    // The first byte of the head.
    pub fn type_u8(self) -> u8
        ensures { result ≡ type_number self }
    {
        match self {
            Icmpv6Type::Unknown { type_u8, .. } => type_u8,
            Icmpv6Type::DestinationUnreachable(_) => types::TYPE_DST_UNREACH,
            Icmpv6Type::PacketTooBig { .. } => types::TYPE_PACKET_TOO_BIG,
            Icmpv6Type::TimeExceeded(_) => types::TYPE_TIME_EXCEEDED,
            Icmpv6Type::ParameterProblem(_) => types::TYPE_PARAMETER_PROBLEM,
            Icmpv6Type::EchoRequest(_) => types::TYPE_ECHO_REQUEST,
            Icmpv6Type::EchoReply(_) => types::TYPE_ECHO_REPLY,
            Icmpv6Type::RouterSolicitation => types::TYPE_ROUTER_SOLICITATION,
            Icmpv6Type::RouterAdvertisement(_) => types::TYPE_ROUTER_ADVERTISEMENT,
            Icmpv6Type::NeighborSolicitation => types::TYPE_NEIGHBOR_SOLICITATION,
            Icmpv6Type::NeighborAdvertisement(_) => types::TYPE_NEIGHBOR_ADVERTISEMENT,
            Icmpv6Type::Redirect => types::TYPE_REDIRECT_MESSAGE,
        }
    }

    // The kind of the value: its type, or 0 if it is Unknown, whatever type that names.
    pub fn kind_u8(self) -> u8
        ensures { result ≡ kind_number self }
    {
        match self {
            Icmpv6Type::Unknown { .. } => 0,
            _ => self.type_u8(),
        }
    }

    // The second byte of the head.
    pub fn code_u8(self) -> u8
        ensures { result ≡ code_number self }
    {
        match self {
            Icmpv6Type::Unknown { code_u8, .. } => code_u8,
            Icmpv6Type::DestinationUnreachable(code) => code.code_u8(),
            Icmpv6Type::TimeExceeded(code) => code.code_u8(),
            Icmpv6Type::ParameterProblem(header) => header.code.code_u8(),
            Icmpv6Type::EchoRequest(_)
            | Icmpv6Type::EchoReply(_)
            | Icmpv6Type::RouterSolicitation
            | Icmpv6Type::RouterAdvertisement(_)
            | Icmpv6Type::NeighborSolicitation
            | Icmpv6Type::NeighborAdvertisement(_)
            | Icmpv6Type::Redirect
            | Icmpv6Type::PacketTooBig { .. } => 0,
        }
    }

    // Bytes 4 to 7 of the head as they are written. Reserved bits are 0.
    pub fn bytes5to8(self) -> [u8; 4]
        ensures { result ≡ field_bytes self }
    {
        match self {
            Icmpv6Type::Unknown { bytes5to8, .. } => wire::u32_to_be(bytes5to8),
            Icmpv6Type::PacketTooBig { mtu } => wire::u32_to_be(mtu),
            Icmpv6Type::ParameterProblem(header) => wire::u32_to_be(header.pointer),
            Icmpv6Type::EchoRequest(echo) | Icmpv6Type::EchoReply(echo) => echo.to_bytes(),
            Icmpv6Type::RouterAdvertisement(header) => header.to_bytes(),
            Icmpv6Type::NeighborAdvertisement(header) => header.to_bytes(),
            Icmpv6Type::DestinationUnreachable(_)
            | Icmpv6Type::TimeExceeded(_)
            | Icmpv6Type::RouterSolicitation
            | Icmpv6Type::NeighborSolicitation
            | Icmpv6Type::Redirect => [0, 0, 0, 0],
        }
    }

    // The same with the reserved bits of `kept`, bytes 4 to 7 as one number. A bit that the value names is written from the value.
    pub fn bytes5to8_keeping(self, kept: u32) -> [u8; 4]
        ensures { result ≡ keeping self (bytes32 kept) }
    {
        let f = self.bytes5to8();
        let k = wire::u32_to_be(kept);
        match self {
            Icmpv6Type::DestinationUnreachable(_)
            | Icmpv6Type::TimeExceeded(_)
            | Icmpv6Type::RouterSolicitation
            | Icmpv6Type::NeighborSolicitation
            | Icmpv6Type::Redirect => k,
            Icmpv6Type::RouterAdvertisement(_) => [f[0], f[1] + k[1] % 64, f[2], f[3]],
            Icmpv6Type::NeighborAdvertisement(_) => [f[0] + k[0] % 32, k[1], k[2], k[3]],
            // These name every bit.
            Icmpv6Type::Unknown { .. }
            | Icmpv6Type::PacketTooBig { .. }
            | Icmpv6Type::ParameterProblem(_)
            | Icmpv6Type::EchoRequest(_)
            | Icmpv6Type::EchoReply(_) => f,
        }
    }
}
