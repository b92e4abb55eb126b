// The calls of compare/FORMAT.md: their numbers, their names, and what the library answers.
use crate::numbers::{Told, before_place};
use crate::{lists, numbers, options, payload, types, walk};

// How far an answer is compared.
#[derive(Clone, Copy, Debug, PartialEq, Eq)]
pub(crate) enum Compared {
    Whole,
    // Up to the first reader that the excerpt does not have.
    ToAbsent,
}

#[derive(Clone, Copy, Debug, PartialEq, Eq)]
pub(crate) enum Call {
    Packet,
    IcmpType,
    HeaderToBytes,
    RouterFromBytes,
    RouterToBytes,
    OptionHeaderFromSlice,
    OptionHeaderBytes,
    PrefixFromSlice,
    PrefixFromBytes,
    PrefixToBytes,
    Mtu,
    RedirectedHeader,
    Walk(Compared),
    PayloadOfType(Compared),
    PayloadOfPacket(Compared),
    RouterAdvertisement,
    Redirect,
    Counted,
    HasType,
    // Of a number that no call has.
    Another,
}

impl Call {
    pub(crate) fn of_number(number: u8) -> Call {
        match number {
            1 => Call::Packet,
            2 => Call::IcmpType,
            3 => Call::HeaderToBytes,
            4 => Call::RouterFromBytes,
            5 => Call::RouterToBytes,
            6 => Call::OptionHeaderFromSlice,
            7 => Call::OptionHeaderBytes,
            8 => Call::PrefixFromSlice,
            9 => Call::PrefixFromBytes,
            10 => Call::PrefixToBytes,
            11 => Call::Mtu,
            12 => Call::RedirectedHeader,
            13 => Call::Walk(Compared::Whole),
            14 => Call::Walk(Compared::ToAbsent),
            15 => Call::PayloadOfType(Compared::Whole),
            16 => Call::PayloadOfType(Compared::ToAbsent),
            17 => Call::PayloadOfPacket(Compared::Whole),
            18 => Call::PayloadOfPacket(Compared::ToAbsent),
            19 => Call::RouterAdvertisement,
            20 => Call::Redirect,
            21 => Call::Counted,
            22 => Call::HasType,
            _ => Call::Another,
        }
    }

    pub(crate) fn name(self) -> &'static str {
        match self {
            Call::Packet => "Icmpv6Slice",
            Call::IcmpType => "Icmpv6Slice::icmp_type",
            Call::HeaderToBytes => "Icmpv6Header::to_bytes",
            Call::RouterFromBytes => "RouterAdvertisementHeader::from_bytes",
            Call::RouterToBytes => "RouterAdvertisementHeader::to_bytes",
            Call::OptionHeaderFromSlice => "NdpOptionHeader::from_slice",
            Call::OptionHeaderBytes => "NdpOptionHeader::from_bytes, to_bytes, byte_len",
            Call::PrefixFromSlice => "PrefixInformation::from_slice",
            Call::PrefixFromBytes => "PrefixInformation::from_bytes",
            Call::PrefixToBytes => "PrefixInformation::to_bytes",
            Call::Mtu => "MtuOptionSlice",
            Call::RedirectedHeader => "RedirectedHeaderOptionSlice",
            Call::Walk(Compared::Whole) => "NdpOptionsIterator",
            Call::Walk(Compared::ToAbsent) => "NdpOptionsIterator up to an absent reader",
            Call::PayloadOfType(Compared::Whole) => "Icmpv6PayloadSlice::from_slice",
            Call::PayloadOfType(Compared::ToAbsent) => {
                "Icmpv6PayloadSlice::from_slice up to an absent reader"
            }
            Call::PayloadOfPacket(Compared::Whole) => "Icmpv6Slice::payload_slice",
            Call::PayloadOfPacket(Compared::ToAbsent) => {
                "Icmpv6Slice::payload_slice up to an absent reader"
            }
            Call::RouterAdvertisement => "RouterAdvertisementPayloadSlice",
            Call::Redirect => "RedirectPayloadSlice",
            Call::Counted => "NdpOptionsIterator, counted",
            Call::HasType => "NdpOptionsIterator, a type looked for",
            Call::Another => "another call",
        }
    }

    // What the library answers; nothing of a walk, which is met step by step.
    fn told(self, input: &[u8], offset: usize) -> Option<Told> {
        match self {
            Call::Packet => types::packet(input),
            Call::IcmpType => types::icmp_type(input),
            Call::HeaderToBytes => types::header_to_bytes(input),
            Call::RouterFromBytes => types::router_from_bytes(input),
            Call::RouterToBytes => types::router_to_bytes(input),
            Call::OptionHeaderFromSlice => {
                before_place(options::header_from_slice(input, offset), offset)
            }
            Call::OptionHeaderBytes => options::header_bytes(input),
            Call::PrefixFromSlice => before_place(
                options::prefix_from_slice(input, offset),
                offset,
            ),
            Call::PrefixFromBytes => before_place(
                options::prefix_from_bytes(input, offset),
                offset,
            ),
            Call::PrefixToBytes => options::prefix_to_bytes(input),
            Call::Mtu => before_place(options::mtu(input, offset), offset),
            Call::RedirectedHeader => before_place(
                options::redirected_header(input, offset),
                offset,
            ),
            Call::PayloadOfType(compared) => payload::of_type(input, compared),
            Call::PayloadOfPacket(compared) => payload::of_packet(input, compared),
            Call::RouterAdvertisement => payload::of_advertisement(input),
            Call::Redirect => payload::of_redirect(input),
            Call::Counted => lists::counted(input, offset),
            Call::HasType => lists::has_type(input, offset),
            Call::Walk(_) | Call::Another => None,
        }
    }

    // Whether the library's answer to an input at an offset of the packet is the one of the vector.
    pub(crate) fn is_met(self, input: &[u8], offset: usize, answer: &[u8]) -> bool {
        match self {
            Call::Walk(compared) => walk::is_met(input, offset, answer, compared),
            _ => numbers::is_met(answer, self.told(input, offset)),
        }
    }
}
