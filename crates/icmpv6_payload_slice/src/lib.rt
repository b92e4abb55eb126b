// What a message is and where its parts are: dispatch of a payload by the value of its head, or of a packet by its bytes. Port of
// icmpv6_payload_slice/mod.rs. Receive check, listing, writer, `diff` and the calls for C but the chain's open a message here and nowhere else.
#![tactic(auto)]

ghost use Rattle.std.specs.Prelude.{◌≡◌, ◌+◌, ◌<◌, ◌≤◌, length, drop, cond};
ghost use Rattle.message_table.specs.Table.{is_ndp};
ghost use Rattle.icmpv6_payload_slice.specs.Dispatch.{payload_kind, payload_kind_number, payload_told, payload_of, kind_at, by_value, by_bytes};
ghost use Rattle.icmpv6_payload_slice.specs.Parts.{addresses, address_part};

use icmpv6_type::Icmpv6Type;
use message_table::types;
use refusal::Refusal;

// The kind of a payload. What its fixed part says is read from the payload (`icmpv6_payload`).
#[derive(Clone, Copy, Debug, PartialEq, Eq)]
pub enum Icmpv6PayloadKind {
    Raw,
    DestinationUnreachable,
    PacketTooBig,
    TimeExceeded,
    ParameterProblem,
    EchoRequest,
    EchoReply,
    RouterSolicitation,
    RouterAdvertisement,
    NeighborSolicitation,
    NeighborAdvertisement,
    Redirect,
}

// A message that was dispatched: its kind, the place of its payload, and that of its options, which are the bytes from there to the end (none of a
// kind that has no options). Places count from the first of the bytes that were dispatched, which stay the caller's. The options are the rest of a
// `Cursor` at `options_at` over the same bytes; of bytes that do not reach that place there is no rest, and a step there is Stopped, never End.
#[derive(Clone, Copy, Debug, PartialEq, Eq)]
pub struct Icmpv6PayloadSlice {
    pub kind: Icmpv6PayloadKind,
    pub payload_at: usize,
    pub options_at: usize,
}

// A number that no message type has: what is not in the table is Raw.
const RAW: u8 = 0;

// The length of the head.
const HEAD_LEN: usize = 8;

// The length of an IPv6 address.
const IPV6_ADDRESS_LEN: usize = 16;

// By a match: Raw has no type.
#[tactic(auto, using(message_table::proofs::Laws::unlisted), unfolding(message_table::specs::Table::known))]
fn kind_of(type_u8: u8) -> Icmpv6PayloadKind
    ensures { payload_kind_number result ≡ payload_kind type_u8 }
{
    match type_u8 {
        types::TYPE_DST_UNREACH => Icmpv6PayloadKind::DestinationUnreachable,
        types::TYPE_PACKET_TOO_BIG => Icmpv6PayloadKind::PacketTooBig,
        types::TYPE_TIME_EXCEEDED => Icmpv6PayloadKind::TimeExceeded,
        types::TYPE_PARAMETER_PROBLEM => Icmpv6PayloadKind::ParameterProblem,
        types::TYPE_ECHO_REQUEST => Icmpv6PayloadKind::EchoRequest,
        types::TYPE_ECHO_REPLY => Icmpv6PayloadKind::EchoReply,
        types::TYPE_ROUTER_SOLICITATION => Icmpv6PayloadKind::RouterSolicitation,
        types::TYPE_ROUTER_ADVERTISEMENT => Icmpv6PayloadKind::RouterAdvertisement,
        types::TYPE_NEIGHBOR_SOLICITATION => Icmpv6PayloadKind::NeighborSolicitation,
        types::TYPE_NEIGHBOR_ADVERTISEMENT => Icmpv6PayloadKind::NeighborAdvertisement,
        types::TYPE_REDIRECT_MESSAGE => Icmpv6PayloadKind::Redirect,
        _ => Icmpv6PayloadKind::Raw,
    }
}

// The place of the options of a type, in bytes that have its fixed part.
fn options_place(type_u8: u8, fixed_end: usize, length: usize) -> usize
    ensures { result ≡ cond (is_ndp type_u8) fixed_end length }
{
    if message_table::is_ndp(type_u8) {
        fixed_end
    } else {
        length
    }
}

// The message of a type in so many bytes, whose payload begins at a place: Raw of a type that the table does not have.
fn from_type(type_u8: u8, length: usize, payload_at: usize) -> Result<Icmpv6PayloadSlice, Refusal>
    requires { payload_at ≤ length }
    ensures { payload_told result ≡ payload_of payload_at type_u8 length }
{
    let needed = message_table::fixed_len(type_u8);
    let present = length - payload_at;
    if present < needed {
        return Err(Refusal::ShortFixedPart { needed, present });
    }
    Ok(Icmpv6PayloadSlice {
        kind: kind_of(type_u8),
        payload_at,
        options_at: options_place(type_u8, payload_at + needed, length),
    })
}

// The type of a packet where the table has it with the packet's code; else 0.
fn kind_at(packet: &[u8]) -> u8
    requires { 8 ≤ length packet.now }
    ensures { result ≡ kind_at packet.now }
{
    if message_table::is_known(packet[0], packet[1]) {
        packet[0]
    } else {
        RAW
    }
}

// How many addresses the fixed part of a kind has: target, then destination.
fn address_count(kind: Icmpv6PayloadKind) -> usize
    ensures { result ≡ addresses (payload_kind_number kind) }
{
    match kind {
        Icmpv6PayloadKind::NeighborSolicitation | Icmpv6PayloadKind::NeighborAdvertisement => 1,
        Icmpv6PayloadKind::Redirect => 2,
        _ => 0,
    }
}

// An address of the fixed part, by its number; no bytes where there is none or the bytes are too few for it.
fn address(kind: Icmpv6PayloadKind, bytes: &[u8], payload_at: usize, i: usize) -> &[u8]
    requires { i < 2 }
    ensures { result.now ≡ address_part payload_at i (payload_kind_number kind) bytes.now }
{
    if address_count(kind) <= i || bytes.len() < payload_at {
        return &bytes[..0];
    }
    let skipped = IPV6_ADDRESS_LEN * i;
    if bytes.len() - payload_at < skipped + IPV6_ADDRESS_LEN {
        return &bytes[..0];
    }
    let from = payload_at + skipped;
    &bytes[from..from + IPV6_ADDRESS_LEN]
}

impl Icmpv6PayloadKind {
    // The type of the message; 0 of Raw.
    pub fn type_u8(self) -> u8
        ensures { result ≡ payload_kind_number self }
    {
        match self {
            Icmpv6PayloadKind::Raw => RAW,
            Icmpv6PayloadKind::DestinationUnreachable => types::TYPE_DST_UNREACH,
            Icmpv6PayloadKind::PacketTooBig => types::TYPE_PACKET_TOO_BIG,
            Icmpv6PayloadKind::TimeExceeded => types::TYPE_TIME_EXCEEDED,
            Icmpv6PayloadKind::ParameterProblem => types::TYPE_PARAMETER_PROBLEM,
            Icmpv6PayloadKind::EchoRequest => types::TYPE_ECHO_REQUEST,
            Icmpv6PayloadKind::EchoReply => types::TYPE_ECHO_REPLY,
            Icmpv6PayloadKind::RouterSolicitation => types::TYPE_ROUTER_SOLICITATION,
            Icmpv6PayloadKind::RouterAdvertisement => types::TYPE_ROUTER_ADVERTISEMENT,
            Icmpv6PayloadKind::NeighborSolicitation => types::TYPE_NEIGHBOR_SOLICITATION,
            Icmpv6PayloadKind::NeighborAdvertisement => types::TYPE_NEIGHBOR_ADVERTISEMENT,
            Icmpv6PayloadKind::Redirect => types::TYPE_REDIRECT_MESSAGE,
        }
    }
}

impl Icmpv6PayloadSlice {
    // By the value of the head and the payload: an Unknown is Raw, whatever pair it names. Places count from the payload's first byte.
    pub fn from_slice(icmp_type: Icmpv6Type, payload: &[u8]) -> Result<Icmpv6PayloadSlice, Refusal>
        ensures { payload_told result ≡ by_value icmp_type payload.now }
    {
        from_type(icmp_type.kind_u8(), payload.len(), 0)
    }

    // By the bytes of a packet: its type and code. Places count from the packet's first byte.
    pub fn from_packet(packet: &[u8]) -> Result<Icmpv6PayloadSlice, Refusal>
        ensures { payload_told result ≡ by_bytes packet.now }
    {
        packet_length::check_len(packet.len())?;
        from_type(kind_at(packet), packet.len(), HEAD_LEN)
    }

    // The target of a neighbor solicitation, a neighbor advertisement or a redirect, in the bytes that were dispatched: 16 bytes, and none of another
    // kind.
    pub fn target_address(self, bytes: &[u8]) -> &[u8]
        ensures { result.now ≡ address_part self.payload_at 0 (payload_kind_number self.kind) bytes.now }
    {
        address(self.kind, bytes, self.payload_at, 0)
    }

    // The destination field of a redirect: 16 bytes, and none of another kind.
    pub fn destination_address(self, bytes: &[u8]) -> &[u8]
        ensures { result.now ≡ address_part self.payload_at 1 (payload_kind_number self.kind) bytes.now }
    {
        address(self.kind, bytes, self.payload_at, 1)
    }
}
