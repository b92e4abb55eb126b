// The receive check of RFC 4861 for Neighbor Discovery (sections 6.1.1, 6.1.2, 7.1.1, 7.1.2 and 8.1); of all other packets the checksum alone is
// tested. A packet is opened once and summed once, and what was opened is handed on. The packet, its hop limit and its addresses stay three
// parameters: of a struct that borrows the packet each promise would name its two moments.
#![tactic(auto)]

ghost use Rattle.std.specs.Prelude.{◌≡◌, not, ◌&&◌, ◌≤◌, eqb, length, get_or, drop};
ghost use Rattle.packet_length.specs.Length.{fits};
ghost use Rattle.message_table.specs.Table.{is_ndp};
ghost use Rattle.icmpv6_payload_slice.specs.Dispatch.{payload_kind_number, payload_told, by_bytes};
ghost use Rattle.receive_rules.specs.Reasons.{first_of, reason_told};
ghost use Rattle.receive.specs.Own.{own_of};
ghost use Rattle.receive.specs.Receive.{option_reasons, reasons, is_sound, reason_of, receive_of};
ghost use Rattle.receive.specs.Told.{received_told, packet_judged_told, judged_of};

use addresses::Addresses;
use checksum::validates;
use icmpv6_payload_slice::{Icmpv6PayloadKind, Icmpv6PayloadSlice};
use message_table::is_ndp;
use ndp_option_list::has_type;
use ndp_options::{Cursor, Edition};
use packet_length::check_len;
use receive_rules::{
    Reason, neighbor_advertisement, neighbor_solicitation, redirect, router_advertisement,
    router_solicitation,
};
use refusal::{NdpOptionType, Refusal};

// A packet that was judged: what it is, whether its checksum is right, and the reason not to receive it. Of a packet whose
// length is refused, which `opened` says, there is none.
#[derive(Clone, Copy, Debug, PartialEq, Eq)]
pub struct Judged {
    pub opened: Result<Icmpv6PayloadSlice, Refusal>,
    pub valid: bool,
    pub reason: Option<Reason>,
}

// The first of a type's own reasons.
#[tactic(auto, unfolding(crate::specs::Own::own_of, receive_rules::specs::Reasons::first_of))]
fn own_reason(
    message: Icmpv6PayloadSlice,
    packet: &[u8],
    addresses: Addresses,
    listed: bool,
) -> Option<Reason>
    requires { (8 ≤ length packet.now) × (message.payload_at ≡ 8) }
    ensures { reason_told result ≡ first_of (own_of (payload_kind_number message.kind) addresses.source addresses.destination packet.now listed) }
{
    match message.kind {
        Icmpv6PayloadKind::RouterSolicitation => router_solicitation(&addresses.source, listed),
        Icmpv6PayloadKind::RouterAdvertisement => router_advertisement(&addresses.source),
        Icmpv6PayloadKind::NeighborSolicitation => {
            neighbor_solicitation(
                &addresses.source,
                &addresses.destination,
                message.target_address(packet),
                listed,
            )
        }
        Icmpv6PayloadKind::NeighborAdvertisement => {
            neighbor_advertisement(
                &addresses.destination,
                packet[4],
                message.target_address(packet),
            )
        }
        Icmpv6PayloadKind::Redirect => redirect(
            &addresses.source,
            message.target_address(packet),
            message.destination_address(packet),
        ),
        _ => None,
    }
}

// The reasons from the options on.
fn option_reason(
    message: Icmpv6PayloadSlice,
    packet: &[u8],
    addresses: Addresses,
    edition: Edition,
) -> Option<Reason>
    requires in_bounds { (8 ≤ length packet.now) × (message.payload_at ≡ 8) }
    requires options_at_in_bounds { (message.options_at ≤ length packet.now) × (length packet.now ≤ 4294967295) }
    ensures { reason_told result ≡ first_of (option_reasons edition (payload_kind_number message.kind) (drop message.options_at packet.now) addresses.source addresses.destination packet.now) }
{
    let at = message.options_at;
    let start = Cursor { at };
    match has_type(start.rest(packet), at, NdpOptionType(1), edition) {
        Ok(listed) => own_reason(message, packet, addresses, listed),
        Err(_) => Some(Reason::Options),
    }
}

// The tests in their order, given the verdict on the checksum: the first that fails.
fn first_reason(
    opened: Result<Icmpv6PayloadSlice, Refusal>,
    valid: bool,
    packet: &[u8],
    hop_limit: u8,
    addresses: Addresses,
    edition: Edition,
) -> Option<Reason>
    requires in_bounds { (8 ≤ length packet.now) × (length packet.now ≤ 4294967295) }
    requires opened_value { (payload_told opened ≡ by_bytes packet.now) × (valid ≡ is_sound addresses.source addresses.destination packet.now) }
    ensures { reason_told result ≡ first_of (reasons edition hop_limit addresses.source addresses.destination packet.now) }
{
    if !is_ndp(packet[0]) {
        return if valid { None } else { Some(Reason::Checksum) };
    }
    if hop_limit != 255 {
        return Some(Reason::HopLimit);
    }
    if !valid {
        return Some(Reason::Checksum);
    }
    if packet[1] != 0 {
        return Some(Reason::Code);
    }
    match opened {
        Ok(message) => option_reason(message, packet, addresses, edition),
        Err(_) => Some(Reason::Length),
    }
}

// Whether a packet is refused for its hop limit, which is known before its sum is.
fn is_far(packet: &[u8], hop_limit: u8) -> bool
    ensures { result ≡ (not (eqb hop_limit 255) && (fits (length packet.now) && is_ndp (get_or packet.now 0 0))) }
{
    if hop_limit == 255 {
        return false;
    }
    // By a match: in one condition the proof did not close.
    match check_len(packet.len()) {
        Ok(()) => is_ndp(packet[0]),
        Err(_) => false,
    }
}

// What a packet is that came under a hop limit, from a source to a destination, whether its checksum is right, and the reason not to receive it.
pub fn judge(packet: &[u8], hop_limit: u8, addresses: Addresses, edition: Edition) -> Judged
    ensures { packet_judged_told result ≡ judged_of edition hop_limit addresses.source addresses.destination packet.now }
{
    // By a match: a length that is refused is told in the answer, which is no `Result`.
    match check_len(packet.len()) {
        Err(why) => Judged {
            opened: Err(why),
            valid: false,
            reason: None,
        },
        Ok(()) => {
            let valid = validates(packet, addresses);
            let opened = Icmpv6PayloadSlice::from_packet(packet);
            Judged {
                opened,
                valid,
                reason: first_reason(opened, valid, packet, hop_limit, addresses, edition),
            }
        }
    }
}

// Whether a packet that came with this hop limit from `source` to `destination` may be used.
pub fn receive_check(
    packet: &[u8],
    hop_limit: u8,
    addresses: Addresses,
    edition: Edition,
) -> Result<Icmpv6PayloadSlice, Refusal>
    ensures { received_told result ≡ receive_of edition hop_limit addresses.source addresses.destination packet.now }
{
    if is_far(packet, hop_limit) {
        return Err(Refusal::NotReceived {
            reason: Reason::HopLimit.number(),
        });
    }
    let judged = judge(packet, hop_limit, addresses, edition);
    match judged.reason {
        Some(reason) => Err(Refusal::NotReceived {
            reason: reason.number(),
        }),
        None => judged.opened,
    }
}
