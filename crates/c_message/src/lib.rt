// A message's own fixed part: its kind, where its addresses and its options are, and the timers of a router advertisement.
#![tactic(auto)]

ghost use Rattle.std.specs.Prelude.{◌≡◌, ◌+◌, ◌≤◌, length};
ghost use Rattle.message_table.specs.Table.{fixed_len};
ghost use Rattle.icmpv6_payload.specs.Owned.{timers_told};
ghost use Rattle.icmpv6_payload_slice.specs.Dispatch.{payload_kind_number, by_bytes};
ghost use Rattle.c_message.specs.Message.{address_place, timers_of, message_for};

use icmpv6_payload::router_advertisement_payload::RouterAdvertisementPayload;
use icmpv6_payload_slice::{Icmpv6PayloadKind, Icmpv6PayloadSlice};

#[repr(C)]
#[derive(Clone, Copy)]
pub struct Message {
    pub answer: u32,
    pub refusal: u32,
    pub value: [u64; 5],
    pub kind: u32,
    pub fixed_length: u32,
    pub reachable_time: u32,
    pub retrans_timer: u32,
    pub target_at: usize,
    pub destination_at: usize,
    pub options_at: usize,
    pub options_length: usize,
}

// Where the target of a kind is in the packet; 0 of a kind that has none.
fn target_place(kind: Icmpv6PayloadKind) -> usize
    ensures { result ≡ address_place 0 (payload_kind_number kind) }
{
    match kind {
        Icmpv6PayloadKind::NeighborSolicitation
        | Icmpv6PayloadKind::NeighborAdvertisement
        | Icmpv6PayloadKind::Redirect => 8,
        _ => 0,
    }
}

// Where the destination field of a kind is in the packet; 0 of a kind that has none.
fn destination_place(kind: Icmpv6PayloadKind) -> usize
    ensures { result ≡ address_place 1 (payload_kind_number kind) }
{
    match kind {
        Icmpv6PayloadKind::Redirect => 24,
        _ => 0,
    }
}

// The timers of a router advertisement; 0 both of another kind.
#[tactic(auto, unfolding(message_table::specs::Table::fixed_len))]
fn timers_in(kind: Icmpv6PayloadKind, packet: &[u8]) -> RouterAdvertisementPayload
    requires { 8 + fixed_len (payload_kind_number kind) ≤ length packet.now }
    ensures { timers_told result ≡ timers_of (payload_kind_number kind) packet.now }
{
    match kind {
        Icmpv6PayloadKind::RouterAdvertisement => RouterAdvertisementPayload::from_bytes([
            packet[8], packet[9], packet[10], packet[11], packet[12], packet[13], packet[14],
            packet[15],
        ]),
        _ => RouterAdvertisementPayload {
            reachable_time: 0,
            retrans_timer: 0,
        },
    }
}

#[unsafe(no_mangle)]
pub extern "C" fn brothladder_read_message(packet: &[u8]) -> Message
    ensures { result ≡ message_for packet.now (by_bytes packet.now) }
{
    // Each arm returns: an answer is then written straight to where it goes (docs/BENCHMARKS.md).
    match Icmpv6PayloadSlice::from_packet(packet) {
        Ok(message) => {
            let number = message.kind.type_u8();
            let timers = timers_in(message.kind, packet);
            return Message {
                answer: c_answer::MESSAGE,
                refusal: 0,
                value: [0, 0, 0, 0, 0],
                kind: u32::from(number),
                fixed_length: message_table::fixed_len(number) as u32,
                reachable_time: timers.reachable_time,
                retrans_timer: timers.retrans_timer,
                target_at: target_place(message.kind),
                destination_at: destination_place(message.kind),
                options_at: message.options_at,
                options_length: packet.len() - message.options_at,
            };
        }
        Err(why) => {
            let n = why.numbers();
            let value = n.values;
            return Message {
                answer: c_answer::REFUSED,
                refusal: u32::from(n.number),
                value,
                kind: 0,
                fixed_length: 0,
                reachable_time: 0,
                retrans_timer: 0,
                target_at: 0,
                destination_at: 0,
                options_at: 0,
                options_length: 0,
            };
        }
    }
}
