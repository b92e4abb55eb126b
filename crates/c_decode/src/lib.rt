// The head of a packet.
#![tactic(auto)]

ghost use Rattle.std.specs.Prelude.{◌≡◌, ◌≤◌, length};
ghost use Rattle.wire.specs.Wire.{bytes32};
ghost use Rattle.icmpv6.specs.Head.{decode_of};
ghost use Rattle.c_decode.specs.Head.{fields_for, head_at, head_for};

use icmpv6_headers::icmp_echo_header::IcmpEchoHeader;
use icmpv6_headers::neighbor_advertisement_header::NeighborAdvertisementHeader;
use icmpv6_headers::router_advertisement_header::RouterAdvertisementHeader;
use message_table::types;

// Type, code and checksum have the width of their bytes, and are what the writer takes. `bytes5to8` is bytes 4 to 7 as they stand.
#[repr(C)]
#[derive(Clone, Copy)]
pub struct Head {
    pub answer: u32,
    pub refusal: u32,
    pub value: [u64; 5],
    pub icmp_type: u8,
    pub code: u8,
    pub checksum: u16,
    pub bytes5to8: u32,
    pub field: [u32; 4],
}

// What a type keeps of bytes 4 to 7. Straight from the number: an Icmpv6Type in between would be made only to be matched again.
fn fields_of(kind: u8, word: u32) -> [u32; 4]
    ensures { result ≡ fields_for kind (bytes32 word) }
{
    match kind {
        types::TYPE_PACKET_TOO_BIG | types::TYPE_PARAMETER_PROBLEM => [word, 0, 0, 0],
        types::TYPE_ECHO_REQUEST | types::TYPE_ECHO_REPLY => {
            let h = IcmpEchoHeader::from_bytes(wire::u32_to_be(word));
            [u32::from(h.id), u32::from(h.seq), 0, 0]
        }
        types::TYPE_ROUTER_ADVERTISEMENT => {
            let h = RouterAdvertisementHeader::from_bytes(wire::u32_to_be(word));
            [
                u32::from(h.cur_hop_limit),
                u32::from(h.managed_address_config),
                u32::from(h.other_config),
                u32::from(h.router_lifetime),
            ]
        }
        types::TYPE_NEIGHBOR_ADVERTISEMENT => {
            let h = NeighborAdvertisementHeader::from_bytes(wire::u32_to_be(word));
            [
                u32::from(h.router),
                u32::from(h.solicited),
                u32::from(h.override_flag),
                0,
            ]
        }
        _ => [0, 0, 0, 0],
    }
}

fn head_of(kind: u8, code: u8, packet: &[u8]) -> Head
    requires { 8 ≤ length packet.now }
    ensures { result ≡ head_at kind code packet.now }
{
    let checksum = wire::u16_from_be(packet[2], packet[3]);
    let word = wire::u32_from_be(packet[4], packet[5], packet[6], packet[7]);
    if message_table::is_known(kind, code) {
        let field = fields_of(kind, word);
        return Head {
            answer: c_answer::KNOWN,
            refusal: 0,
            value: [0, 0, 0, 0, 0],
            icmp_type: kind,
            code,
            checksum,
            bytes5to8: word,
            field,
        };
    }
    Head {
        answer: c_answer::UNKNOWN,
        refusal: 0,
        value: [0, 0, 0, 0, 0],
        icmp_type: kind,
        code,
        checksum,
        bytes5to8: word,
        field: [word, 0, 0, 0],
    }
}

#[unsafe(no_mangle)]
pub extern "C" fn brothladder_decode(packet: &[u8]) -> Head
    ensures { result ≡ head_for (decode_of packet.now) }
{
    // Each arm returns: an answer is then written straight to where it goes (docs/BENCHMARKS.md).
    match packet_length::check_len(packet.len()) {
        Err(why) => {
            let n = why.numbers();
            let value = n.values;
            return Head {
                answer: c_answer::REFUSED,
                refusal: u32::from(n.number),
                value,
                icmp_type: 0,
                code: 0,
                checksum: 0,
                bytes5to8: 0,
                field: [0, 0, 0, 0],
            };
        }
        Ok(()) => return head_of(packet[0], packet[1], packet),
    }
}
