// The packet writer (docs/RULES.md T1 to T5, T9, T10): a header record, both addresses and a payload, into a lent buffer.
#![tactic(auto)]

ghost use Rattle.std.specs.Prelude.{◌≡◌};
ghost use Rattle.icmpv6_type.specs.Reserved.{misnamed};
ghost use Rattle.icmpv6.specs.Head.{Clearing, Keeping, by_default};
ghost use Rattle.output.specs.Output.{written_told};
ghost use Rattle.writer.specs.Write.{sendable_told, sendable_of, write_of, output_by};

use addresses::Addresses;
use icmpv6::icmpv6_header::Icmpv6Header;
use icmpv6_payload_slice::Icmpv6PayloadSlice;
use icmpv6_type::Icmpv6Type;
use ndp_options::{Cursor, Edition};
use refusal::Refusal;

// What an IPv6 packet without a jumbo option leaves after the head.
pub const MAX_PAYLOAD_LEN: usize = 65527;

// Whether a value is an Unknown that names a known pair.
fn names_known_pair(icmp_type: Icmpv6Type) -> bool
    ensures { result ≡ misnamed icmp_type }
{
    icmp_type.kind_u8() == 0 && message_table::is_known(icmp_type.type_u8(), icmp_type.code_u8())
}

// Whether a payload may be sent behind a value's head: refusals 10, 3, 4, and the walk's 5 to 7 and 18, in this order (docs/RULES.md T2). A kind
// without a fixed part lacks none of it, and one without options walks clean.
#[tactic(auto, using(crate::proofs::Laws::refused_first), unfolding(crate::specs::Write::sendable_of))]
pub fn check(icmp_type: Icmpv6Type, payload: &[u8], edition: Edition) -> Result<(), Refusal>
    ensures { sendable_told result ≡ sendable_of edition icmp_type payload.now }
{
    if names_known_pair(icmp_type) {
        return Err(Refusal::KnownPair {
            kind: icmp_type.type_u8(),
            code: icmp_type.code_u8(),
        });
    }
    let length = payload.len();
    if MAX_PAYLOAD_LEN < length {
        return Err(Refusal::LongPayload {
            limit: MAX_PAYLOAD_LEN,
            length,
        });
    }
    let part = Icmpv6PayloadSlice::from_slice(icmp_type, payload)?;
    // Its rest, and not a part of the payload, whose length the compiled walk would take anew at each step.
    let start = Cursor {
        at: part.options_at,
    };
    // Their place in the packet: behind the head too.
    let place = 8 + part.options_at;
    ndp_option_list::count(start.rest(payload), place, edition)?;
    Ok(())
}

// Writes a packet at the start of the output, with the reserved bits that the header kept, and returns its length. A refusal leaves every byte as it
// was.
fn write_kept(
    header: Icmpv6Header,
    addresses: Addresses,
    payload: &[u8],
    out: &mut [u8],
    edition: Edition,
) -> Result<usize, Refusal>
    ensures answers { written_told result ≡ write_of edition header.icmp_type payload.now out.old }
    ensures lent { out.new ≡ output_by edition Keeping header addresses.source addresses.destination payload.now out.old }
{
    check(header.icmp_type, payload, edition)?;
    let needed = 8 + payload.len();
    if out.len() < needed {
        return Err(Refusal::ShortOutput { needed });
    }
    let mut head = header.to_bytes_keeping();
    // Never refused: the payload is within the sum's limit.
    let sum = checksum::checksum_of(head, payload, addresses)?;
    head[2..4].copy_from_slice(&wire::u16_to_be(sum));
    let _ = output::put(out, 0, &head);
    output::put(out, 8, payload)
}

// Writes a packet at the start of the output, with 0 in every reserved bit, and returns its length. A refusal leaves every byte as it was.
pub fn write_packet_clearing(
    header: Icmpv6Header,
    addresses: Addresses,
    payload: &[u8],
    out: &mut [u8],
    edition: Edition,
) -> Result<usize, Refusal>
    ensures answers { written_told result ≡ write_of edition header.icmp_type payload.now out.old }
    ensures lent { out.new ≡ output_by edition Clearing header addresses.source addresses.destination payload.now out.old }
{
    let nothing_kept = Icmpv6Header {
        bytes5to8: 0,
        ..header
    };
    write_kept(nothing_kept, addresses, payload, out, edition)
}

// The same with the reserved bits that the header kept.
pub fn write_packet_keeping(
    header: Icmpv6Header,
    addresses: Addresses,
    payload: &[u8],
    out: &mut [u8],
    edition: Edition,
) -> Result<usize, Refusal>
    ensures answers { written_told result ≡ write_of edition header.icmp_type payload.now out.old }
    ensures lent { out.new ≡ output_by edition Keeping header addresses.source addresses.destination payload.now out.old }
{
    write_kept(header, addresses, payload, out, edition)
}

// The same by the default, which keeps: a packet that was read and is passed on comes out as it came in, but for its checksum.
pub fn write_packet(
    header: Icmpv6Header,
    addresses: Addresses,
    payload: &[u8],
    out: &mut [u8],
    edition: Edition,
) -> Result<usize, Refusal>
    ensures answers { written_told result ≡ write_of edition header.icmp_type payload.now out.old }
    ensures lent { out.new ≡ output_by edition by_default header addresses.source addresses.destination payload.now out.old }
{
    write_packet_keeping(header, addresses, payload, out, edition)
}
