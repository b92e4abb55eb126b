// The packet writer in place (docs/RULES.md T13): the payload stands in the lent packet already, behind eight bytes that the head is written to.
#![tactic(auto)]

ghost use Rattle.std.specs.Prelude.{◌≡◌, ◌+◌, ◌≤◌, [], ◌∷◌, length, drop};
ghost use Rattle.paper.specs.Paper.{refuses, ◌or_else◌};
ghost use Rattle.icmpv6.specs.Head.{Clearing, Keeping, by_default};
ghost use Rattle.output.specs.Output.{written_told};
ghost use Rattle.writer.specs.Write.{sendable_of, sealed_head, write_of, output_by};

use addresses::Addresses;
use icmpv6::icmpv6_header::Icmpv6Header;
use ndp_options::Edition;
use refusal::Refusal;

// The bytes behind the head; none of a packet that is too short for one.
fn behind_head(packet: &[u8]) -> &[u8]
    ensures { result.now ≡ drop 8 packet.now }
{
    packet.get(8..).unwrap_or(&[])
}

// Writes the head before the payload, with the reserved bits that the header kept, and returns the length of the packet. A refusal leaves every byte
// as it was.
fn write_kept(
    header: Icmpv6Header,
    addresses: Addresses,
    packet: &mut [u8],
    edition: Edition,
) -> Result<usize, Refusal>
    ensures answers { written_told result ≡ write_of edition header.icmp_type (drop 8 packet.old) packet.old }
    ensures lent { packet.new ≡ output_by edition Keeping header addresses.source addresses.destination (drop 8 packet.old) packet.old }
{
    let payload = behind_head(packet);
    writer::check(header.icmp_type, payload, edition)?;
    // The packet has room for itself, if it has any for a head.
    let length = packet.len();
    if length < 8 {
        return Err(Refusal::ShortOutput { needed: 8 });
    }
    let mut head = header.to_bytes_keeping();
    // Never refused: the payload is within the sum's limit.
    let sum = checksum::checksum_of(head, payload, addresses)?;
    head[2..4].copy_from_slice(&wire::u16_to_be(sum));
    let _ = output::put(packet, 0, &head);
    Ok(length)
}

// Writes the head with 0 in every reserved bit, and returns the length of the packet. A refusal leaves every byte as it was.
pub fn write_in_place_clearing(
    header: Icmpv6Header,
    addresses: Addresses,
    packet: &mut [u8],
    edition: Edition,
) -> Result<usize, Refusal>
    ensures answers { written_told result ≡ write_of edition header.icmp_type (drop 8 packet.old) packet.old }
    ensures lent { packet.new ≡ output_by edition Clearing header addresses.source addresses.destination (drop 8 packet.old) packet.old }
{
    let nothing_kept = Icmpv6Header {
        bytes5to8: 0,
        ..header
    };
    write_kept(nothing_kept, addresses, packet, edition)
}

// The same by the default, which keeps the reserved bits.
pub fn write_in_place(
    header: Icmpv6Header,
    addresses: Addresses,
    packet: &mut [u8],
    edition: Edition,
) -> Result<usize, Refusal>
    ensures answers { written_told result ≡ write_of edition header.icmp_type (drop 8 packet.old) packet.old }
    ensures lent { packet.new ≡ output_by edition by_default header addresses.source addresses.destination (drop 8 packet.old) packet.old }
{
    write_kept(header, addresses, packet, edition)
}
