// The Internet checksum (RFC 1071) over the pseudo-header of RFC 8200, section 8.1, and an ICMPv6 packet.
#![tactic(auto)]

ghost use Rattle.std.specs.Prelude.{◌≡◌, ◌+◌, ◌*◌, ◌<◌, ◌≤◌, length};
ghost use Rattle.checksum.specs.Ones.{words, ones_sum};
ghost use Rattle.checksum.specs.Running.{low_first, folded, swapped, Part, Pseudo};
ghost use Rattle.checksum.specs.Narrow.{piece_bytes};
ghost use Rattle.checksum.specs.Icmpv6.{computed_of, verdict_of};
ghost use Rattle.checksum.specs.Fields.{is_valid};
ghost use Rattle.checksum.specs.Told.{computed, verdict};

use addresses::Addresses;
use refusal::Refusal;

// The longest payload after a head of eight bytes: what the pseudo-header's length can say, less 8.
const MAX_PAYLOAD_LEN: usize = 4294967287;

// How many bytes are added before the carries are folded: their 32,768 words and a folded sum fit 32 bits.
const PIECE: usize = 65536;

// The verdict on the checksum of a packet.
#[derive(Clone, Copy, Debug, PartialEq, Eq)]
pub enum Verdict {
    Valid,
    Invalid,
}

// Adds the carries back in until 16 bits are left. For 32 bits two rounds are enough.
#[tactic(auto, unfolding(crate::specs::Running::folded))]
fn fold(total: u32) -> u16
    ensures { result ≡ folded total }
{
    let t = total % 65536 + total / 65536;
    (t % 65536 + t / 65536) as u16
}

// A folded sum with the words of a piece added, in memory order: RFC 1071, section 2 (B), lets the bytes be exchanged at the end.
fn add_piece(from: u16, s: &[u8]) -> u32
    requires { length s.now ≤ piece_bytes }
    ensures { result ≡ from + low_first s.now }
{
    let mut t = u32::from(from);
    let mut rest = s;
    while let [first, second, more @ ..] = rest {
        t += u32::from(u16::from_le_bytes([*first, *second]));
        rest = more;
    }
    if let [last] = rest {
        t += u32::from(u16::from_le_bytes([*last, 0]));
    }
    t
}

// The folded sum of the 16-bit words of `bytes`, high byte first, an odd last byte with 0 after it.
pub fn sum(bytes: &[u8]) -> u16
    ensures { result ≡ ones_sum (words bytes.now) }
{
    let mut t = 0;
    let mut rest = bytes;
    // Not by `chunks`: each turn would look for the shorter of two lengths, a fifth of what a short verdict costs.
    while rest.len() > PIECE {
        let (piece, more) = rest.split_at(PIECE);
        t = fold(add_piece(t, piece));
        rest = more;
    }
    fold(add_piece(t, rest)).swap_bytes()
}

// The folded sum of a part, as wide as a total.
fn part(s: &[u8]) -> u32
    ensures { Part s.now result }
{
    u32::from(sum(s))
}

// The part of a payload. A function of its own in compiled code: written into the calls that write in place, it left their loop so few registers that in
// the archive for kernels its place and its count stood on the stack (docs/DESIGN-PASS.md).
#[inline(never)]
fn payload_part(payload: &[u8]) -> u32
    ensures { Part payload.now result }
{
    part(payload)
}

// A total that folds to the sum of the pseudo-header's words.
fn pseudo_total(addresses: Addresses, length: u32) -> u32
    ensures { Pseudo addresses.source addresses.destination length result }
{
    part(&addresses.source) + part(&addresses.destination) + length / 65536 + length % 65536 + 58
}

// The checksum of the packet made of a head and a payload, whatever the head's checksum field holds.
#[tactic(auto, unfolding(crate::specs::Icmpv6::computed_of, crate::specs::Icmpv6::checksum_of))]
pub fn checksum_of(head: [u8; 8], payload: &[u8], addresses: Addresses) -> Result<u16, Refusal>
    ensures { computed result ≡ computed_of addresses.source addresses.destination head payload.now }
{
    let n = payload.len();
    if MAX_PAYLOAD_LEN < n {
        return Err(Refusal::LongPayload {
            limit: MAX_PAYLOAD_LEN,
            length: n,
        });
    }
    let mut zeroed = head;
    zeroed[2] = 0;
    zeroed[3] = 0;
    let before = pseudo_total(addresses, (n + 8) as u32);
    Ok(65535 - fold(before + part(&zeroed) + payload_part(payload)))
}

// Verifies the checksum of a packet: whether its sum, with the field as it stands, is 65,535 (docs/RULES.md S3).
pub fn verify(packet: &[u8], addresses: Addresses) -> Result<Verdict, Refusal>
    ensures { verdict result ≡ verdict_of addresses.source addresses.destination packet.now }
{
    let n = packet.len();
    packet_length::check_len(n)?;
    let before = pseudo_total(addresses, n as u32);
    if fold(before + part(packet)) == 65535 {
        Ok(Verdict::Valid)
    } else {
        Ok(Verdict::Invalid)
    }
}

// Whether a packet validates. A packet that `verify` refuses does not.
pub fn validates(packet: &[u8], addresses: Addresses) -> bool
    ensures { result ≡ is_valid (verdict_of addresses.source addresses.destination packet.now) }
{
    matches!(verify(packet, addresses), Ok(Verdict::Valid))
}
