// The parts of a packet as they stand, not decoded.
ghost use Rattle.std.specs.Prelude.{◌≡◌, drop};
ghost use Rattle.icmpv6.specs.Head.{parts_told, head_parts};

use refusal::Refusal;

// Type, code, checksum field, and bytes 4 to 7 as one number, high byte first.
#[derive(Clone, Copy, Debug, PartialEq, Eq)]
pub struct HeadParts {
    pub type_u8: u8,
    pub code_u8: u8,
    pub checksum: u16,
    pub bytes5to8: u32,
}

pub fn head_parts(packet: &[u8]) -> Result<HeadParts, Refusal>
    ensures { parts_told result ≡ head_parts packet.now }
{
    packet_length::check_len(packet.len())?;
    Ok(HeadParts {
        type_u8: packet[0],
        code_u8: packet[1],
        checksum: wire::u16_from_be(packet[2], packet[3]),
        bytes5to8: wire::u32_from_be(packet[4], packet[5], packet[6], packet[7]),
    })
}

// The bytes behind the head, as a part of the caller's slice. None if the packet has no more than a head. Refuses nothing (docs/RULES.md H9).
pub fn payload(packet: &[u8]) -> &[u8]
    ensures { result.now ≡ drop 8 packet.now }
{
    packet.get(packet_length::MIN_LEN..).unwrap_or(&[])
}
