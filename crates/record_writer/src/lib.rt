// One record of a capture, written (docs/RULES.md C7, C9).
#![tactic(auto)]

ghost use Rattle.std.specs.Prelude.{◌≡◌};
ghost use Rattle.output.specs.Output.{written_told, leaves};
ghost use Rattle.capture.specs.Record.{mark_of, record_bytes, write_record_of};

use addresses::Addresses;
use capture::{HEAD_LEN, MAX_PACKET_LEN, MAX_SHORT_LEN};
use refusal::Refusal;

// Writes a record at the start of `out`. If it refuses it writes nothing.
pub fn write_record(
    hop_limit: u8,
    addresses: Addresses,
    packet: &[u8],
    out: &mut [u8],
) -> Result<usize, Refusal>
    ensures answers { written_told result ≡ write_record_of packet.now out.old }
    ensures lent { out.new ≡ leaves (write_record_of packet.now out.old) out.old 0 (record_bytes hop_limit addresses.source addresses.destination packet.now) }
{
    let len = packet.len();
    if MAX_PACKET_LEN < len {
        return Err(Refusal::LongRecord { length: len });
    }
    let needed = HEAD_LEN + len;
    if out.len() < needed {
        return Err(Refusal::ShortOutput { needed });
    }
    out[..2].copy_from_slice(&mark_of(len));
    out[2] = hop_limit;
    out[3..19].copy_from_slice(&addresses.source);
    out[19..35].copy_from_slice(&addresses.destination);
    out[35..HEAD_LEN].copy_from_slice(&wire::u16_to_be(len as u16));
    out[HEAD_LEN..needed].copy_from_slice(packet);
    Ok(needed)
}

// The mark of a packet's length.
fn mark_of(len: usize) -> [u8; 2]
    ensures { result ≡ mark_of len }
{
    if MAX_SHORT_LEN < len { *b"I7" } else { *b"I6" }
}
