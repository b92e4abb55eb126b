// The checksum field of a packet of which one 16-bit word changes (RFC 1624; docs/RULES.md M1 to M9): from the packet as it stands, with no address and no
// look at the rest of it.
#![tactic(auto)]

ghost use Rattle.std.specs.Prelude.{◌≡◌, ◌+◌, ◌<◌, length};
ghost use Rattle.wire.specs.Wire.{word16_at};
ghost use Rattle.checksum.specs.Ones.{with_word};
ghost use Rattle.checksum_update.specs.Update.{is_word, updated_field, updated_of, left_of};
ghost use Rattle.checksum_update.specs.Told.{updated_told};

use refusal::Refusal;
use running_sum::add;

// Whether a packet of n bytes has a word at a place, and one that may be changed. Nothing is added to the place, so it cannot wrap.
fn is_word(place: usize, n: usize) -> bool
    ensures { result ≡ is_word n place }
{
    place % 2 == 0 && place != 2 && place < n && 2 <= n - place
}

fn word_at(packet: &[u8], place: usize) -> u16
    requires { place + 1 < length packet.now }
    ensures { result ≡ word16_at packet.now place }
{
    wire::u16_from_be(packet[place], packet[place + 1])
}

// RFC 1624, equation 3.
#[tactic(auto, unfolding(crate::specs::Update::updated_field))]
fn updated_field(field: u16, old: u16, new: u16) -> u16
    ensures { result ≡ updated_field field old new }
{
    65535 - add(add(65535 - field, 65535 - old), new)
}

// The field that a packet is to have once the word at a place is another. The packet has its field and its old word still.
pub fn updated_checksum(packet: &[u8], place: usize, word: u16) -> Result<u16, Refusal>
    ensures { updated_told result ≡ updated_of packet.now place word }
{
    packet_length::check_len(packet.len())?;
    if !is_word(place, packet.len()) {
        return Err(Refusal::NoWord { place });
    }
    Ok(updated_field(word_at(packet, 2), word_at(packet, place), word))
}

// Puts a word at a place of a packet, high byte first.
fn put_word(packet: &mut [u8], place: usize, word: u16)
    requires { place + 1 < length packet.old }
    ensures { packet.new ≡ with_word packet.old place word }
{
    let [high, low] = word.to_be_bytes();
    packet[place] = high;
    packet[place + 1] = low;
}

// Puts the word and the new field into the packet, and answers the field; or changes nothing.
pub fn change_word(packet: &mut [u8], place: usize, word: u16) -> Result<u16, Refusal>
    ensures answers { updated_told result ≡ updated_of packet.old place word }
    ensures lent { packet.new ≡ left_of packet.old place word }
{
    let field = updated_checksum(packet, place, word)?;
    put_word(packet, place, word);
    put_word(packet, 2, field);
    Ok(field)
}
