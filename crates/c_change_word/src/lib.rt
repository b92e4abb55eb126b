// A word of a lent packet changed, and the checksum field with it.
#![tactic(auto)]

ghost use Rattle.std.specs.Prelude.{◌≡◌};
ghost use Rattle.checksum_update.specs.Update.{updated_of, left_of};
ghost use Rattle.c_updated.specs.Updated.{updated_for};

use c_updated::Updated;

#[unsafe(no_mangle)]
pub extern "C" fn brothladder_change_word(packet: &mut [u8], place: usize, word: u16) -> Updated
    ensures answers { result ≡ updated_for (updated_of packet.old place word) }
    ensures lent { packet.new ≡ left_of packet.old place word }
{
    c_updated::told(checksum_update::change_word(packet, place, word))
}
