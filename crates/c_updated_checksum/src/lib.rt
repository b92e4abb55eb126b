// The field that a packet is to have once one of its words is another.
#![tactic(auto)]

ghost use Rattle.std.specs.Prelude.{◌≡◌};
ghost use Rattle.checksum_update.specs.Update.{updated_of};
ghost use Rattle.c_updated.specs.Updated.{updated_for};

use c_updated::Updated;

#[unsafe(no_mangle)]
pub extern "C" fn brothladder_updated_checksum(packet: &[u8], place: usize, word: u16) -> Updated
    ensures { result ≡ updated_for (updated_of packet.now place word) }
{
    // Each arm is told by itself and returns: an answer is then written straight to where it goes (docs/BENCHMARKS.md).
    match checksum_update::updated_checksum(packet, place, word) {
        Ok(field) => {
            return c_updated::told(Ok(field));
        }
        Err(why) => {
            return c_updated::told(Err(why));
        }
    }
}
