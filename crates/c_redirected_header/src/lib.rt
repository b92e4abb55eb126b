// Where the quoted packet is in a redirected-header option that a step handed out, read at its place in the packet.
#![tactic(auto)]

ghost use Rattle.std.specs.Prelude.{◌≡◌, length};
ghost use Rattle.packet_place.specs.Place.{placed};
ghost use Rattle.ndp_option_read.specs.Rule.{sized_of};
ghost use Rattle.c_bytes.specs.Bytes.{bytes_for};

use c_bytes::Bytes;
use ndp_option::redirected_header_option;

#[unsafe(no_mangle)]
pub extern "C" fn brothladder_read_redirected_header(option: &[u8], offset: usize) -> Bytes
    ensures { result ≡ bytes_for 8 (length option.now) (placed offset option.now (sized_of 4 option.now)) }
{
    // Each arm is told by itself and returns: an answer is then written straight to where it goes (docs/BENCHMARKS.md).
    match redirected_header_option::from_slice(option, offset) {
        Ok(place) => {
            return c_bytes::told(Ok(place), 8, option.len());
        }
        Err(why) => {
            return c_bytes::told(Err(why), 8, option.len());
        }
    }
}
