// Where the address is in a link-layer address option that a step handed out, read at its place in the packet.
#![tactic(auto)]

ghost use Rattle.std.specs.Prelude.{◌≡◌, length};
ghost use Rattle.packet_place.specs.Place.{placed};
ghost use Rattle.ndp_option_read.specs.Rule.{sized_of};
ghost use Rattle.ndp_option.specs.LinkLayer.{link_layer_type, link_layer_of};
ghost use Rattle.c_bytes.specs.Bytes.{bytes_for};

use c_bytes::Bytes;
use ndp_option::link_layer_address_option::LinkLayerAddressOption;

#[unsafe(no_mangle)]
pub extern "C" fn brothladder_read_link_layer_address(
    option: &[u8],
    offset: usize,
    kind: u32,
) -> Bytes
    ensures { result ≡ bytes_for 2 (length option.now) (placed offset option.now (sized_of (link_layer_type (link_layer_of kind)) option.now)) }
{
    let whose = LinkLayerAddressOption::of(kind);
    // Each arm is told by itself and returns: an answer is then written straight to where it goes (docs/BENCHMARKS.md).
    match whose.from_slice(option, offset) {
        Ok(place) => {
            return c_bytes::told(Ok(place), 2, option.len());
        }
        Err(why) => {
            return c_bytes::told(Err(why), 2, option.len());
        }
    }
}
