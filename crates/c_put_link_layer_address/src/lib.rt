// A link-layer address option put at a place of a lent buffer.
#![tactic(auto)]

ghost use Rattle.std.specs.Prelude.{◌≡◌};
ghost use Rattle.output.specs.Output.{room_for, leaves};
ghost use Rattle.ndp_option.specs.LinkLayer.{link_layer_of};
ghost use Rattle.option_writer.specs.Options.{link_layer_bytes};
ghost use Rattle.c_written.specs.Written.{written_for};

use c_written::Written;
use ndp_option::link_layer_address_option::LinkLayerAddressOption;

#[unsafe(no_mangle)]
pub extern "C" fn brothladder_put_link_layer_address(
    kind: u32,
    address: &[u8; 6],
    out: &mut [u8],
    at: usize,
) -> Written
    ensures answers { result ≡ written_for (room_for 8 out.old at) }
    ensures lent { out.new ≡ leaves (room_for 8 out.old at) out.old at (link_layer_bytes (link_layer_of kind) address.now) }
{
    let whose = LinkLayerAddressOption::of(kind);
    option_writer::put_link_layer_address(whose, *address, out, at).into()
}
