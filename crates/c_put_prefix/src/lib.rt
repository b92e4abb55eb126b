// A prefix information option put at a place of a lent buffer. A flag is set by any number but 0.
#![tactic(auto)]

ghost use Rattle.std.specs.Prelude.{◌≡◌};
ghost use Rattle.output.specs.Output.{room_for, leaves};
ghost use Rattle.prefix_information.specs.Prefix.{bytes_of};
ghost use Rattle.c_put_prefix.specs.Information.{information_for};
ghost use Rattle.c_written.specs.Written.{written_for};

use c_written::Written;
use prefix_information::PrefixInformation;

#[unsafe(no_mangle)]
pub extern "C" fn brothladder_put_prefix(
    prefix_length: u8,
    on_link: u16,
    autonomous: u16,
    valid_lifetime: u32,
    preferred_lifetime: u32,
    prefix: &[u8; 16],
    out: &mut [u8],
    at: usize,
) -> Written
    ensures answers { result ≡ written_for (room_for 32 out.old at) }
    ensures lent { out.new ≡ leaves (room_for 32 out.old at) out.old at (bytes_of (information_for prefix_length on_link autonomous valid_lifetime preferred_lifetime prefix.now)) }
{
    let information = PrefixInformation {
        prefix_length,
        on_link: on_link != 0,
        autonomous_address_configuration: autonomous != 0,
        valid_lifetime,
        preferred_lifetime,
        prefix: *prefix,
    };
    option_writer::put_prefix_information(information, out, at).into()
}
