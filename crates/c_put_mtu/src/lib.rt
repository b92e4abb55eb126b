// An MTU option put at a place of a lent buffer.
#![tactic(auto)]

ghost use Rattle.std.specs.Prelude.{◌≡◌};
ghost use Rattle.output.specs.Output.{room_for, leaves};
ghost use Rattle.option_writer.specs.Options.{mtu_bytes};
ghost use Rattle.c_written.specs.Written.{written_for};

use c_written::Written;

#[unsafe(no_mangle)]
pub extern "C" fn brothladder_put_mtu(mtu: u32, out: &mut [u8], at: usize) -> Written
    ensures answers { result ≡ written_for (room_for 8 out.old at) }
    ensures lent { out.new ≡ leaves (room_for 8 out.old at) out.old at (mtu_bytes mtu) }
{
    option_writer::put_mtu(mtu, out, at).into()
}
