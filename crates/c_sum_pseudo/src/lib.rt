// The sum of the pseudo-header of a packet, to push the packet's bytes on.
#![tactic(auto)]

ghost use Rattle.std.specs.Prelude.{◌≡◌};
ghost use Rattle.running_sum.specs.Parts.{over_pseudo};
ghost use Rattle.c_summed.specs.Summed.{summed_for};

use addresses::Addresses;
use c_summed::Summed;
use running_sum::RunningSum;

#[unsafe(no_mangle)]
pub extern "C" fn brothladder_sum_pseudo(
    source: &[u8; 16],
    destination: &[u8; 16],
    length: u32,
) -> Summed
    ensures { result ≡ summed_for (over_pseudo source.now destination.now length) }
{
    c_summed::told(RunningSum {
        sum: running_sum::pseudo(
            Addresses {
                source: *source,
                destination: *destination,
            },
            length,
        ),
        odd: false,
    })
}
