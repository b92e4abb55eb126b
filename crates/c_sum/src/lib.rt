// The sum of some bytes.
#![tactic(auto)]

ghost use Rattle.std.specs.Prelude.{◌≡◌};
ghost use Rattle.running_sum.specs.Parts.{over};
ghost use Rattle.c_summed.specs.Summed.{summed_for};

use c_summed::Summed;
use running_sum::RunningSum;

#[unsafe(no_mangle)]
pub extern "C" fn brothladder_sum(bytes: &[u8]) -> Summed
    ensures { result ≡ summed_for (over bytes.now) }
{
    c_summed::told(RunningSum::new().push(bytes))
}
