// The sum of joined bytes, from the sums of both parts.
#![tactic(auto)]

ghost use Rattle.std.specs.Prelude.{◌≡◌};
ghost use Rattle.running_sum.specs.Parts.{◌then◌};
ghost use Rattle.c_summed.specs.Summed.{summed_for, running_of};

use c_summed::Summed;

#[unsafe(no_mangle)]
pub extern "C" fn brothladder_sum_join(first: Summed, second: Summed) -> Summed
    ensures { result ≡ summed_for (running_of first then running_of second) }
{
    c_summed::told(c_summed::running(first).then(c_summed::running(second)))
}
