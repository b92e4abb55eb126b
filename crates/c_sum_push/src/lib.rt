// A sum with more bytes behind those that are in it.
#![tactic(auto)]

ghost use Rattle.std.specs.Prelude.{◌≡◌};
ghost use Rattle.running_sum.specs.Parts.{over, ◌then◌};
ghost use Rattle.c_summed.specs.Summed.{summed_for, running_of};

use c_summed::Summed;

#[unsafe(no_mangle)]
pub extern "C" fn brothladder_sum_push(before: Summed, bytes: &[u8]) -> Summed
    ensures { result ≡ summed_for (running_of before then over bytes.now) }
{
    c_summed::told(c_summed::running(before).push(bytes))
}
