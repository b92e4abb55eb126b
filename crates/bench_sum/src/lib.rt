// The sum under a C name: what bench/ links beside its peers, and nothing else.
#![tactic(auto)]

ghost use Rattle.std.specs.Prelude.{◌≡◌};
ghost use Rattle.checksum.specs.Ones.{words, ones_sum};

#[unsafe(no_mangle)]
pub extern "C" fn brothladder_bench_sum(bytes: &[u8]) -> u16
    ensures { result ≡ ones_sum (words bytes.now) }
{
    checksum::sum(bytes)
}
