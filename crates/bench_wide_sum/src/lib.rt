// The wider sums under C names: what bench/ and tests/c/ link beside the plain sum, and nothing else.
#![tactic(auto)]

ghost use Rattle.std.specs.Prelude.{◌≡◌};
ghost use Rattle.checksum.specs.Ones.{words, ones_sum};

#[unsafe(no_mangle)]
pub extern "C" fn brothladder_bench_sum_by_fours(bytes: &[u8]) -> u16
    ensures sum { result ≡ ones_sum (words bytes.now) }
{
    wide_sum::sum_by_fours(bytes)
}

#[unsafe(no_mangle)]
pub extern "C" fn brothladder_bench_sum_by_sixty_fours(bytes: &[u8]) -> u16
    ensures { result ≡ ones_sum (words bytes.now) }
{
    wide_sum::sum_by_sixty_fours(bytes)
}

#[unsafe(no_mangle)]
pub extern "C" fn brothladder_bench_sum_by_two_chains(bytes: &[u8]) -> u16
    ensures { result ≡ ones_sum (words bytes.now) }
{
    wide_sum::sum_by_two_chains(bytes)
}
