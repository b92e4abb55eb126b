// The verdict on a packet's checksum.
#![tactic(auto)]

ghost use Rattle.std.specs.Prelude.{◌≡◌};
ghost use Rattle.checksum.specs.Icmpv6.{verdict_of};
ghost use Rattle.c_verified.specs.Verified.{verified_for};

use addresses::Addresses;
use c_verified::Verified;

#[unsafe(no_mangle)]
pub extern "C" fn brothladder_verify(
    packet: &[u8],
    source: &[u8; 16],
    destination: &[u8; 16],
) -> Verified
    ensures { result ≡ verified_for (verdict_of source.now destination.now packet.now) }
{
    checksum::verify(
        packet,
        Addresses {
            source: *source,
            destination: *destination,
        },
    )
    .into()
}
