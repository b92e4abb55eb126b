// The fixed parts that follow the head in Neighbor Discovery (RFC 4861, sections 4.2 to 4.5), by value. For icmpv6_payload.rs (docs/DIFFERENCES.md).
#![tactic(auto)]

ghost use Rattle.std.specs.Prelude.{◌≡◌, ◌<◌, ◌^◌};
ghost use Rattle.icmpv6_payload.specs.Fixed.{fixed_of};

use refusal::Refusal;

pub mod neighbor_advertisement_payload;
pub mod neighbor_solicitation_payload;
pub mod redirect_payload;
pub mod router_advertisement_payload;

// The first bytes of a payload, as many as a fixed part has; refusal 4 of a payload that has fewer.
fn first<const N: usize>(payload: &[u8]) -> Result<[u8; N], Refusal>
    requires { N < 2 ^ 63 }
    ensures { result ≡ fixed_of (λ s. s) N payload.now }
{
    match payload.first_chunk::<N>() {
        Some(bytes) => Ok(*bytes),
        None => Err(Refusal::ShortFixedPart {
            needed: N,
            present: payload.len(),
        }),
    }
}
