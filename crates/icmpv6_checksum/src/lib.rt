// The checksum of a header record (RFC 4443, section 2.3): worked out for a value, and set in a header.
#![tactic(auto)]

ghost use Rattle.std.specs.Prelude.{◌≡◌};
ghost use Rattle.icmpv6.specs.Head.{Clearing, Keeping, by_default, header_told};
ghost use Rattle.checksum.specs.Icmpv6.{computed_of};
ghost use Rattle.checksum.specs.Told.{computed};
ghost use Rattle.icmpv6_checksum.specs.Header.{calc_of, calc_by, with_of, sealed_as, sealed_by, made, header_after};

use addresses::Addresses;
use icmpv6::icmpv6_header::Icmpv6Header;
use icmpv6_type::Icmpv6Type;
use refusal::Refusal;

// The checksum of the packet made of a value and a payload. A value has no kept bits: it is a sender's, who clears.
pub fn calc_checksum(t: Icmpv6Type, payload: &[u8], addresses: Addresses) -> Result<u16, Refusal>
    ensures { computed result ≡ calc_of addresses.source addresses.destination t payload.now }
{
    let head = Icmpv6Header::new(t).to_bytes_clearing();
    checksum::checksum_of(head, payload, addresses)
}

// A header with the checksum of the head that it is written as, or the refusal.
fn sealed(
    h: Icmpv6Header,
    head: [u8; 8],
    payload: &[u8],
    addresses: Addresses,
) -> Result<Icmpv6Header, Refusal>
    ensures { made result ≡ sealed_as (computed_of addresses.source addresses.destination head payload.now) h }
{
    let checksum = checksum::checksum_of(head, payload, addresses)?;
    Ok(Icmpv6Header { checksum, ..h })
}

// A header with the checksum of the bytes that `to_bytes_clearing` writes of it. What it kept stays in the record.
pub fn sealed_clearing(
    h: Icmpv6Header,
    payload: &[u8],
    addresses: Addresses,
) -> Result<Icmpv6Header, Refusal>
    ensures { made result ≡ sealed_by Clearing addresses.source addresses.destination h payload.now }
{
    sealed(h, h.to_bytes_clearing(), payload, addresses)
}

// A header with the checksum of the bytes that `to_bytes_keeping` writes of it.
pub fn sealed_keeping(
    h: Icmpv6Header,
    payload: &[u8],
    addresses: Addresses,
) -> Result<Icmpv6Header, Refusal>
    ensures { made result ≡ sealed_by Keeping addresses.source addresses.destination h payload.now }
{
    sealed(h, h.to_bytes_keeping(), payload, addresses)
}

// The header of a value with its checksum set.
pub fn with_checksum(
    icmp_type: Icmpv6Type,
    payload: &[u8],
    addresses: Addresses,
) -> Result<Icmpv6Header, Refusal>
    ensures { made result ≡ with_of addresses.source addresses.destination icmp_type payload.now }
{
    sealed_clearing(Icmpv6Header::new(icmp_type), payload, addresses)
}

// The same under the crate's other name.
pub fn to_header(
    t: Icmpv6Type,
    payload: &[u8],
    addresses: Addresses,
) -> Result<Icmpv6Header, Refusal>
    ensures { made result ≡ with_of addresses.source addresses.destination t payload.now }
{
    with_checksum(t, payload, addresses)
}

// Sets the checksum field of the caller's header in place, to the checksum of the bytes that `to_bytes` writes of it. A refusal leaves the header as
// it was.
pub fn update_checksum(
    h: &mut Icmpv6Header,
    payload: &[u8],
    addresses: Addresses,
) -> Result<u16, Refusal>
    ensures { (computed result ≡ calc_by by_default addresses.source addresses.destination h.old payload.now)
        × (header_told h.new ≡ header_after (calc_by by_default addresses.source addresses.destination h.old payload.now) (header_told h.old)) }
{
    let checksum = checksum::checksum_of(h.to_bytes(), payload, addresses)?;
    h.checksum = checksum;
    Ok(checksum)
}
