// The addresses of a packet, and tests for the kinds of IPv6 addresses (RFC 4291, section 2.4; docs/RULES.md R11). Each looks at what a slice begins with.
#![tactic(auto)]

ghost use Rattle.std.specs.Prelude.{◌≡◌, ◌&&◌, ◌/◌, eqb};
ghost use Rattle.addresses.specs.Address.{same, unspecified, multicast, link_local, solicited_node};

use wire::begins_with;

// The two addresses of an IPv6 packet (RFC 8200, section 3): the pseudo-header has both, so they travel together.
#[derive(Clone, Copy, Debug, PartialEq, Eq)]
pub struct Addresses {
    pub source: [u8; 16],
    pub destination: [u8; 16],
}

pub fn is_same(a: &[u8], b: &[u8]) -> bool
    ensures { result ≡ same a.now b.now }
{
    // Not by `==` of slices, for the size of the compiled code, as in `begins_with`.
    a.len() == b.len() && begins_with(b, a)
}

pub fn is_unspecified(address: &[u8]) -> bool
    ensures { result ≡ unspecified address.now }
{
    begins_with(address, &[0; 16])
}

pub fn is_multicast(address: &[u8]) -> bool
    ensures { result ≡ multicast address.now }
{
    begins_with(address, b"\xff")
}

// The first byte is 254, and the two high bits of the second are 10.
pub fn is_link_local(address: &[u8]) -> bool
    ensures { result ≡ link_local address.now }
{
    match address {
        [first, second, ..] => *first == 254 && *second / 64 == 2,
        _ => false,
    }
}

pub fn is_solicited_node(address: &[u8]) -> bool
    ensures { result ≡ solicited_node address.now }
{
    begins_with(address, &[0xff, 2, 0, 0, 0, 0, 0, 0, 0, 0, 0, 1, 0xff])
}
