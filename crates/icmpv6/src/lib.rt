// The eight-byte head of an ICMPv6 packet (RFC 4443, section 2.1): the header record that every layer shares, and a packet's parts.
#![tactic(auto)]

pub mod icmpv6_header;
pub mod icmpv6_slice;
