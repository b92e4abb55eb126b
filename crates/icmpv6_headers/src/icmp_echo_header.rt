// Identifier and sequence number of an echo request or reply (RFC 4443, sections 4.1 and 4.2).
ghost use Rattle.std.specs.Prelude.{◌≡◌};
ghost use Rattle.icmpv6_headers.specs.Headers.{echo_told, echo_of, echo_bytes};

#[derive(Clone, Copy, Debug, PartialEq, Eq)]
pub struct IcmpEchoHeader {
    pub id: u16,
    pub seq: u16,
}

impl IcmpEchoHeader {
    pub fn from_bytes(bytes: [u8; 4]) -> Self
        ensures { echo_told result ≡ echo_of bytes }
    {
        let [a, b, c, d] = bytes;
        Self {
            id: wire::u16_from_be(a, b),
            seq: wire::u16_from_be(c, d),
        }
    }

    pub fn to_bytes(self) -> [u8; 4]
        ensures { result ≡ echo_bytes self }
    {
        let [a, b] = wire::u16_to_be(self.id);
        let [c, d] = wire::u16_to_be(self.seq);
        [a, b, c, d]
    }
}
