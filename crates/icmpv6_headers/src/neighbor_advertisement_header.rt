// The flags of a neighbor advertisement (RFC 4861, section 4.4).
ghost use Rattle.std.specs.Prelude.{◌≡◌};
ghost use Rattle.icmpv6_headers.specs.Headers.{neighbor_told, neighbor_of, neighbor_bytes};

#[derive(Clone, Copy, Debug, PartialEq, Eq)]
pub struct NeighborAdvertisementHeader {
    pub router: bool,
    pub solicited: bool,
    pub override_flag: bool,
}

impl NeighborAdvertisementHeader {
    pub const ROUTER_MASK: u8 = 128;

    pub const SOLICITED_MASK: u8 = 64;

    pub const OVERRIDE_MASK: u8 = 32;

    pub fn from_bytes(bytes: [u8; 4]) -> Self
        ensures { neighbor_told result ≡ neighbor_of bytes }
    {
        Self {
            router: wire::has_flag(bytes[0], Self::ROUTER_MASK),
            solicited: wire::has_flag(bytes[0], Self::SOLICITED_MASK),
            override_flag: wire::has_flag(bytes[0], Self::OVERRIDE_MASK),
        }
    }

    pub fn to_bytes(self) -> [u8; 4]
        ensures { result ≡ neighbor_bytes self }
    {
        let router = wire::flag_of(self.router, Self::ROUTER_MASK);
        let solicited = wire::flag_of(self.solicited, Self::SOLICITED_MASK);
        let overrides = wire::flag_of(self.override_flag, Self::OVERRIDE_MASK);
        [router + solicited + overrides, 0, 0, 0]
    }
}
