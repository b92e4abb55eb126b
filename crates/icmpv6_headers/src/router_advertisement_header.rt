// The head of a router advertisement (RFC 4861, section 4.2).
ghost use Rattle.std.specs.Prelude.{◌≡◌};
ghost use Rattle.icmpv6_headers.specs.Headers.{router_told, router_of, router_bytes};

#[derive(Clone, Copy, Debug, PartialEq, Eq)]
pub struct RouterAdvertisementHeader {
    pub cur_hop_limit: u8,
    pub managed_address_config: bool,
    pub other_config: bool,
    pub router_lifetime: u16,
}

impl RouterAdvertisementHeader {
    pub const MANAGED_ADDRESS_CONFIG_MASK: u8 = 128;

    pub const OTHER_CONFIG_MASK: u8 = 64;

    pub fn from_bytes(bytes: [u8; 4]) -> Self
        ensures { router_told result ≡ router_of bytes }
    {
        let [cur_hop_limit, flags, a, b] = bytes;
        Self {
            cur_hop_limit,
            managed_address_config: wire::has_flag(flags, Self::MANAGED_ADDRESS_CONFIG_MASK),
            other_config: wire::has_flag(flags, Self::OTHER_CONFIG_MASK),
            router_lifetime: wire::u16_from_be(a, b),
        }
    }

    pub fn to_bytes(self) -> [u8; 4]
        ensures { result ≡ router_bytes self }
    {
        let managed = wire::flag_of(
            self.managed_address_config,
            Self::MANAGED_ADDRESS_CONFIG_MASK,
        );
        let other = wire::flag_of(self.other_config, Self::OTHER_CONFIG_MASK);
        let [a, b] = wire::u16_to_be(self.router_lifetime);
        [self.cur_hop_limit, managed + other, a, b]
    }
}
