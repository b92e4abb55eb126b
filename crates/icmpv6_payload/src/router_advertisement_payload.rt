// The fixed part of a router advertisement (RFC 4861, section 4.2), in milliseconds both.
ghost use Rattle.std.specs.Prelude.{◌≡◌};
ghost use Rattle.icmpv6_payload.specs.Owned.{timers_from, timers_told, timers_in, timers_bytes};
ghost use Rattle.icmpv6_payload.specs.Fixed.{fixed_of};

use refusal::Refusal;

#[derive(Clone, Copy, Debug, PartialEq, Eq)]
pub struct RouterAdvertisementPayload {
    pub reachable_time: u32,
    pub retrans_timer: u32,
}

impl RouterAdvertisementPayload {
    pub const LEN: usize = 8;

    pub fn from_bytes(bytes: [u8; 8]) -> Self
        ensures { timers_told result ≡ timers_in bytes }
    {
        let [r0, r1, r2, r3, t0, t1, t2, t3] = bytes;
        Self {
            reachable_time: wire::u32_from_be(r0, r1, r2, r3),
            retrans_timer: wire::u32_from_be(t0, t1, t2, t3),
        }
    }

    // The fixed part at the start of a payload.
    pub fn from_slice(payload: &[u8]) -> Result<Self, Refusal>
        ensures { result ≡ fixed_of timers_from 8 payload.now }
    {
        Ok(Self::from_bytes(crate::first(payload)?))
    }

    pub fn to_bytes(self) -> [u8; 8]
        ensures { result ≡ timers_bytes self }
    {
        let [a, b, c, d] = wire::u32_to_be(self.reachable_time);
        let [e, f, g, h] = wire::u32_to_be(self.retrans_timer);
        [a, b, c, d, e, f, g, h]
    }
}
