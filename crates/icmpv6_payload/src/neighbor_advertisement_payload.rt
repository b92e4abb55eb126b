// The fixed part of a neighbor advertisement (RFC 4861, section 4.4): the target.
ghost use Rattle.std.specs.Prelude.{◌≡◌};
ghost use Rattle.icmpv6_payload.specs.Owned.{advertisement_from};
ghost use Rattle.icmpv6_payload.specs.Fixed.{fixed_of};

use refusal::Refusal;

// A type of its own, so that no solicitation is taken for an advertisement.
#[derive(Clone, Copy, Debug, PartialEq, Eq)]
pub struct NeighborAdvertisementPayload {
    pub target_address: [u8; 16],
}

impl NeighborAdvertisementPayload {
    pub const LEN: usize = 16;

    pub fn from_bytes(bytes: [u8; 16]) -> Self
        ensures { result.target_address ≡ bytes }
    {
        Self {
            target_address: bytes,
        }
    }

    // The fixed part at the start of a payload.
    pub fn from_slice(payload: &[u8]) -> Result<Self, Refusal>
        ensures { result ≡ fixed_of advertisement_from 16 payload.now }
    {
        Ok(Self::from_bytes(crate::first(payload)?))
    }

    pub fn to_bytes(self) -> [u8; 16]
        ensures { result ≡ self.target_address }
    {
        self.target_address
    }
}
