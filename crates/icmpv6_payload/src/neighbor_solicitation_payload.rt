// The fixed part of a neighbor solicitation (RFC 4861, section 4.3): the target.
ghost use Rattle.std.specs.Prelude.{◌≡◌};
ghost use Rattle.icmpv6_payload.specs.Owned.{solicitation_from};
ghost use Rattle.icmpv6_payload.specs.Fixed.{fixed_of};

use refusal::Refusal;

#[derive(Clone, Copy, Debug, PartialEq, Eq)]
pub struct NeighborSolicitationPayload {
    pub target_address: [u8; 16],
}

impl NeighborSolicitationPayload {
    pub const LEN: usize = 16;

    pub fn from_bytes(bytes: [u8; 16]) -> Self
        ensures { result.target_address ≡ bytes }
    {
        Self {
            target_address: bytes,
        }
    }

    // The fixed part at the start of a payload.
    pub fn from_slice(payload: &[u8]) -> Result<Self, Refusal>
        ensures { result ≡ fixed_of solicitation_from 16 payload.now }
    {
        Ok(Self::from_bytes(crate::first(payload)?))
    }

    pub fn to_bytes(self) -> [u8; 16]
        ensures { result ≡ self.target_address }
    {
        self.target_address
    }
}
