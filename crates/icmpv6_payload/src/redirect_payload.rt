// The fixed part of a redirect (RFC 4861, section 4.5): the better first hop, and the destination that is redirected to it.
ghost use Rattle.std.specs.Prelude.{◌≡◌, take, drop};
ghost use Rattle.icmpv6_payload.specs.Owned.{redirect_from, redirect_bytes};
ghost use Rattle.icmpv6_payload.specs.Fixed.{fixed_of};

use refusal::Refusal;

#[derive(Clone, Copy, Debug, PartialEq, Eq)]
pub struct RedirectPayload {
    pub target_address: [u8; 16],
    pub destination_address: [u8; 16],
}

impl RedirectPayload {
    pub const LEN: usize = 32;

    pub fn from_bytes(bytes: [u8; 32]) -> Self
        ensures { (result.target_address ≡ take 16 bytes) × (result.destination_address ≡ drop 16 bytes) }
    {
        let mut target_address = [0; 16];
        target_address.copy_from_slice(&bytes[..16]);
        let mut destination_address = [0; 16];
        destination_address.copy_from_slice(&bytes[16..]);
        Self {
            target_address,
            destination_address,
        }
    }

    // The fixed part at the start of a payload.
    pub fn from_slice(payload: &[u8]) -> Result<Self, Refusal>
        ensures { result ≡ fixed_of redirect_from 32 payload.now }
    {
        Ok(Self::from_bytes(crate::first(payload)?))
    }

    pub fn to_bytes(self) -> [u8; 32]
        ensures { result ≡ redirect_bytes self }
    {
        let mut bytes = [0; 32];
        bytes[..16].copy_from_slice(&self.target_address);
        bytes[16..].copy_from_slice(&self.destination_address);
        bytes
    }
}
