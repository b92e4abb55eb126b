// The codes of destination unreachable (RFC 4443, section 3.1).
ghost use Rattle.std.specs.Prelude.{◌≡◌};
ghost use Rattle.icmpv6_codes.specs.Codes.{listed, dest_number, dest_told};

pub const CODE_DST_UNREACH_NO_ROUTE: u8 = 0;

pub const CODE_DST_UNREACH_PROHIBITED: u8 = 1;

pub const CODE_DST_UNREACH_BEYOND_SCOPE: u8 = 2;

pub const CODE_DST_UNREACH_ADDR: u8 = 3;

pub const CODE_DST_UNREACH_PORT: u8 = 4;

pub const CODE_DST_UNREACH_SOURCE_ADDRESS_FAILED_POLICY: u8 = 5;

pub const CODE_DST_UNREACH_REJECT_ROUTE_TO_DEST: u8 = 6;

// In the order of their codes, which begin at 0.
#[derive(Clone, Copy, Debug, PartialEq, Eq)]
pub enum DestUnreachableCode {
    NoRoute,
    Prohibited,
    BeyondScope,
    Address,
    Port,
    SourceAddressFailedPolicy,
    RejectRoute,
}

impl DestUnreachableCode {
    #[tactic(auto, unfolding(crate::specs::Codes::listed))]
    pub fn from_u8(code: u8) -> Option<DestUnreachableCode>
        ensures { dest_told result ≡ listed 7 code }
    {
        match code {
            CODE_DST_UNREACH_NO_ROUTE => Some(Self::NoRoute),
            CODE_DST_UNREACH_PROHIBITED => Some(Self::Prohibited),
            CODE_DST_UNREACH_BEYOND_SCOPE => Some(Self::BeyondScope),
            CODE_DST_UNREACH_ADDR => Some(Self::Address),
            CODE_DST_UNREACH_PORT => Some(Self::Port),
            CODE_DST_UNREACH_SOURCE_ADDRESS_FAILED_POLICY => Some(Self::SourceAddressFailedPolicy),
            CODE_DST_UNREACH_REJECT_ROUTE_TO_DEST => Some(Self::RejectRoute),
            _ => None,
        }
    }

    pub fn code_u8(self) -> u8
        ensures { result ≡ dest_number self }
    {
        self as u8
    }
}
