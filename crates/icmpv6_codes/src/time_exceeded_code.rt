// The codes of time exceeded (RFC 4443, section 3.3).
ghost use Rattle.std.specs.Prelude.{◌≡◌};
ghost use Rattle.icmpv6_codes.specs.Codes.{listed, time_number, time_told};

pub const CODE_TIME_EXCEEDED_HOP_LIMIT_EXCEEDED: u8 = 0;

pub const CODE_TIME_EXCEEDED_FRAGMENT_REASSEMBLY_TIME_EXCEEDED: u8 = 1;

// In the order of their codes, which begin at 0.
#[derive(Clone, Copy, Debug, PartialEq, Eq)]
pub enum TimeExceededCode {
    HopLimitExceeded,
    FragmentReassemblyTimeExceeded,
}

impl TimeExceededCode {
    #[tactic(auto, unfolding(crate::specs::Codes::listed))]
    pub fn from_u8(code: u8) -> Option<TimeExceededCode>
        ensures { time_told result ≡ listed 2 code }
    {
        match code {
            CODE_TIME_EXCEEDED_HOP_LIMIT_EXCEEDED => Some(Self::HopLimitExceeded),
            CODE_TIME_EXCEEDED_FRAGMENT_REASSEMBLY_TIME_EXCEEDED => Some(
                Self::FragmentReassemblyTimeExceeded,
            ),
            _ => None,
        }
    }

    pub fn code_u8(self) -> u8
        ensures { result ≡ time_number self }
    {
        self as u8
    }
}
