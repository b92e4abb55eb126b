// The codes of parameter problem (RFC 4443, section 3.4, for 0 to 2; RFC 7112, 8754 and 8883 for 3 to 10).
ghost use Rattle.std.specs.Prelude.{◌≡◌};
ghost use Rattle.icmpv6_codes.specs.Codes.{listed, problem_number, problem_told};

pub const CODE_PARAM_PROBLEM_ERR_HEADER_FIELD: u8 = 0;

pub const CODE_PARAM_PROBLEM_UNRECOG_NEXT_HEADER: u8 = 1;

pub const CODE_PARAM_PROBLEM_UNRECOG_IPV6_OPTION: u8 = 2;

pub const CODE_PARAM_PROBLEM_IPV6_FIRST_FRAG_INCOMP_HEADER_CHAIN: u8 = 3;

pub const CODE_PARAM_PROBLEM_SR_UPPER_LAYER_HEADER_ERROR: u8 = 4;

pub const CODE_PARAM_PROBLEM_UNRECOG_NEXT_HEADER_BY_INTERMEDIATE_NODE: u8 = 5;

pub const CODE_PARAM_PROBLEM_EXT_HEADER_TOO_BIG: u8 = 6;

pub const CODE_PARAM_PROBLEM_EXT_HEADER_CHAIN_TOO_LONG: u8 = 7;

pub const CODE_PARAM_PROBLEM_TOO_MANY_EXT_HEADERS: u8 = 8;

pub const CODE_PARAM_PROBLEM_TOO_MANY_OPTIONS_EXT_HEADER: u8 = 9;

pub const CODE_PARAM_PROBLEM_OPTION_TOO_BIG: u8 = 10;

// In the order of their codes, which begin at 0.
#[derive(Clone, Copy, Debug, PartialEq, Eq)]
pub enum ParameterProblemCode {
    ErroneousHeaderField,
    UnrecognizedNextHeader,
    UnrecognizedIpv6Option,
    FirstFragmentIncompleteHeaderChain,
    SrUpperLayerHeaderError,
    UnrecognizedNextHeaderByIntermediateNode,
    ExtensionHeaderTooBig,
    ExtensionHeaderChainTooLong,
    TooManyExtensionHeaders,
    TooManyOptionsInExtensionHeader,
    OptionTooBig,
}

impl ParameterProblemCode {
    #[tactic(auto, unfolding(crate::specs::Codes::listed))]
    pub fn from_u8(code: u8) -> Option<ParameterProblemCode>
        ensures { problem_told result ≡ listed 11 code }
    {
        match code {
            CODE_PARAM_PROBLEM_ERR_HEADER_FIELD => Some(Self::ErroneousHeaderField),
            CODE_PARAM_PROBLEM_UNRECOG_NEXT_HEADER => Some(Self::UnrecognizedNextHeader),
            CODE_PARAM_PROBLEM_UNRECOG_IPV6_OPTION => Some(Self::UnrecognizedIpv6Option),
            CODE_PARAM_PROBLEM_IPV6_FIRST_FRAG_INCOMP_HEADER_CHAIN => Some(
                Self::FirstFragmentIncompleteHeaderChain,
            ),
            CODE_PARAM_PROBLEM_SR_UPPER_LAYER_HEADER_ERROR => Some(Self::SrUpperLayerHeaderError),
            CODE_PARAM_PROBLEM_UNRECOG_NEXT_HEADER_BY_INTERMEDIATE_NODE => Some(
                Self::UnrecognizedNextHeaderByIntermediateNode,
            ),
            CODE_PARAM_PROBLEM_EXT_HEADER_TOO_BIG => Some(Self::ExtensionHeaderTooBig),
            CODE_PARAM_PROBLEM_EXT_HEADER_CHAIN_TOO_LONG => Some(Self::ExtensionHeaderChainTooLong),
            CODE_PARAM_PROBLEM_TOO_MANY_EXT_HEADERS => Some(Self::TooManyExtensionHeaders),
            CODE_PARAM_PROBLEM_TOO_MANY_OPTIONS_EXT_HEADER => Some(
                Self::TooManyOptionsInExtensionHeader,
            ),
            CODE_PARAM_PROBLEM_OPTION_TOO_BIG => Some(Self::OptionTooBig),
            _ => None,
        }
    }

    pub fn code_u8(self) -> u8
        ensures { result ≡ problem_number self }
    {
        self as u8
    }
}
