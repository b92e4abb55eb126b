// How far a router or a route is preferred over others (RFC 4191, section 2.1): bits 16 and 8 of a byte of flags.
#![tactic(auto)]

ghost use Rattle.std.specs.Prelude.{◌≡◌};
ghost use Rattle.router_preference.specs.Preference.{preference_bits, is_reserved, preference_of, preference_number};

#[derive(Clone, Copy, Debug, PartialEq, Eq)]
pub enum RouterPreference {
    Medium = 0,
    High = 1,
    Low = 3,
}

// The bits that name no preference.
const RESERVED: u8 = 2;

// The two bits as a number.
fn bits_of(flags: u8) -> u8
    ensures { result ≡ preference_bits flags }
{
    flags / 8 % 4
}

// Whether the bits are 10, which stand for no preference.
pub fn is_reserved(flags: u8) -> bool
    ensures { result ≡ is_reserved flags }
{
    bits_of(flags) == RESERVED
}

impl RouterPreference {
    // Of a byte of flags; medium where the bits are reserved.
    pub fn of_flags(flags: u8) -> RouterPreference
        ensures { preference_number result ≡ preference_of flags }
    {
        // By the bits of the wire (RFC 4191, section 2.1): two of the four mean medium.
        match bits_of(flags) {
            1 => RouterPreference::High,
            3 => RouterPreference::Low,
            _ => RouterPreference::Medium,
        }
    }

    // The two bits that tell it: 0 medium, 1 high, 3 low.
    pub fn number(self) -> u8
        ensures { result ≡ preference_number self }
    {
        self as u8
    }
}
