// The route information option (RFC 4191, section 2.3): 24, units, the prefix length, the flags, the lifetime, and none, 8 or 16 bytes of the prefix.
#![tactic(auto)]

ghost use Rattle.std.specs.Prelude.{◌≤◌, ◌≡◌, length, get_or};
ghost use Rattle.route_information.specs.Route.{route_told, route_of, information_at, bytes_from};

use ndp_options::NdpOptionKind;
use refusal::{NdpOptionType, Refusal};
use router_preference::RouterPreference;

const ROUTE_INFORMATION: NdpOptionType = NdpOptionType(24);

#[derive(Clone, Copy, Debug, PartialEq, Eq)]
pub struct RouteInformation {
    // How many leading bits of the prefix are valid: at most 128. Bits of the prefix behind them are not looked at.
    pub prefix_length: u8,
    pub preference: RouterPreference,
    // In seconds.
    pub lifetime: u32,
    // 0 where the option has no bytes of it.
    pub prefix: [u8; 16],
}

// With the option's place in the packet. Ignored: the preference is the reserved one, and nobody may use the route.
#[derive(Clone, Copy, Debug, PartialEq, Eq)]
pub enum RouteAnswer {
    Route(RouteInformation, usize),
    Ignored(usize),
}

// The option whose first byte is at an offset of the packet.
pub fn from_slice(slice: &[u8], offset: usize) -> Result<RouteAnswer, Refusal>
    ensures { route_told result ≡ route_of offset slice.now }
{
    let (kind, place) = ndp_option_second::judged(ROUTE_INFORMATION, slice, offset)?;
    match kind {
        NdpOptionKind::RouteInformation => Ok(RouteAnswer::Route(information_in(slice), place)),
        _ => Ok(RouteAnswer::Ignored(place)),
    }
}

// The contents of an option, whatever its header. Reserved bits are dropped.
fn information_in(slice: &[u8]) -> RouteInformation
    requires { 8 ≤ length slice.now }
    ensures { result ≡ information_at slice.now }
{
    RouteInformation {
        prefix_length: slice[2],
        preference: RouterPreference::of_flags(slice[3]),
        lifetime: wire::u32_from_be(slice[4], slice[5], slice[6], slice[7]),
        prefix: prefix_in(slice),
    }
}

// Byte by byte: a route has none of them, 8 or 16, and a copy whose length varies would ask for a symbol from outside. Each of the three is told at once:
// with a test at every byte a route takes three quarters more instructions.
fn prefix_in(slice: &[u8]) -> [u8; 16]
    ensures { result ≡ bytes_from 16 8 slice.now }
{
    if slice.len() <= 8 {
        return [0; 16];
    }
    if slice.len() == 16 {
        return [
            slice[8], slice[9], slice[10], slice[11], slice[12], slice[13], slice[14], slice[15],
            0, 0, 0, 0, 0, 0, 0, 0,
        ];
    }
    if slice.len() >= 24 {
        return [
            slice[8], slice[9], slice[10], slice[11], slice[12], slice[13], slice[14], slice[15],
            slice[16], slice[17], slice[18], slice[19], slice[20], slice[21], slice[22], slice[23],
        ];
    }
    [
        byte_at(slice, 8),
        byte_at(slice, 9),
        byte_at(slice, 10),
        byte_at(slice, 11),
        byte_at(slice, 12),
        byte_at(slice, 13),
        byte_at(slice, 14),
        byte_at(slice, 15),
        byte_at(slice, 16),
        byte_at(slice, 17),
        byte_at(slice, 18),
        byte_at(slice, 19),
        byte_at(slice, 20),
        byte_at(slice, 21),
        byte_at(slice, 22),
        byte_at(slice, 23),
    ]
}

// A byte, and 0 past the last: one line of std, private in each crate that needs it.
fn byte_at(slice: &[u8], at: usize) -> u8
    ensures { result ≡ get_or slice.now at 0 }
{
    slice.get(at).copied().unwrap_or(0)
}
