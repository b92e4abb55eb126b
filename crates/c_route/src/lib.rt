// The numbers of a route information option that a step handed out, read at its place in the packet.
#![tactic(auto)]

ghost use Rattle.std.specs.Prelude.{◌≡◌};
ghost use Rattle.route_information.specs.Route.{route_of, no_information};
ghost use Rattle.c_route.specs.Route.{route, route_for};

use route_information::{RouteAnswer, RouteInformation};
use router_preference::RouterPreference;

#[repr(C)]
#[derive(Clone, Copy)]
pub struct Route {
    pub answer: u32,
    pub refusal: u32,
    pub value: [u64; 5],
    pub prefix_length: u16,
    pub preference: u16,
    pub lifetime: u32,
    pub prefix: [u8; 16],
    pub place: usize,
}

fn route_of(answer: u32, refusal: u32, value: [u64; 5], i: RouteInformation, place: usize) -> Route
    ensures { result ≡ route answer refusal value i place }
{
    let prefix = i.prefix;
    Route {
        answer,
        refusal,
        value,
        prefix_length: u16::from(i.prefix_length),
        preference: u16::from(i.preference.number()),
        lifetime: i.lifetime,
        prefix,
        place,
    }
}

// What a route says that is ignored or refused.
fn nothing() -> RouteInformation
    ensures { result ≡ no_information }
{
    RouteInformation {
        prefix_length: 0,
        preference: RouterPreference::Medium,
        lifetime: 0,
        prefix: [0; 16],
    }
}

#[unsafe(no_mangle)]
pub extern "C" fn brothladder_read_route(option: &[u8], offset: usize) -> Route
    ensures { result ≡ route_for (route_of offset option.now) }
{
    // Each arm returns: an answer is then written straight to where it goes (docs/BENCHMARKS.md).
    match route_information::from_slice(option, offset) {
        Ok(RouteAnswer::Route(information, place)) => {
            return route_of(c_answer::ROUTE, 0, [0; 5], information, place);
        }
        Ok(RouteAnswer::Ignored(place)) => {
            return route_of(c_answer::IGNORED, 0, [0; 5], nothing(), place);
        }
        Err(why) => {
            let n = why.numbers();
            let value = n.values;
            return route_of(c_answer::REFUSED, u32::from(n.number), value, nothing(), 0);
        }
    }
}
