// What RFC 4861 asks of each message of Neighbor Discovery beyond what it asks of all (sections 6.1.1, 6.1.2, 7.1.1, 7.1.2 and 8.1). Each call answers
// the first reason not to receive the message, None where there is none. `listed`: the options have one of type 1. Each rule takes those addresses alone that its
// section looks at.
#![tactic(auto)]

ghost use Rattle.std.specs.Prelude.{◌≡◌};
ghost use Rattle.receive_rules.specs.Reasons.{first_of, reason_number, reason_told};
ghost use Rattle.receive_rules.specs.Rules.{router_solicitation, router_advertisement, neighbor_solicitation, neighbor_advertisement, redirect};

use addresses::{is_link_local, is_multicast, is_same, is_solicited_node, is_unspecified};
use wire::has_flag;

// Why a packet is not received, in the order in which the reasons are tested. The first five are those of the receive check itself.
#[derive(Clone, Copy, Debug, PartialEq, Eq)]
pub enum Reason {
    HopLimit = 1,
    Checksum = 2,
    Code = 3,
    Length = 4,
    Options = 5,
    Addresses = 6,
    Target = 7,
    OptionAgainstSource = 8,
}

impl Reason {
    pub fn number(self) -> u8
        ensures { result ≡ reason_number self }
    {
        self as u8
    }
}

#[tactic(auto, unfolding(crate::specs::Reasons::first_of))]
pub fn router_solicitation(source: &[u8; 16], listed: bool) -> Option<Reason>
    ensures { reason_told result ≡ first_of (router_solicitation source.now listed) }
{
    if is_unspecified(source) && listed {
        Some(Reason::OptionAgainstSource)
    } else {
        None
    }
}

#[tactic(auto, unfolding(crate::specs::Reasons::first_of))]
pub fn router_advertisement(source: &[u8; 16]) -> Option<Reason>
    ensures { reason_told result ≡ first_of (router_advertisement source.now) }
{
    if is_link_local(source) {
        None
    } else {
        Some(Reason::Addresses)
    }
}

#[tactic(auto, unfolding(crate::specs::Reasons::first_of))]
pub fn neighbor_solicitation(
    source: &[u8; 16],
    destination: &[u8; 16],
    target: &[u8],
    listed: bool,
) -> Option<Reason>
    ensures { reason_told result ≡ first_of (neighbor_solicitation source.now destination.now target.now listed) }
{
    let nobody = is_unspecified(source);
    if nobody && !is_solicited_node(destination) {
        return Some(Reason::Addresses);
    }
    if is_multicast(target) {
        return Some(Reason::Target);
    }
    if nobody && listed {
        Some(Reason::OptionAgainstSource)
    } else {
        None
    }
}

#[tactic(auto, unfolding(crate::specs::Reasons::first_of))]
pub fn neighbor_advertisement(destination: &[u8; 16], flags: u8, target: &[u8]) -> Option<Reason>
    ensures { reason_told result ≡ first_of (neighbor_advertisement destination.now flags target.now) }
{
    if has_flag(flags, 64) && is_multicast(destination) {
        return Some(Reason::Addresses);
    }
    if is_multicast(target) {
        Some(Reason::Target)
    } else {
        None
    }
}

#[tactic(auto, unfolding(crate::specs::Reasons::first_of))]
pub fn redirect(source: &[u8; 16], target: &[u8], field: &[u8]) -> Option<Reason>
    ensures { reason_told result ≡ first_of (redirect source.now target.now field.now) }
{
    if !is_link_local(source) {
        return Some(Reason::Addresses);
    }
    if is_multicast(field) {
        return Some(Reason::Target);
    }
    if is_link_local(target) || is_same(target, field) {
        None
    } else {
        Some(Reason::Target)
    }
}
