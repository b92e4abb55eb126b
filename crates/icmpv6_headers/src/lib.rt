// What bytes 4 to 7 of the head hold where they hold more than one number.
#![tactic(auto)]

pub mod icmp_echo_header;
pub mod neighbor_advertisement_header;
pub mod router_advertisement_header;
