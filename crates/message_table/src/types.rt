// The type numbers that the crate names (RFC 4443, section 2.1; RFC 4861, section 4; the others at IANA). Those that the table does not have are of
// messages that are handed out as Unknown.
pub const TYPE_DST_UNREACH: u8 = 1;

pub const TYPE_PACKET_TOO_BIG: u8 = 2;

pub const TYPE_TIME_EXCEEDED: u8 = 3;

pub const TYPE_PARAMETER_PROBLEM: u8 = 4;

pub const TYPE_ECHO_REQUEST: u8 = 128;

pub const TYPE_ECHO_REPLY: u8 = 129;

pub const TYPE_MULTICAST_LISTENER_QUERY: u8 = 130;

pub const TYPE_MULTICAST_LISTENER_REPORT: u8 = 131;

pub const TYPE_MULTICAST_LISTENER_REDUCTION: u8 = 132;

pub const TYPE_ROUTER_SOLICITATION: u8 = 133;

pub const TYPE_ROUTER_ADVERTISEMENT: u8 = 134;

pub const TYPE_NEIGHBOR_SOLICITATION: u8 = 135;

pub const TYPE_NEIGHBOR_ADVERTISEMENT: u8 = 136;

pub const TYPE_REDIRECT_MESSAGE: u8 = 137;

pub const TYPE_ROUTER_RENUMBERING: u8 = 138;

pub const TYPE_INVERSE_NEIGHBOR_DISCOVERY_SOLICITATION: u8 = 141;

pub const TYPE_INVERSE_NEIGHBOR_DISCOVERY_ADVERTISEMENT: u8 = 142;

pub const TYPE_EXT_ECHO_REQUEST: u8 = 160;

pub const TYPE_EXT_ECHO_REPLY: u8 = 161;
