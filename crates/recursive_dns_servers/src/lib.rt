// The recursive DNS server option (RFC 8106, section 5.1): 25, units, two reserved bytes, the lifetime, and one or more addresses of 16 bytes.
#![tactic(auto)]

ghost use Rattle.std.specs.Prelude.{◌≤◌, ◌≡◌, length};
ghost use Rattle.packet_place.specs.Place.{placed};
ghost use Rattle.recursive_dns_servers.specs.Servers.{servers_told, servers_of, count_in, address_of};

use refusal::{NdpOptionType, Refusal};

const RECURSIVE_DNS_SERVERS: NdpOptionType = NdpOptionType(25);

const FIXED_PART_LEN: usize = 8;

const ADDRESS_LEN: usize = 16;

// For how many seconds the servers may be used, how many they are, and the option's place in the packet.
#[derive(Clone, Copy, Debug, PartialEq, Eq)]
pub struct RecursiveDnsServers {
    pub lifetime: u32,
    pub count: usize,
    pub place: usize,
}

// How many addresses an option has.
fn count_in(slice: &[u8]) -> usize
    requires { 8 ≤ length slice.now }
    ensures { result ≡ count_in slice.now }
{
    (slice.len() - FIXED_PART_LEN) / ADDRESS_LEN
}

// The option whose first byte is at an offset of the packet. Its reserved bytes are not looked at.
pub fn from_slice(slice: &[u8], offset: usize) -> Result<RecursiveDnsServers, Refusal>
    ensures { servers_told result ≡ placed offset slice.now (servers_of slice.now) }
{
    let (_, place) = ndp_option_second::judged(RECURSIVE_DNS_SERVERS, slice, offset)?;
    Ok(RecursiveDnsServers {
        lifetime: wire::u32_from_be(slice[4], slice[5], slice[6], slice[7]),
        count: count_in(slice),
        place,
    })
}

// The address of the server i, counted from 0; no bytes if there is none, or if the option is refused.
pub fn address(slice: &[u8], i: usize) -> &[u8]
    ensures { result.now ≡ address_of i slice.now }
{
    match ndp_option_second::judged(RECURSIVE_DNS_SERVERS, slice, 0) {
        Ok(_) if i < count_in(slice) => {
            let from = FIXED_PART_LEN + ADDRESS_LEN * i;
            &slice[from..from + ADDRESS_LEN]
        }
        _ => &slice[..0],
    }
}
