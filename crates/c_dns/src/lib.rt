// The numbers of a recursive DNS server option that a step handed out, read at its place in the packet.
#![tactic(auto)]

ghost use Rattle.std.specs.Prelude.{◌≡◌};
ghost use Rattle.packet_place.specs.Place.{placed};
ghost use Rattle.recursive_dns_servers.specs.Servers.{servers_of};
ghost use Rattle.c_dns.specs.Servers.{servers_for};

#[repr(C)]
#[derive(Clone, Copy)]
pub struct Servers {
    pub answer: u32,
    pub refusal: u32,
    pub value: [u64; 5],
    pub lifetime: u64,
    pub count: usize,
    pub place: usize,
}

// The arms stand here and not in a `From`: an answer is then written straight to where it goes (docs/BENCHMARKS.md).
#[tactic(auto, unfolding(crate::specs::Servers::servers_for))]
#[unsafe(no_mangle)]
pub extern "C" fn brothladder_read_dns(option: &[u8], offset: usize) -> Servers
    ensures { result ≡ servers_for (placed offset option.now (servers_of option.now)) }
{
    match recursive_dns_servers::from_slice(option, offset) {
        Ok(servers) => {
            return Servers {
                answer: c_answer::SERVERS,
                refusal: 0,
                value: [0; 5],
                lifetime: u64::from(servers.lifetime),
                count: servers.count,
                place: servers.place,
            };
        }
        Err(why) => {
            let n = why.numbers();
            let value = n.values;
            return Servers {
                answer: c_answer::REFUSED,
                refusal: u32::from(n.number),
                value,
                lifetime: 0,
                count: 0,
                place: 0,
            };
        }
    }
}
