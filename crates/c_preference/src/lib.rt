// How far a router advertisement asks that its router be preferred (RFC 4191, section 2.2).
#![tactic(auto)]

ghost use Rattle.std.specs.Prelude.{◌≡◌};
ghost use Rattle.icmpv6.specs.Preference.{preference_read};
ghost use Rattle.c_preference.specs.Preference.{preference_for};

use icmpv6::icmpv6_header::Icmpv6Header;

// The number is wide, so that the struct has no padding.
#[repr(C)]
#[derive(Clone, Copy)]
pub struct Preferred {
    pub answer: u32,
    pub refusal: u32,
    pub value: [u64; 5],
    pub preference: u64,
}

#[unsafe(no_mangle)]
pub extern "C" fn brothladder_preference(packet: &[u8]) -> Preferred
    ensures { result ≡ preference_for (preference_read packet.now) }
{
    // Each arm returns: an answer is then written straight to where it goes (docs/BENCHMARKS.md).
    match Icmpv6Header::from_slice(packet) {
        Ok(header) => {
            return Preferred {
                answer: c_answer::PREFERENCE,
                refusal: 0,
                value: [0, 0, 0, 0, 0],
                preference: u64::from(header.router_preference().number()),
            };
        }
        Err(why) => {
            let n = why.numbers();
            let value = n.values;
            return Preferred {
                answer: c_answer::REFUSED,
                refusal: u32::from(n.number),
                value,
                preference: 0,
            };
        }
    }
}
