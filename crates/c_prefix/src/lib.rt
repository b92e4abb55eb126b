// The numbers of a prefix information option that a step handed out, read at its place in the packet.
#![tactic(auto)]

ghost use Rattle.std.specs.Prelude.{◌≡◌};
ghost use Rattle.prefix_information.specs.Prefix.{prefix_of, no_information};
ghost use Rattle.c_prefix.specs.Prefix.{prefix, prefix_for};

use prefix_information::PrefixInformation;

#[repr(C)]
#[derive(Clone, Copy)]
pub struct Prefix {
    pub answer: u32,
    pub refusal: u32,
    pub value: [u64; 5],
    pub prefix_length: u32,
    pub on_link: u16,
    pub autonomous: u16,
    pub valid_lifetime: u32,
    pub preferred_lifetime: u32,
    pub prefix: [u8; 16],
    pub place: usize,
}

fn prefix_of(
    answer: u32,
    refusal: u32,
    value: [u64; 5],
    i: PrefixInformation,
    place: usize,
) -> Prefix
    ensures { result ≡ prefix answer refusal value i place }
{
    let prefix = i.prefix;
    Prefix {
        answer,
        refusal,
        value,
        prefix_length: u32::from(i.prefix_length),
        on_link: u16::from(i.on_link),
        autonomous: u16::from(i.autonomous_address_configuration),
        valid_lifetime: i.valid_lifetime,
        preferred_lifetime: i.preferred_lifetime,
        prefix,
        place,
    }
}

// What an option says that is refused.
fn nothing() -> PrefixInformation
    ensures { result ≡ no_information }
{
    PrefixInformation {
        prefix_length: 0,
        on_link: false,
        autonomous_address_configuration: false,
        valid_lifetime: 0,
        preferred_lifetime: 0,
        prefix: [0; 16],
    }
}

#[unsafe(no_mangle)]
pub extern "C" fn brothladder_read_prefix(option: &[u8], offset: usize) -> Prefix
    ensures { result ≡ prefix_for (prefix_of offset option.now) }
{
    // Each arm returns: an answer is then written straight to where it goes (docs/BENCHMARKS.md).
    match PrefixInformation::from_slice(option, offset) {
        Ok((information, place)) => {
            return prefix_of(c_answer::PREFIX, 0, [0; 5], information, place);
        }
        Err(why) => {
            let n = why.numbers();
            let value = n.values;
            return prefix_of(c_answer::REFUSED, u32::from(n.number), value, nothing(), 0);
        }
    }
}
