// The MTU of an option that a step handed out, read at its place in the packet.
#![tactic(auto)]

ghost use Rattle.std.specs.Prelude.{◌≡◌};
ghost use Rattle.packet_place.specs.Place.{placed};
ghost use Rattle.ndp_option.specs.Mtu.{mtu_of};
ghost use Rattle.c_mtu.specs.Mtu.{mtu_for};

use ndp_option::mtu_option::MtuOption;

// `kind` is that of the option, which a refused one has not: beside it the MTU has its own width, and the struct no padding.
#[repr(C)]
#[derive(Clone, Copy)]
pub struct Mtu {
    pub answer: u32,
    pub refusal: u32,
    pub value: [u64; 5],
    pub kind: u32,
    pub mtu: u32,
    pub place: usize,
}

// The arms stand here and not in a `From`: an answer is then written straight to where it goes (docs/BENCHMARKS.md).
#[tactic(auto, unfolding(crate::specs::Mtu::mtu_for))]
#[unsafe(no_mangle)]
pub extern "C" fn brothladder_read_mtu(option: &[u8], offset: usize) -> Mtu
    ensures { result ≡ mtu_for (placed offset option.now (mtu_of option.now)) }
{
    match MtuOption::from_slice(option, offset) {
        Ok(MtuOption { mtu, place }) => {
            return Mtu {
                answer: c_answer::MTU,
                refusal: 0,
                value: [0; 5],
                kind: 5,
                mtu,
                place,
            };
        }
        Err(why) => {
            let n = why.numbers();
            let value = n.values;
            return Mtu {
                answer: c_answer::REFUSED,
                refusal: u32::from(n.number),
                value,
                kind: 0,
                mtu: 0,
                place: 0,
            };
        }
    }
}
