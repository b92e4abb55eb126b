// A step of the option walk. The caller passes to each step the `next` of the step before it, the same offset, where the options begin in the packet,
// and the same edition.
#![tactic(auto)]

ghost use Rattle.std.specs.Prelude.{◌≡◌};
ghost use Rattle.ndp_options.specs.Editions.{edition_of};
ghost use Rattle.ndp_options.specs.Walk.{step_of};
ghost use Rattle.ndp_options.specs.Told.{option_kind_number};
ghost use Rattle.c_step.specs.Stepped.{bare, stepped_for};

use ndp_options::{Cursor, Edition, NdpOptionKind, Step};

// `next` of End and Stopped is the place that was passed in: a walk that is over stays over.
#[repr(C)]
#[derive(Clone, Copy)]
pub struct Stepped {
    pub answer: u32,
    pub refusal: u32,
    pub value: [u64; 5],
    pub kind: u32,
    pub option_type: u32,
    pub at: usize,
    pub length: usize,
    pub next: usize,
    pub place: usize,
}

// By a match: these are the numbers of the interface for C, and the library gives its kinds none.
fn kind_number(kind: NdpOptionKind) -> u32
    ensures { result ≡ option_kind_number kind }
{
    match kind {
        NdpOptionKind::Unknown => 0,
        NdpOptionKind::SourceLinkLayerAddress => 1,
        NdpOptionKind::TargetLinkLayerAddress => 2,
        NdpOptionKind::PrefixInformation => 3,
        NdpOptionKind::RedirectedHeader => 4,
        NdpOptionKind::Mtu => 5,
        NdpOptionKind::RouteInformation => 24,
        NdpOptionKind::RecursiveDnsServers => 25,
    }
}

// An answer without an option.
fn bare(answer: u32, refusal: u32, value: [u64; 5], next: usize) -> Stepped
    ensures { result ≡ bare answer refusal value next }
{
    Stepped {
        answer,
        refusal,
        value,
        kind: 0,
        option_type: 0,
        at: 0,
        length: 0,
        next,
        place: 0,
    }
}

#[tactic(auto, unfolding(crate::specs::Stepped::stepped_for))]
#[unsafe(no_mangle)]
pub extern "C" fn brothladder_step(
    options: &[u8],
    offset: usize,
    at: usize,
    edition: u32,
) -> Stepped
    ensures { result ≡ stepped_for at (step_of (edition_of edition) offset options.now at) }
{
    let c = Cursor { at };
    // Each arm returns: an answer is then written straight to where it goes (docs/BENCHMARKS.md).
    match c.step(options, offset, Edition::of(edition)) {
        Step::Handed(option, next) => {
            return Stepped {
                answer: c_answer::OPTION,
                refusal: 0,
                value: [0; 5],
                kind: kind_number(option.kind),
                option_type: u32::from(option.option_type.0),
                at: option.at,
                length: option.len,
                next: next.at,
                place: option.place,
            };
        }
        Step::End => return bare(c_answer::END, 0, [0; 5], at),
        Step::Refused(why, next) => {
            let n = why.numbers();
            let value = n.values;
            return bare(c_answer::REFUSED, u32::from(n.number), value, next.at);
        }
        Step::Stopped => return bare(c_answer::STOPPED, 0, [0; 5], at),
    }
}
