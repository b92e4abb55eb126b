// The receive check. If a packet passes it, the answer says where its options are, which are whole in the edition that was asked.
#![tactic(auto)]

ghost use Rattle.std.specs.Prelude.{◌≡◌};
ghost use Rattle.ndp_options.specs.Editions.{edition_of};
ghost use Rattle.receive.specs.Receive.{receive_of};
ghost use Rattle.c_receive.specs.Received.{received_for};

use addresses::Addresses;
use ndp_options::Edition;
use receive::receive_check;

#[repr(C)]
#[derive(Clone, Copy)]
pub struct Received {
    pub answer: u32,
    pub refusal: u32,
    pub value: [u64; 5],
    pub options_at: usize,
    pub options_length: usize,
}

#[unsafe(no_mangle)]
pub extern "C" fn brothladder_receive(
    packet: &[u8],
    hop_limit: u8,
    source: &[u8; 16],
    destination: &[u8; 16],
    edition: u32,
) -> Received
    ensures { result ≡ received_for packet.now (receive_of (edition_of edition) hop_limit source.now destination.now packet.now) }
{
    // Each arm returns: an answer is then written straight to where it goes (docs/BENCHMARKS.md).
    match receive_check(
        packet,
        hop_limit,
        Addresses {
            source: *source,
            destination: *destination,
        },
        Edition::of(edition),
    ) {
        Ok(message) => {
            let at = message.options_at;
            return Received {
                answer: c_answer::RECEIVED,
                refusal: 0,
                value: [0; 5],
                options_at: at,
                options_length: packet.len() - at,
            };
        }
        Err(why) => {
            let n = why.numbers();
            let value = n.values;
            return Received {
                answer: c_answer::REFUSED,
                refusal: u32::from(n.number),
                value,
                options_at: 0,
                options_length: 0,
            };
        }
    }
}
