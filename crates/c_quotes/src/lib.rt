// The chain of packets that a message quotes.
#![tactic(auto)]

ghost use Rattle.std.specs.Prelude.{◌≡◌, ◌<◌};
ghost use Rattle.paper.specs.Each.{Each};
ghost use Rattle.ndp_options.specs.Editions.{edition_of};
ghost use Rattle.quotes.specs.Told.{read_of};
ghost use Rattle.c_quotes.specs.Columns.{Byte, column, Narrow, chain_with, chain_for};

use ndp_options::Edition;

// Of level i, counted from 0: where its quote begins in the packet, its next header, and the kind of its message. 0 behind the last level.
#[repr(C)]
#[derive(Clone, Copy)]
pub struct Chain {
    pub answer: u32,
    pub refusal: u32,
    pub value: [u64; 5],
    pub kind: u32,
    pub levels: u32,
    pub quote: [u32; 8],
    pub next_header: [u8; 8],
    pub level_kind: [u8; 8],
}

// Every third number from the i-th on, each of them a byte.
fn column(n: [u32; 25], i: usize) -> [u8; 8]
    requires { (i < 4) × Each Byte (column i n) }
    ensures { result ≡ column i n }
{
    [
        n[i] as u8,
        n[3 + i] as u8,
        n[6 + i] as u8,
        n[9 + i] as u8,
        n[12 + i] as u8,
        n[15 + i] as u8,
        n[18 + i] as u8,
        n[21 + i] as u8,
    ]
}

// What stands beside a refusal: no level, and 0 for every number.
const NOTHING: quotes::Chain = quotes::Chain {
    levels: 0,
    numbers: [0; 25],
};

fn chain_of(answer: u32, refusal: u32, value: [u64; 5], c: quotes::Chain) -> Chain
    requires { Narrow c }
    ensures { result ≡ chain_with answer refusal value c }
{
    let n = c.numbers;
    Chain {
        answer,
        refusal,
        value,
        kind: n[0],
        levels: c.levels as u32,
        quote: [n[1], n[4], n[7], n[10], n[13], n[16], n[19], n[22]],
        next_header: column(n, 2),
        level_kind: column(n, 3),
    }
}

#[unsafe(no_mangle)]
pub extern "C" fn brothladder_chain(packet: &[u8], edition: u32) -> Chain
    ensures { result ≡ chain_for (read_of (edition_of edition) packet.now) }
{
    // Each arm returns: an answer is then written straight to where it goes (docs/BENCHMARKS.md).
    match quotes::read_chain(packet, Edition::of(edition)) {
        Ok(chain) => return chain_of(c_answer::CHAIN, 0, [0; 5], chain),
        Err(why) => {
            let n = why.numbers();
            let value = n.values;
            return chain_of(c_answer::REFUSED, u32::from(n.number), value, NOTHING);
        }
    }
}
