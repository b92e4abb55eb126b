// A packet written into a lent output, with 0 in the reserved bits. The header comes as numbers.
#![tactic(auto)]

ghost use Rattle.std.specs.Prelude.{◌≡◌};
ghost use Rattle.icmpv6.specs.Head.{Clearing};
ghost use Rattle.ndp_options.specs.Editions.{edition_of};
ghost use Rattle.writer.specs.Write.{write_of, output_by};
ghost use Rattle.c_written.specs.Written.{value_of_word, header_of_word, written_for};

use addresses::Addresses;
use c_written::Written;
use ndp_options::Edition;
use writer::write_packet_clearing;

#[unsafe(no_mangle)]
pub extern "C" fn brothladder_write_clearing(
    type_u8: u8,
    code_u8: u8,
    bytes5to8: u32,
    payload: &[u8],
    source: &[u8; 16],
    destination: &[u8; 16],
    out: &mut [u8],
    edition: u32,
) -> Written
    ensures answers { result ≡ written_for (write_of (edition_of edition) (value_of_word type_u8 code_u8 bytes5to8) payload.now out.old) }
    ensures lent { out.new ≡ output_by (edition_of edition) Clearing (header_of_word type_u8 code_u8 bytes5to8) source.now destination.now payload.now out.old }
{
    let header = c_written::header_of(type_u8, code_u8, bytes5to8);
    let written = write_packet_clearing(
        header,
        Addresses {
            source: *source,
            destination: *destination,
        },
        payload,
        out,
        Edition::of(edition),
    );
    c_written::told(written)
}
