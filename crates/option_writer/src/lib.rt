// Writers of the options that a sender needs (RFC 4861, section 4.6; docs/RULES.md T7, T12): `put_..` at a place of a lent buffer, `write_..` at its
// start. Refusal 9 if there is no room.
#![tactic(auto)]

ghost use Rattle.std.specs.Prelude.{◌≡◌};
ghost use Rattle.output.specs.Output.{written_told, room_for, leaves};
ghost use Rattle.prefix_information.specs.Prefix.{bytes_of};
ghost use Rattle.option_writer.specs.Options.{mtu_bytes, link_layer_bytes};

use ndp_option::link_layer_address_option::LinkLayerAddressOption;
use prefix_information::PrefixInformation;
use refusal::Refusal;

// Section 4.6.2.
pub fn put_prefix_information(
    information: PrefixInformation,
    out: &mut [u8],
    at: usize,
) -> Result<usize, Refusal>
    ensures answers { written_told result ≡ room_for 32 out.old at }
    ensures lent { out.new ≡ leaves (room_for 32 out.old at) out.old at (bytes_of information) }
{
    output::put(out, at, &information.to_bytes())
}

pub fn write_prefix_information(
    information: PrefixInformation,
    out: &mut [u8],
) -> Result<usize, Refusal>
    ensures answers { written_told result ≡ room_for 32 out.old 0 }
    ensures lent { out.new ≡ leaves (room_for 32 out.old 0) out.old 0 (bytes_of information) }
{
    put_prefix_information(information, out, 0)
}

// Section 4.6.4; the reserved bytes are 0.
pub fn put_mtu(mtu: u32, out: &mut [u8], at: usize) -> Result<usize, Refusal>
    ensures answers { written_told result ≡ room_for 8 out.old at }
    ensures lent { out.new ≡ leaves (room_for 8 out.old at) out.old at (mtu_bytes mtu) }
{
    let [a, b, c, d] = wire::u32_to_be(mtu);
    output::put(out, at, &[5, 1, 0, 0, a, b, c, d])
}

pub fn write_mtu(mtu: u32, out: &mut [u8]) -> Result<usize, Refusal>
    ensures answers { written_told result ≡ room_for 8 out.old 0 }
    ensures lent { out.new ≡ leaves (room_for 8 out.old 0) out.old 0 (mtu_bytes mtu) }
{
    put_mtu(mtu, out, 0)
}

// Section 4.6.1: the source's or the target's address, of six bytes as on an Ethernet (RFC 2464, section 6).
pub fn put_link_layer_address(
    whose: LinkLayerAddressOption,
    address: [u8; 6],
    out: &mut [u8],
    at: usize,
) -> Result<usize, Refusal>
    ensures answers { written_told result ≡ room_for 8 out.old at }
    ensures lent { out.new ≡ leaves (room_for 8 out.old at) out.old at (link_layer_bytes whose address) }
{
    let id = whose.option_type();
    let [a, b, c, d, e, f] = address;
    output::put(out, at, &[id.0, 1, a, b, c, d, e, f])
}

pub fn write_link_layer_address(
    whose: LinkLayerAddressOption,
    address: [u8; 6],
    out: &mut [u8],
) -> Result<usize, Refusal>
    ensures answers { written_told result ≡ room_for 8 out.old 0 }
    ensures lent { out.new ≡ leaves (room_for 8 out.old 0) out.old 0 (link_layer_bytes whose address) }
{
    put_link_layer_address(whose, address, out, 0)
}
