// Readers of single Neighbor Discovery options (RFC 4861, section 4.6; docs/RULES.md O1 to O8), one file for each option. Port of ndp_option/mod.rs.
#![tactic(auto)]

ghost use Rattle.std.specs.Prelude.{◌≡◌};
ghost use Rattle.ndp_option_read.specs.Rule.{read_told, part_from};

use refusal::Refusal;

pub mod link_layer_address_option;
pub mod mtu_option;
pub mod redirected_header_option;
pub mod unknown_option;

// The bytes of an option from a place on; none if the option is refused.
fn part(read: Result<usize, Refusal>, slice: &[u8], from: usize) -> &[u8]
    ensures { result.now ≡ part_from from (read_told read) slice.now }
{
    match read {
        Ok(_) if from <= slice.len() => &slice[from..],
        _ => &slice[..0],
    }
}
