// The version of the calls for C. A C program refers to this call by its name, which has the number in it: an object that was compiled with the
// header of another version does not link.
#![tactic(auto)]

ghost use Rattle.std.specs.Prelude.{◌≡◌};

pub const VERSION: u32 = 6;

#[unsafe(no_mangle)]
pub extern "C" fn brothladder_version_6() -> u32
    ensures { result ≡ 6 }
{
    VERSION
}
