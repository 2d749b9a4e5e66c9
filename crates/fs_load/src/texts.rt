//! The texts of the commands of a load.

ghost use Rattle.std.specs.Prelude.{◌≡◌, ◌<◌};
ghost use Rattle.fs_load.specs.Calls as spec;

/// The command by which a connection gives its password.
pub(crate) const AUTH: &str = "auth ClueCon\n\n";

/// The command by which it leaves.
pub(crate) const EXIT: &str = "exit\n\n";

/// The commands of the call with a digit, from 0 to 3.
#[tactic(auto, unfolding(crate::specs::Calls::call_text))]
pub(crate) fn call_with(digit: u64) -> &'static str
    requires { digit < 4 }
    ensures { result.now ≡ spec.call_text digit }
{
    match digit {
        0 => "api originate loopback/d0 &park()\n\napi hupall\n\n",
        1 => "api originate loopback/d1 &park()\n\napi hupall\n\n",
        2 => "api originate loopback/d2 &park()\n\napi hupall\n\n",
        _ => "api originate loopback/d3 &park()\n\napi hupall\n\n",
    }
}
