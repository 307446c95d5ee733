//! The calls of a device over memory.

ghost use Rattle.std.specs.Prelude.{◌≡◌, ◌↔◌, Some, IsErr};
ghost use Rattle.device_ends.specs.Calls.{after_one_call};

use std::io;

/// Counts one call of those that are left, and returns an error if none is. At `None` calls aren't counted, and none
/// fails.
pub fn count_call(calls: &mut Option<usize>) -> io::Result<()>
    ensures fails { IsErr result ↔ (calls.old ≡ Some 0) }
    ensures left { calls.new ≡ after_one_call calls.old }
{
    *calls = match *calls {
        Some(0) => return Err(io::Error::other("no call is left")),
        Some(left) => Some(left - 1),
        None => None,
    };
    Ok(())
}
