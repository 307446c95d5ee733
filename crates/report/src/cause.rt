//! Causes in words.

ghost use Rattle.std.specs.Prelude.{◌≡◌};
ghost use Rattle.report.specs.Cause.{cause_words};

use cbsp_wire::cause;

/// Parameter not recognised.
const NOT_RECOGNISED: &str = "parameter not recognised";

/// Parameter value invalid.
const VALUE_INVALID: &str = "parameter value invalid";

/// Message reference not identified.
const NOT_IDENTIFIED: &str = "message reference not identified";

/// Cell identity not valid.
const CELL_NOT_VALID: &str = "cell identity not valid";

/// Unrecognised message.
const UNRECOGNISED: &str = "unrecognised message";

/// Missing mandatory element.
const MISSING: &str = "missing mandatory element";

/// BSC capacity exceeded.
const CAPACITY: &str = "BSC capacity exceeded";

/// Cell memory exceeded.
const CELL_MEMORY: &str = "cell memory exceeded";

/// BSC memory exceeded.
const BSC_MEMORY: &str = "BSC memory exceeded";

/// Cell broadcast not operational.
const NOT_OPERATIONAL: &str = "cell broadcast not operational";

/// Extended channel not supported.
const NOT_SUPPORTED: &str = "extended channel not supported";

/// Message reference already used.
const ALREADY_USED: &str = "message reference already used";

/// Any other cause.
const OTHER: &str = "another cause";

/// A cause of [`cbsp_wire::cause`] in words, as 3GPP TS 48.049, 8.2, Cause, names it; `another cause` for each other
/// number.
pub fn cause_words(number: u8) -> &'static str
    ensures { result.now ≡ cause_words number }
{
    match number {
        cause::PARAMETER_NOT_RECOGNISED => NOT_RECOGNISED,
        cause::PARAMETER_VALUE_INVALID => VALUE_INVALID,
        cause::MESSAGE_REFERENCE_NOT_IDENTIFIED => NOT_IDENTIFIED,
        cause::CELL_IDENTITY_NOT_VALID => CELL_NOT_VALID,
        cause::UNRECOGNISED_MESSAGE => UNRECOGNISED,
        cause::MISSING_MANDATORY_ELEMENT => MISSING,
        cause::BSC_CAPACITY_EXCEEDED => CAPACITY,
        cause::CELL_MEMORY_EXCEEDED => CELL_MEMORY,
        cause::BSC_MEMORY_EXCEEDED => BSC_MEMORY,
        cause::CELL_BROADCAST_NOT_OPERATIONAL => NOT_OPERATIONAL,
        cause::EXTENDED_CHANNEL_NOT_SUPPORTED => NOT_SUPPORTED,
        cause::MESSAGE_REFERENCE_ALREADY_USED => ALREADY_USED,
        _ => OTHER,
    }
}
