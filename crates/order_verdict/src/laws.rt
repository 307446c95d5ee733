//! Laws of the definitions alone.

ghost use Rattle.order_verdict.specs.LagLaws.{DelaysAreToldByLags};

/// States, as its contract, what is known of a delay by the slots by which messages come late
/// ([`lags_text`](crate::lags_text)). It does nothing.
pub fn lag_laws()
    // A message of a tape has a page after its stop exactly if its last page comes so many slots after it as the delay
    // has, or more; and one before its start exactly if its first page does.
    ensures delays_are_told { DelaysAreToldByLags }
{}
