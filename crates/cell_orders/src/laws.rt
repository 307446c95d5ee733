//! Laws of the definitions alone, which the contract of `rows_of` cites.

ghost use Rattle.cell_orders.specs.Laws.{AllHaveTheirs, AreByLast, EachHasOne};

/// States, as its contract, what exchanges are. It does nothing.
pub fn exchange_laws()
    // Each message that concerns the cell has one exchange, and there are no others.
    ensures each_has_one { EachHasOne }

    // The answer of an exchange answers its order, or is the order of what waits for none.
    ensures all_have_theirs { AllHaveTheirs }

    // Exchanges stand in the order of their last messages, which are their answers where some came.
    ensures in_order { AreByLast }
{}
