//! Laws of the definitions alone, which the contract of `read_rows` cites.

ghost use Rattle.orders_file.specs.Laws.{OrdersAreReadBack};

/// States, as its contract, that what is written of rows is read back. It does nothing.
pub fn orders_file_laws()
    // What `orders_text` writes of rows within the ranges is an orders file of these, but for times and packets.
    ensures read_back { OrdersAreReadBack }
{}
