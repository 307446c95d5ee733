//! Laws of the definitions alone, which the contracts of `read` and `write` cite.

ghost use Rattle.cbsp_link.specs.Laws.{LinkIsReadBack, OwnIsRead};

/// States, as its contract, that what is written of a message is read as that message, and so are the messages of this
/// project's own layouts. It does nothing.
pub fn link_laws()
    // What is written is read back, whatever follows it.
    ensures round_trip { LinkIsReadBack }

    // Octets that mean a message to `cbsp_wire` are read as that message. A write of its without a channel indicator,
    // as this project writes them, is an emergency message on the link.
    ensures own_is_read { OwnIsRead }
{}
