//! Laws of replies, and of what is done in cells.

ghost use Rattle.order_desk.specs.ReplyLaws.{AcceptedAreListed, CellsAnswerTheirCommands, OthersAreNotRefused};
ghost use Rattle.order_desk.specs.ReplyLaws.{RefusalsAreListed, ReplacedAreCounted, StopsAreCounted};
ghost use Rattle.order_desk.specs.StepLaws.{OrdersAreSteps, PlaysAreSteps, PlaysOfOrdersAreSteps, StatusesAreSteps};

/// What the lists of a reply say of the cells that were asked. It does nothing: its contract is the law.
pub fn reply_laws()
    // Each refusal is told with its cell and cause, in the order of the answers.
    ensures refusals_are_listed { RefusalsAreListed }

    // So is each cell that accepted a plain write.
    ensures accepted_are_listed { AcceptedAreListed }

    // And so are the completed broadcasts of each cell that stopped or replaced a message.
    ensures stops_are_counted { StopsAreCounted }
    ensures replaced_are_counted { ReplacedAreCounted }

    // No other cell is said to have refused.
    ensures others_are_not_refused { OthersAreNotRefused }

    // What cells answer are answers of which a reply can be made.
    ensures cells_answer_their_commands { CellsAnswerTheirCommands }
{}

/// What `Desk::order`, `Desk::play` and `Desk::status` do in a cell are steps of the cell, as `steps_of_a_cell` of
/// bsc_table has them: an order is a play up to its slot and then its command, in one hold of the cell's lock. So
/// whatever users do at a desk, in whichever order they come to a cell, is a list of its steps. It does nothing: its
/// contract is the law.
pub fn desk_steps()
    ensures orders { OrdersAreSteps }
    ensures plays_of_orders { PlaysOfOrdersAreSteps }
    ensures plays { PlaysAreSteps }
    ensures statuses { StatusesAreSteps }
{}
