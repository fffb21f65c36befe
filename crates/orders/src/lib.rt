// Linearization: operations whose timestamps respect real time can be put in one order.
// In that order no operation stands before one that was over when it began, and every read gives what was written last before it.
#![tactic(auto)]

ghost use Rattle.orders.specs.Order.{StampedOperationsHaveAnOrder};

// Of every history of operations with such timestamps.
pub fn stamped_operations_have_an_order()
    ensures { StampedOperationsHaveAnOrder }
{}
