//! The worked cases of the orders.
ghost use Rattle.orders.specs.Worked.{WorkedCases};

/// Promises that each worked case holds, of the definitions that the orders' contracts cite.
pub fn worked_cases()
    ensures { WorkedCases }
{}
