//! The law about spans: the contract of the function is the law, and its body does nothing.
ghost use Rattle.scaled_span.specs.Operations.{OperationsAddUp};

/// An end to which n operations lead from whole points, n at most 2^40, differs from the exact value by at
/// most 2·n parts in 2^61 of it.
pub fn operations_add_up()
    ensures { OperationsAddUp }
{}
