// Orders of things: each thing has some, and a value that speaks of no order is right in all where it is right in
// some. It has no code. It knows nothing of objects, rules and clients.

ghost use Rattle.pm_laws_things.specs.OrderExamples.{OrdersAreRead, SquareGraphsAreRead};
ghost use Rattle.pm_laws_things.specs.Orders.{GraphsOfAllOrders, OrdersExist, SomeOrdersAreAll};

/// Each cone, polytope and fan has orders of its rays, facets and cones.
pub fn law_orders_exist()
    ensures { OrdersExist }
{}

/// A value of a property that speaks of no order is right in all orders of the thing exactly where it is right in
/// some.
pub fn law_some_orders_are_all()
    ensures { SomeOrdersAreAll }
{}

/// The graphs of a cone or polytope have the same diameters and as many edges and ridges in all orders, and facets
/// meet in the same ridges whatever the order of the rays.
pub fn law_graphs_of_all_orders()
    ensures { GraphsOfAllOrders }
{}

/// The orders of the half line: which face is far in some of them and not in all; which properties speak of no order.
pub fn example_orders()
    ensures { OrdersAreRead }
{}

/// The square has four edges in all orders, and two steps join any two vertices; it has no three, and one step does
/// not.
pub fn example_square()
    ensures { SquareGraphsAreRead }
{}
