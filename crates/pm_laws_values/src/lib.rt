//! A property has one value: what clients answer is determined by the thing and its orders. It has no code.
#![tactic(auto)]

ghost use Rattle.pm_laws_values.specs.Examples.{TwoValuesAreRead};
ghost use Rattle.pm_laws_values.specs.Choosing.{StandardKindsFindRows};
ghost use Rattle.pm_laws_values.specs.FaceNumbers.{FaceNumbersAreOne};
ghost use Rattle.pm_laws_values.specs.Objects.{AnswersAreHeld, AnswersAreKept, OneValueOfObjects};
ghost use Rattle.pm_laws_values.specs.OneValue.{OneValue};
ghost use Rattle.pm_laws_values.specs.OrderExamples.{OneOrderIsRead};
ghost use Rattle.pm_laws_values.specs.Orders.{FreshOrdersAreOne, OneValueInOneOrder, RightInOneOrder};

/// Two values of a determined property that are in form, right for one thing in the same orders, and canonical as
/// clients of any kinds answer them, are one value.
pub fn law_one_value()
    ensures { OneValue }
{}

/// What is right in some orders is right in orders of other representatives, alike place by place.
pub fn law_right_in_one_order()
    ensures { RightInOneOrder }
{}

/// Two such values, each right in its own of two such orders, are one.
pub fn law_one_value_in_one_order()
    ensures { OneValueInOneOrder }
{}

/// A value of VERTICES or FACETS fixes the order of rays or facets; and those that clients chose are in one order.
pub fn law_fresh_orders_are_one()
    ensures { FreshOrdersAreOne }
{}

/// Two honest objects with the same given values hold one value of a determined property, whatever books, chains,
/// clients and widths of numbers found it.
pub fn law_one_value_of_objects()
    ensures { OneValueOfObjects }
{}

/// What a client answers is held as it answered it, whatever is held besides.
pub fn law_answers_are_held()
    ensures { AnswersAreHeld }
{}

/// Orders that are one and that are not, and objects whose orders are fixed.
pub fn example_one_order()
    ensures { OneOrderIsRead }
{}

/// Properties with two values, of which the laws do not speak.
pub fn example_two_values()
    ensures { TwoValuesAreRead }
{}

/// Each computed value of an object is held as a client of some kind answers it: so it stays after values that were
/// given and after what clients may answer.
pub fn law_answers_are_kept()
    ensures { AnswersAreKept }
{}

/// The shipped kinds that choose an order of rays or facets find VERTICES or FACETS, whose order is the lexicographic
/// one.
pub fn law_standard_kinds_find_rows()
    ensures { StandardKindsFindRows }
{}

/// The f-vector and the flag numbers of two ranks are the same in every order of the rays.
pub fn law_face_numbers_are_one()
    ensures { FaceNumbersAreOne }
{}
