// Which fans the fans of polytopes are: what their values are right for. It has no code. It knows nothing of rules,
// clients and sessions.

ghost use Rattle.pm_laws_things.specs.Existence.{FaceFansExist, NormalFansExist, RefinementsExist};
ghost use Rattle.pm_laws_things.specs.ExistenceExamples.{FanExistenceIsRead};
ghost use Rattle.pm_laws_things.specs.FanExamples.{FansAreRead, RefinementsOfFansAreRead};
ghost use Rattle.pm_laws_things.specs.FanLaws.{FaceFanIsDescribed, NormalFanIsDescribed, NormalFanOfSum, RefinementIsDescribed};

/// The values of a normal fan are right for the normal fan of each polytope for which the values read are right.
/// Each has one: `law_normal_fans_exist`.
pub fn law_normal_fan_is_described()
    ensures { NormalFanIsDescribed }
{}

/// The values of a face fan are right for the face fan of each polytope for which the values read are right.
/// Each has one: `law_face_fans_exist`.
pub fn law_face_fan_is_described()
    ensures { FaceFanIsDescribed }
{}

/// The values of a common refinement are right for the common refinement of each two fans for which the values read
/// are right. Each two have one: `law_refinements_exist`.
pub fn law_refinement_is_described()
    ensures { RefinementIsDescribed }
{}

/// Each bounded polytope that is not empty, with a column beside the first, has a normal fan.
pub fn law_normal_fans_exist()
    ensures { NormalFansExist }
{}

/// Each bounded polytope with 0 in its interior, with a column beside the first, has a face fan.
pub fn law_face_fans_exist()
    ensures { FaceFansExist }
{}

/// Each two fans of as many columns have a common refinement.
pub fn law_refinements_exist()
    ensures { RefinementsExist }
{}

/// The normal fan of the sum of two bounded polytopes is the common refinement of their normal fans.
pub fn law_normal_fan_of_sum()
    ensures { NormalFanOfSum }
{}

/// The normal fan and the face fan of a square, and what the values of small fans describe.
pub fn example_fans()
    ensures { FansAreRead }
{}

/// The fan of the two rays of the line, refined by itself, and what is no refinement; which polytopes are bounded.
pub fn example_refinements()
    ensures { RefinementsOfFansAreRead }
{}

/// Which normal fans, face fans and refinements there are, and which there are not.
pub fn example_fan_existence()
    ensures { FanExistenceIsRead }
{}
