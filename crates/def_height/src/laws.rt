//! What the definitions imply.

ghost use Rattle.def_height.specs.Laws.{
  RiseIsGreatest,
  CoursesAreOfFormals,
  FormalsHaveCourses,
  HeightExists,
  HeightIsUnique,
  ItemsAreWithinOps,
  HeightIsWithin,
  HeightIsLow,
};

/// The rise of a course is its greatest running total.
pub fn courses()
    ensures rise { RiseIsGreatest }
{}

/// The formal satisfactions with a course are the formal satisfactions.
pub fn formals()
    ensures of_formals { CoursesAreOfFormals }
    ensures have_courses { FormalsHaveCourses }
{}

/// A tree with a correctness type has a height, and no other.
pub fn heights()
    ensures exists { HeightExists }
    ensures unique { HeightIsUnique }
{}

/// How high a tree can be, by its limits.
pub fn bounds()
    ensures items { ItemsAreWithinOps }
    ensures height { HeightIsWithin }
    ensures low { HeightIsLow }
{}
