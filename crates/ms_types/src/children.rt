//! What the types of a threshold need to know of its children's types.
ghost use Rattle.std.specs.Prelude.{◌≡◌, ◌<◌, ◌^◌};
ghost use Rattle.ms_types.specs.Scaffolding.Children.{and as the_and};
ghost use Rattle.ms_types.specs.Scaffolding.Signed.{and as and_signed};

use crate::requirements::{may_be_first, may_follow};
use def_types::{CorrectnessType, MalleabilityProperties};

/// What is known of the correctness types of the children that were seen.
#[derive(Clone, Copy)]
pub struct Children {
    /// How many there are.
    pub count: u64,
    /// There is a first one, which is B d u.
    pub first_fits: bool,
    /// The others are W d u.
    pub others_fit: bool,
    /// All are z.
    pub all_z: bool,
    /// All are z but one, which is o.
    pub all_z_but_one: bool,
}

impl Children {
    /// No child.
    pub const NONE: Children = Children {
        count: 0,
        first_fits: false,
        others_fit: true,
        all_z: true,
        all_z_but_one: false,
    };

    /// One more child behind the others.
    pub fn and(self, child: CorrectnessType) -> Children
        requires { self.count < 2 ^ 63 }
        ensures { result ≡ the_and self child }
    {
        let is_first = self.count == 0;
        Children {
            count: self.count + 1,
            first_fits: if is_first {
                may_be_first(child)
            } else {
                self.first_fits
            },
            others_fit: self.others_fit && (is_first || may_follow(child)),
            all_z: self.all_z && child.z,
            all_z_but_one: self.all_z && child.o || self.all_z_but_one && child.z,
        }
    }
}

/// What is known of the malleability properties of the children that were seen.
#[derive(Clone, Copy)]
pub struct Signed {
    /// All have the property e.
    pub all_e: bool,
    /// How many don't have the property s.
    pub unsigned: u64,
}

impl Signed {
    /// No child.
    pub const NONE: Signed = Signed {
        all_e: true,
        unsigned: 0,
    };

    /// One more child behind the others.
    pub fn and(self, child: MalleabilityProperties) -> Signed
        requires { self.unsigned < 2 ^ 63 }
        ensures { result ≡ and_signed self child }
    {
        Signed {
            all_e: self.all_e && child.e,
            unsigned: if child.s {
                self.unsigned
            } else {
                self.unsigned + 1
            },
        }
    }
}
