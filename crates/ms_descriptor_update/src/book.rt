//! The outputs of a descriptor at each branch and each index below a count.

ghost use Rattle.ms_descriptor.specs.Bodies.{descriptor_at};
ghost use Rattle.ms_descriptor_update.specs.Known.{IsKnown, IsKnown-prop};

use crate::knowing::known_of;
use ms_descriptor::Descriptor;
use ms_outputs::{GivenFault, give};
use ms_update::{Book, KnownOutput};
use std::alloc::{AllocError, Global};
use std::collections::BTreeMap;

/// The outputs of a descriptor at its places: at branch 0 each index below a count, then those of each later branch. Of each only the script is
/// kept; what else is known of it is derived anew.
#[derive(Drop)]
pub struct DescriptorBook<'a> {
    /// The descriptor's text.
    pub text: &'a str,
    /// The descriptor.
    pub descriptor: Descriptor,
    /// How many indices there are.
    pub count: u32,
    /// The first place of each output's script.
    pub places: BTreeMap<Vec<u8>, usize>,
    pub ghost known: { IsKnown (descriptor_at text.now descriptor) count } by { IsKnown-prop (descriptor_at text.now descriptor) count },
}

impl<'a> Book for DescriptorBook<'a> {
    ghost use Rattle.ms_descriptor_update.specs.Book.{IsBook};

    ghost known = { λ book. book.known.0 };

    ghost is_open = { λ book. IsBook book.text.now book.descriptor book.count book.places book.known.0 };

    fn known_by(&self, alloc: Global, script: &[u8]) -> Result<Option<KnownOutput>, AllocError> {
        let Some(place) = self.places.get(script) else {
            return Ok(None);
        };
        let branch = *place / self.count as usize;
        let index = (*place % self.count as usize) as u32;
        match give(alloc, self.text, &self.descriptor, None, branch, index) {
            Ok(given) => Ok(Some(known_of(alloc, &self.descriptor, branch, index, given)?)),
            Err(GivenFault::Memory) => Err(AllocError),
            Err(GivenFault::NoKey(_)) => unreachable!(),
        }
    }
}
