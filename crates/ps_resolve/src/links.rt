use crate::allotment::Allotment;
use crate::definitions::Definitions;
use ps_words::{Edit, Order};
use std::alloc::Allocator;
use std::marker::Model;

/// What links the segments of a link: the byte order of the host, the data size of its outer block
/// in the linked file, in bytes, the edits of each segment, in their order, the host's definitions,
/// and all private variables.
#[derive(Drop)]
pub(crate) struct Links<A: Allocator + Copy> {
    pub(crate) order: Order,
    pub(crate) data_size: u16,
    pub(crate) edits: Vec<Vec<Edit, A>, A>,
    pub(crate) definitions: Definitions<A>,
    pub(crate) allotment: Allotment<A>,
}

impl<A: Allocator + Copy> Model for Links<A> {
    ghost use Rattle.std.specs.Prelude.{map};
    ghost use Rattle.ps_resolve.specs.Plans.{Links as LinksOfSegments};

    ghost Value = { LinksOfSegments };

    ghost view = { λ l. record { order = l.order; edits = map (λ e. e.items) l.edits.items; definitions = l.definitions; privates = l.allotment.privates; next_free = l.allotment.next_free; private_words = l.allotment.words; data_size = l.data_size } };
}
