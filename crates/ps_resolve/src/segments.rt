use crate::host_segment::HostSegment;
use ps_reading::Segment;
use ps_words::Order;
use std::marker::Model;

/// The segments of a link, as its files have them, where reading found no fault.
#[derive(Drop)]
pub(crate) struct Segments<'r, 'a> {
    /// The byte order of the host.
    pub(crate) order: Order,
    /// The host's own segment.
    pub(crate) own: HostSegment<'r, 'a>,
    /// All segments by slot ascending.
    pub(crate) items: &'r [Segment<'a>],
}

impl<'r, 'a> Model for Segments<'r, 'a> {
    ghost use Rattle.ps_resolve.specs.Linkable.{AreSegments, ReadSegments};

    ghost Value = { ReadSegments };

    ghost view = { λ s. record { order = s.order; own = s.own; items = s.items.now } };

    ghost invariant = { λ s. AreSegments s.order s.own s.items.now };
}
