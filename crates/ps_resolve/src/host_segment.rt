ghost use Rattle.std.specs.Prelude.{◌≡◌, All, IfSome, is_some, true, option_map};
ghost use Rattle.ps_codefile.specs.Roles.{is_host as is_host_spec};
ghost use Rattle.ps_resolve.specs.Linkable.{IsHost};
ghost use Rattle.ps_reading.specs.Sources.{host_of as host_of_spec};
ghost use Rattle.ps_reading.specs.KnownSegments.{IsSound};

use ps_codefile::code_layout::OUTER_BLOCK;
use ps_linkinfo::LinkInformation;
use ps_reading::Segment;
use ps_words::Order;

/// The host's own segment, lent from the table, with what only a host's has.
#[derive(Drop)]
pub(crate) struct HostSegment<'r, 'a> {
    /// The segment itself.
    pub(crate) segment: &'r Segment<'a>,
    /// The link information of the segment, read whole.
    pub(crate) records: &'r LinkInformation<'a>,
    /// The place in its code of the attribute table of its outer block.
    pub(crate) outer_block: usize,
}

/// A segment with the role of a host's, as the host's own; `None` where it has no outer block.
fn as_host<'r, 'a>(order: Order, segment: &'r Segment<'a>) -> Option<HostSegment<'r, 'a>>
    requires role { is_host_spec segment.now.role ≡ true }
    requires sound { IsSound order segment.now }
    ensures some { is_some result ≡ true }
    ensures segment { IfSome result (λ host. host.segment.now ≡ segment.now) }
    ensures is { IfSome result (IsHost order) }
{
    let resolvable = segment.resolvable()?;
    let outer_block = resolvable.procedures.table(OUTER_BLOCK)?;
    Some(HostSegment {
        segment,
        records: resolvable.records,
        outer_block,
    })
}

/// The host's own segment among these.
pub(crate) fn host_of<'r, 'a>(
    order: Order,
    segments: &'r [Segment<'a>],
) -> Option<HostSegment<'r, 'a>>
    requires { All (IsSound order) segments.now }
    ensures found { option_map (λ host. host.segment.now) result ≡ host_of_spec segments.now }
    ensures is { IfSome result (IsHost order) }
{
    for segment in segments {
        if segment.role().is_host() {
            return as_host(order, segment);
        }
    }
    None
}
