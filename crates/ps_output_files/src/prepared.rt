//! A link that was prepared, with what its map is to have.
ghost use Rattle.std.specs.Prelude.{◌≡◌, IfErr, IfOk, OnOk};
ghost use Rattle.std.specs.Io.KnownBytes.{Appends};
ghost use Rattle.ps_linkfile.specs.Outcomes.{NamesFirst, error_of};
ghost use Rattle.ps_linkfile.specs.Writing.{StandsFor};
ghost use Rattle.ps_output_files.specs.Links.{IsMapText};
ghost use Rattle.ps_output_files.specs.Prepared.{map_bytes, plan_of};
ghost use Rattle.ps_resolve.specs.Sources.{contents};
ghost use Rattle.ps_writing.specs.declared.rows.Form.{Form};

use ps_arguments::MapContent;
use ps_linkfile::{LinkMap, Linked, ReferenceMap, References, prepare_files, prepare_references};
use ps_resolve::Stop;
use ps_writing::{Form, WriteFault, write_text};
use std::alloc::Allocator;
use std::io::Write;

/// A link that was prepared: its linked file can be written, and its map.
#[derive(Drop)]
pub(crate) enum Prepared<'a, A: Allocator + Copy> {
    Linked(Linked<'a, A>),
    /// A link whose map has what it stores, too.
    Referenced(ReferenceMap<'a, A>),
}

/// Reads and checks a host and its libraries once, and prepares their link, for a map of this content.
pub(crate) fn prepare_link<'a, A: Allocator + Copy>(
    alloc: A,
    content: MapContent,
    host: &'a [u8],
    libs: &'a [&'a [u8]],
) -> Result<Prepared<'a, A>, Stop>
    ensures stands { IfOk result (λ p. StandsFor host.now (contents libs.now) (plan_of p)) }
    ensures map { IfOk result (λ p. (form : Form) → IsMapText content form host.now
        (contents libs.now) (map_bytes form p)) }
    ensures first { IfErr result (λ stop. NamesFirst host.now (contents libs.now)
        (error_of stop)) }
{
    match content {
        MapContent::Places => linked(alloc, host, libs),
        MapContent::References => referenced(alloc, host, libs),
    }
}

/// Prepares a link for a map without what it stores.
fn linked<'a, A: Allocator + Copy>(
    alloc: A,
    host: &'a [u8],
    libs: &'a [&'a [u8]],
) -> Result<Prepared<'a, A>, Stop>
    ensures stands { IfOk result (λ p. StandsFor host.now (contents libs.now) (plan_of p)) }
    ensures map { IfOk result (λ p. (form : Form) → IsMapText MapContent.Places form host.now
        (contents libs.now) (map_bytes form p)) }
    ensures first { IfErr result (λ stop. NamesFirst host.now (contents libs.now)
        (error_of stop)) }
{
    match prepare_files(alloc, host, libs) {
        Ok(linked) => Ok(Prepared::Linked(linked)),
        Err(stop) => Err(stop),
    }
}

/// Prepares a link for a map with what it stores.
fn referenced<'a, A: Allocator + Copy>(
    alloc: A,
    host: &'a [u8],
    libs: &'a [&'a [u8]],
) -> Result<Prepared<'a, A>, Stop>
    ensures stands { IfOk result (λ p. StandsFor host.now (contents libs.now) (plan_of p)) }
    ensures map { IfOk result (λ p. (form : Form) → IsMapText MapContent.References form host.now
        (contents libs.now) (map_bytes form p)) }
    ensures first { IfErr result (λ stop. NamesFirst host.now (contents libs.now)
        (error_of stop)) }
{
    match prepare_references(alloc, host, libs) {
        Ok(map) => Ok(Prepared::Referenced(map)),
        Err(stop) => Err(stop),
    }
}

impl<'a, A: Allocator + Copy> Prepared<'a, A> {
    ghost use Rattle.std.specs.Prelude.{◌≡◌, OnErr, OnOk};
    ghost use Rattle.std.specs.Io.KnownBytes.{Appends};
    ghost use Rattle.ps_writing.specs.Prefixes.{AppendsPrefix};
    ghost use Rattle.ps_output_files.specs.Prepared.{map_bytes, plan_of};

    pub(crate) fn linked(&self) -> &Linked<'a, A>
        ensures { result.now ≡ plan_of self.now }
    {
        match self {
            Prepared::Linked(linked) => linked,
            Prepared::Referenced(map) => map.linked(),
        }
    }

    pub(crate) fn write_map<W: Write>(&self, form: Form, out: &mut W) -> Result<(), WriteFault>
        ensures all { OnOk result (Appends (W.contents out.old) (W.contents out.new)
            (map_bytes form self.now)) }
        ensures prefix { OnErr result (AppendsPrefix (W.contents out.old) (W.contents out.new)
            (map_bytes form self.now)) }
    {
        match self {
            Prepared::Linked(linked) => write_text(&LinkMap { form, linked }, out),
            Prepared::Referenced(map) => write_text(&References { form, map }, out),
        }
    }
}
