ghost use Rattle.std.specs.Prelude.{◌≡◌};
ghost use Rattle.ps_codefile.specs.Roles.{needs_linking};

use ps_resolve::Source;

/// What a caller knows of a source of a plan: its references are resolved just where its role says
/// so, that of the host's own segment or of a unit.
pub fn is_linked_by_role(source: &Source) -> bool
    ensures { result ≡ needs_linking source.now.role }
{
    source.linked
}
