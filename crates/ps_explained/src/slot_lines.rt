//! Lines that are no segment's.
ghost use Rattle.std.specs.Prelude.{◌≡◌};
ghost use Rattle.ps_explained.specs.SlotLines.{indent as indent_spec};

/// What goes before a line that would begin as it must not: two blanks where it `begins` so, and
/// nothing else.
pub fn indent(begins: bool) -> &'static str
    ensures { result.now ≡ indent_spec begins }
{
    if begins { "  " } else { "" }
}
