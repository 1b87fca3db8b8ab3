//! The texts that there are, grouped by what they are of.
ghost use Rattle.std.specs.Prelude.{◌≡◌};
ghost use Rattle.ps_texts.specs.Kinds.{needs_names as needs_names_spec};

use ps_listing::ListForm;
use ps_writing::Form;

/// A text of a host and its libraries, and how it is printed.
#[derive(Clone, Copy)]
pub enum TextKind {
    /// A text of the link of the files.
    OfLink(LinkText, Form),
    /// A text of the host's file alone.
    OfHost(HostText),
    /// The names of the units that a link takes from libraries, or would take if they had them.
    Wanted,
    /// A text in which the files have names.
    Named(NamedText),
}

/// A text of a link.
#[derive(Clone, Copy)]
pub enum LinkText {
    /// The map.
    Map,
    /// The map, and each place at which the link stores bytes.
    References,
}

/// A text of one file.
#[derive(Clone, Copy)]
pub enum HostText {
    /// What the file has.
    Show(Form),
    /// The names of the units whose code the file has.
    Had,
    /// What the file is for, and its byte order, in a line.
    CodeType,
}

/// A text in which files have names.
#[derive(Clone, Copy)]
pub enum NamedText {
    /// What is printed of the report of a check.
    OfReport(ReportText, Form),
    /// The list of each file.
    List(ListForm),
}

/// What is printed of a report.
#[derive(Clone, Copy)]
pub enum ReportText {
    /// The report.
    Whole,
    /// Its findings, one by one: warnings, what is harmless, and notes.
    Findings,
}

impl TextKind {
    /// The files have names in the text.
    pub fn needs_names(self) -> bool
        ensures { result ≡ needs_names_spec self }
    {
        match self {
            TextKind::Named(_) => true,
            TextKind::OfLink(..) | TextKind::OfHost(_) | TextKind::Wanted => false,
        }
    }
}
