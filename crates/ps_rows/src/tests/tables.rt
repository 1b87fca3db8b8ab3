//! The files that tables of links change.
use super::answers::LITTLE;
use super::calls::Link;
use crate::code_file::{Changes, CodeFile};
use ps_words::Order;
use sample_files::behind_name;
use std::process::Abort;

/// The files that rows change, each made by the texts of these names, one after the other.
#[derive(Clone, Copy)]
pub(crate) struct Base<'a> {
    /// The byte order of the host and of the linked file.
    pub order: Order,
    /// The host.
    pub host: &'a str,
    /// The libraries, with semicolons between them. The words of one that begins with `turned` are
    /// in the other byte order.
    pub libraries: &'a str,
    /// What the files are linked to.
    pub linked: &'a str,
}

/// The files, each a line: their name, and of what the host, the libraries and the linked file are
/// made. A line that begins with a number sign says what the next ones are for.
static FILES: &str =
    "# the base pair, the host with its unit in place, and the host and the library of two units
pair | HOST | LIBRARY | LINKED_SEGMENTS LINKED_OPERANDS
in-place | HOST HAS_UNIT | | LINKED_SEGMENTS LINKED_REFERENCE
two-units | HOST WANTS_AUX | LIBRARY HAS_AUX | LINKED_SEGMENTS LINKED_OPERANDS LINKED_SECOND
# the base host, and the library whose unit uses another one
used-unit | HOST | LIBRARY HAS_AUX USES_AUX | LINKED_SEGMENTS LINKED_SECOND LINKED_USER
# the base host, and the library whose unit has an operand that lies in two blocks
long-unit | HOST | LONG_LIBRARY | LINKED_SEGMENTS LONG_UNIT
# the base host, and no library
host-alone | HOST | | LINKED_SEGMENTS LINKED_OPERANDS
turned-library | HOST | turned LIBRARY |
# the unit has the code and the link information of the base library's
like-the-library | HOST HAS_UNIT LIKE_LIBRARY | | LINKED_SEGMENTS LINKED_OPERANDS
nine-references | HOST | NINE_LIBRARY | LINKED_SEGMENTS NINE_UNIT
# the linked base pair as a second library
before-a-linked-file | HOST | LIBRARY; LINKED_SEGMENTS LINKED_OPERANDS \
| LINKED_SEGMENTS LINKED_OPERANDS
# a library whose unit has zeros at bytes 6 and 7, as the second and as the first
before-another | HOST | LIBRARY; LIBRARY ZEROS_IN_THE_CODE | LINKED_SEGMENTS LINKED_OPERANDS
behind-another | HOST | LIBRARY ZEROS_IN_THE_CODE; LIBRARY \
| LINKED_SEGMENTS LINKED_OPERANDS ZEROS_IN_THE_LINKED_CODE
# linked files as hosts
linked-host | LINKED_SEGMENTS LINKED_OPERANDS | LIBRARY |
linked-host-alone | LINKED_SEGMENTS LINKED_OPERANDS | |
linked-in-place | LINKED_SEGMENTS LINKED_REFERENCE | |
# libraries in place of hosts
library-alone | LIBRARY | |
libraries-joined | LIBRARY HAS_AUX | |
# libraries with faults, of which the first is reported: a length and then an order, the first that
# has the name, and a linked file that has it
short-and-turned | HOST | LIBRARY; LIBRARY SHORT; turned LIBRARY |
other-kind-second | HOST | LIBRARY NO_CODE; LIBRARY KIND_5; LIBRARY |
linked-first | HOST | LINKED_SEGMENTS LINKED_OPERANDS; LIBRARY |
turned-second | HOST | LIBRARY; turned LIBRARY |
two-libraries | HOST | LIBRARY USES_AUX; LIBRARY NAMES_NOBODY |
filled | HOST FILLED_TO_14 | LIBRARY HAS_AUX USES_AUX | LINKED_SEGMENTS LINKED_SECOND LINKED_USER
# what they are linked to where nine units are named
eleven | HOST NAMES_ELEVEN | FIVE_UNITS SIX_MORE | LINKED_NINE";

/// The files of this name, in the other byte order behind the word `big`.
pub(crate) fn base_named(rt: &impl Abort, name: &str) -> Base<'static> {
    let (order, name) = match name.strip_prefix("big ") {
        None => (LITTLE, name),
        Some(name) => (Order::Big, name),
    };
    let parts = behind_name(FILES, " | ", name).expect(rt, name);
    let (host, parts) = parts.split_once(" |").expect(rt, parts);
    let (libraries, linked) = parts.split_once(" |").expect(rt, parts);
    Base {
        order,
        host,
        libraries,
        linked,
    }
}

/// The base library alone.
pub(crate) const LIBRARY_TEXTS: &str = "LIBRARY";

/// What the base pair is linked to.
pub(crate) const LINKED_TEXTS: &str = "LINKED_SEGMENTS LINKED_OPERANDS";

/// The base host alone, and the host with its unit in place.
pub(crate) const HOST_TEXTS: &str = "HOST";

pub(crate) const IN_PLACE_TEXTS: &str = "HOST HAS_UNIT";

/// What is checked of a link.
pub(crate) trait Check {
    fn check<R: Abort + AllocGlobal>(&self, rt: &R, link: &Link<'_>);
}

impl Base<'_> {
    /// The libraries, the first of them with changes.
    fn libraries(&self, rt: &(impl Abort + AllocGlobal), changes: Changes<'_>) -> Vec<CodeFile> {
        let mut libraries = Vec::new(rt.alloc());
        let all = self.libraries;
        let (first, others) = all.split_once(';').unwrap_or((all, ""));
        self.add_library(rt, &mut libraries, first, changes);
        for names in others.split(';') {
            self.add_library(rt, &mut libraries, names, "");
        }
        libraries
    }

    /// Adds a library with changes, if it has any names; the words of one that begins with `turned` are
    /// in the other byte order.
    fn add_library(
        &self,
        rt: &(impl Abort + AllocGlobal),
        libraries: &mut Vec<CodeFile>,
        names: &str,
        changes: Changes<'_>,
    ) {
        if names.is_empty() {
            return;
        }
        let (order, names) = match (names.split_once("turned "), self.order) {
            (None, order) => (order, names),
            (Some((_, names)), Order::Little) => (Order::Big, names),
            (Some((_, names)), Order::Big) => (Order::Little, names),
        };
        let library = CodeFile::of(rt, order, names, changes);
        libraries.push(library).expect(rt, "no memory")
    }

    /// Checks the link of the files, with changes of the host, of the first library and of what
    /// they are linked to.
    pub(crate) fn check(
        &self,
        rt: &(impl Abort + AllocGlobal),
        (host, library, linked): (Changes<'_>, Changes<'_>, Changes<'_>),
        check: &impl Check,
    ) {
        let host = CodeFile::of(rt, self.order, self.host, host);
        let linked = CodeFile::of(rt, self.order, self.linked, linked);
        let libraries = self.libraries(rt, library);
        let files = (host.as_slice(), linked.as_slice());
        checks(rt, files, libraries.as_slice(), check)
    }
}

/// Checks the link of a host and libraries, and what they are linked to.
fn checks(
    rt: &(impl Abort + AllocGlobal),
    (host, linked): (&[u8], &[u8]),
    libraries: &[CodeFile],
    check: &impl Check,
) {
    let mut bytes = Vec::new(rt.alloc());
    for library in libraries {
        bytes.push(library.as_slice()).expect(rt, "no memory");
    }
    let link = Link {
        host,
        libraries: bytes.as_slice(),
        linked,
    };
    check.check(rt, &link)
}
