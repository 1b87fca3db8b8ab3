//! The code of a procedure of P-code.
ghost use Rattle.std.specs.Prelude.{◌≤◌, length};

use crate::places::MOST;
use crate::tables::{Ends, pointed_at};
use ps_words::Order;

/// From this operand on a jump goes by the jump table.
const BY_TABLE: u8 = 128;

/// The code of a procedure.
#[derive(Clone, Copy)]
pub(crate) struct Body<'c> {
    /// The order of the segment's words.
    pub(crate) order: Order,
    /// The code of the segment, up to the procedure's attribute table.
    pub(crate) code: &'c [u8],
    pub(crate) ends: Ends,
    ghost inside: { ends.enter ≤ length code.now },
}

/// Where a jump leads to.
#[derive(Clone, Copy)]
pub(crate) enum Target {
    /// A place by the jump's operand alone: how many bytes it is after that where the procedure is
    /// entered.
    Short(usize),
    /// A place by a word of the jump table: how many bytes it is after that where the procedure is
    /// entered.
    ByTable(usize),
    /// No place that the procedure has.
    Outside,
}

impl<'c> Body<'c> {
    /// The code of the procedure whose attribute table is at this place; none where the table names a
    /// place before the code, or one that is too far away to be of a procedure.
    pub(crate) fn before(order: Order, segment: &'c [u8], table: usize) -> Option<Body<'c>> {
        let body = Body {
            order,
            code: segment.get(..table)?,
            ends: Ends::at(order, segment, table)?,
        };
        if body.len() < MOST { Some(body) } else { None }
    }

    /// How many bytes the procedure has, with its jump table and the sizes before its attribute table.
    pub(crate) fn len(self) -> usize {
        self.code.len() - self.ends.enter
    }

    /// Where a jump with this operand leads to, whose instruction ends so many bytes after the place
    /// where the procedure is entered.
    ///
    /// The jump table is before the procedure's table: an operand of 256 minus n names the word n
    /// bytes before that table, which says how far before the word the jump goes.
    pub(crate) fn target(self, operand: u8, end: usize) -> Target {
        if operand < BY_TABLE {
            return Target::Short(end.saturating_add(usize::from(operand)));
        }
        let length = self.code.len() + usize::from(operand);
        let Some(word) = length.checked_sub(256) else {
            return Target::Outside;
        };
        match pointed_at(self.order, self.code, word) {
            Some(place) if self.ends.enter <= place => Target::ByTable(place - self.ends.enter),
            _ => Target::Outside,
        }
    }
}
