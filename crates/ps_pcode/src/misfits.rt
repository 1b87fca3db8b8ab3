//! The procedure of a code that alone breaks a rule which the others keep: damage hits one procedure,
//! and a compiler's habit many.
use crate::bodies::Body;
use crate::rules::{RULES, Shown, ShownRules};
use crate::tables::procedures_of;
use crate::walks::Walk;
use ps_words::Order;

/// How many other long procedures cannot keep to a rule by chance.
const MANY: usize = 8;

/// Procedures of so many bytes and more say what a compiler writes. The bytes of a procedure are those
/// from where it is entered up to its attribute table.
const LONG: usize = 32;

/// The procedures that break a rule.
#[derive(Clone, Copy)]
enum Breakers {
    Nobody,
    /// One procedure, of this number.
    One(usize),
    Several,
}

/// Which procedures of a code keep to a rule, and which break it.
#[derive(Clone, Copy)]
struct Tally {
    /// How many long procedures do not break it.
    kept: usize,
    /// One of these shows that it keeps to it.
    is_shown: bool,
    breakers: Breakers,
}

impl Tally {
    const NONE: Tally = Tally {
        kept: 0,
        is_shown: false,
        breakers: Breakers::Nobody,
    };

    /// The tally with one more procedure, of this number, and with what it shows of the rule.
    fn with(self, procedure: usize, is_long: bool, shown: Shown) -> Tally {
        match shown {
            Shown::Broken => Tally {
                breakers: match self.breakers {
                    Breakers::Nobody => Breakers::One(procedure),
                    Breakers::One(_) | Breakers::Several => Breakers::Several,
                },
                ..self
            },
            Shown::Kept | Shown::Nothing if is_long => Tally {
                kept: self.kept.saturating_add(1),
                is_shown: self.is_shown || matches!(shown, Shown::Kept),
                ..self
            },
            Shown::Kept | Shown::Nothing => self,
        }
    }

    /// The number of the procedure that alone breaks the rule, where enough others keep to it and one
    /// of them shows so.
    fn misfit(&self) -> Option<usize> {
        match self.breakers {
            Breakers::One(procedure) if MANY <= self.kept && self.is_shown => Some(procedure),
            Breakers::Nobody | Breakers::One(_) | Breakers::Several => None,
        }
    }
}

/// The tally of each rule, in the order of the rules.
#[derive(Clone, Copy)]
struct Tallies([Tally; RULES]);

impl Tallies {
    /// The tallies of the procedures of a code; of a code of which the procedure dictionary is not
    /// whole, or a procedure is native, there are none. Procedures may share bytes: those are left out
    /// from the first on that has more bytes than the code has left after the ones before.
    fn of(walk: &mut Walk, order: Order, code: &[u8]) -> Tallies {
        let mut tallies = Tallies([Tally::NONE; RULES]);
        let Some(procedures) = procedures_of(order, code) else {
            return tallies;
        };
        let mut left = code.len();
        for procedure in 1..=procedures.count() {
            if let Some(table) = procedures.table(procedure) {
                if let Some(body) = Body::before(order, code, table) {
                    let length = body.len();
                    if left < length {
                        return tallies;
                    }
                    left -= length;
                    tallies.add(procedure, LONG <= length, walk.best(body));
                }
            }
        }
        tallies
    }

    /// Adds the procedure of this number, and what it shows.
    fn add(&mut self, procedure: usize, is_long: bool, shown_rules: ShownRules) {
        // (of instructions that are not read no other rule is known)
        let known = if shown_rules.rules_kept() == 0 {
            1
        } else {
            RULES
        };
        let shown = shown_rules.in_order();
        for (tally, shown) in self.0.iter_mut().zip(shown.iter()).take(known) {
            *tally = tally.with(procedure, is_long, *shown);
        }
    }
}

/// The procedure of a code whose instructions alone do not fit together, where those of at least eight
/// other long procedures of the same code do; its number from 1 on.
///
/// `order` is the order of the code's words. The instructions of a procedure fit together as far as
/// they keep to a rule. One procedure alone breaks that rule, at least eight other procedures of 32
/// bytes and more keep to it, and one of these has what the rule is about. Where this is so of several
/// rules, the procedure is the one that breaks the first. `None` where no procedure is such a one:
/// also where the procedure dictionary is not whole, or a procedure is native.
///
/// Sets of places take some 3000 bytes of the stack, only until it returns.
///
/// Source: P-code of II.0, *(open)* in FORMAT.md.
#[inline(never)]
pub fn misfit(order: Order, code: &[u8]) -> Option<usize> {
    let mut walk = Walk::NONE;
    let Tallies(tallies) = Tallies::of(&mut walk, order, code);
    tallies.iter().find_map(|tally| tally.misfit())
}
