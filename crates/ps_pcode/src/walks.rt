//! A walk over the instructions of a procedure of P-code, from where it is entered to its return.
use crate::bodies::{Body, Target};
use crate::instructions::{Instruction, is_case_at};
use crate::places::Places;
use crate::rules::{RULES, Shown, ShownRules};
use crate::stacks::Stack;
use crate::table::Release;

/// How far the instructions of a procedure were read, and what they show. Places count from where
/// the procedure is entered.
#[derive(Clone, Copy)]
pub(crate) struct Walk {
    place: usize,
    /// Where an instruction begins.
    starts: Places,
    /// Where short jumps lead to.
    short: Places,
    /// Where jumps by the jump table lead to.
    by_table: Places,
    has_table_jump: bool,
    /// A jump by the jump table leads to no place of the procedure.
    leads_outside: bool,
    /// The place of the first case.
    first_case: Option<usize>,
    /// The place was reached where the procedure is left.
    is_left: bool,
    /// The return of the procedure was reached.
    is_whole: bool,
    stack: Stack,
    /// The first place where the evaluation stack has too much or too little.
    first_odd_stack: Option<usize>,
}

impl Walk {
    pub(crate) const NONE: Walk = Walk {
        place: 0,
        starts: Places::NONE,
        short: Places::NONE,
        by_table: Places::NONE,
        has_table_jump: false,
        leads_outside: false,
        first_case: None,
        is_left: false,
        is_whole: false,
        stack: Stack::EMPTY,
        first_odd_stack: None,
    };

    /// Goes over a procedure, and gives what it shows by the instructions of the release by which it
    /// keeps to more of the rules.
    pub(crate) fn best(&mut self, body: Body<'_>) -> ShownRules {
        let later = self.over(body, Release::Later);
        if later.rules_kept() == RULES {
            return later;
        }
        let earlier = self.over(body, Release::Earlier);
        if later.rules_kept() < earlier.rules_kept() {
            earlier
        } else {
            later
        }
    }

    /// Goes over a procedure, and gives what its instructions show by the table of a release. Sets of
    /// places are large: those of the walk before are cleared.
    fn over(&mut self, body: Body<'_>, release: Release) -> ShownRules {
        self.starts.clear();
        self.short.clear();
        self.by_table.clear();
        self.place = 0;
        self.has_table_jump = false;
        self.leads_outside = false;
        self.first_case = None;
        self.is_left = false;
        self.is_whole = false;
        self.stack = Stack::EMPTY;
        self.first_odd_stack = None;
        for _ in 0..body.len() {
            let place = body.ends.enter.saturating_add(self.place);
            if self.is_whole {
                return self.shown_rules();
            }
            self.arrive(body, place);
            match Instruction::at(body.order, release, body.code, place) {
                Some(instruction) => self.pass(body, instruction),
                None => return self.shown_rules(),
            }
        }
        self.shown_rules()
    }

    /// Notes what is at a place where an instruction begins.
    fn arrive(&mut self, body: Body<'_>, place: usize) {
        self.starts.add(self.place);
        self.is_left = self.is_left || place == body.ends.leave;
        if self.first_case.is_none() && is_case_at(body.code, place) {
            self.first_case = Some(self.place);
        }
    }

    /// Goes over an instruction.
    fn pass(&mut self, body: Body<'_>, instruction: Instruction) {
        self.pass_stack(instruction);
        if self.is_left && instruction.is_return() {
            self.is_whole = true;
            return;
        }
        let end = self.place.saturating_add(instruction.length);
        if let Some(operand) = instruction.jump() {
            match body.target(operand, end) {
                Target::Short(place) => self.short.add(place),
                Target::ByTable(place) => {
                    self.by_table.add(place);
                    self.has_table_jump = true;
                }
                Target::Outside => {
                    self.leads_outside = true;
                    self.has_table_jump = true;
                }
            }
        }
        self.place = end;
    }

    /// Notes what the instruction does to the evaluation stack.
    fn pass_stack(&mut self, instruction: Instruction) {
        let is_target = self.short.has(self.place) || self.by_table.has(self.place);
        let is_odd_return = self.is_left && instruction.is_return() && self.stack.words != 0;
        self.stack = match self.stack.after(instruction, is_target) {
            Some(stack) if !is_odd_return => stack,
            _ => {
                self.first_odd_stack = self.first_odd_stack.or(Some(self.place));
                Stack::UNKNOWN
            }
        };
    }

    /// What was shown. What comes after the first case tells of the rule of cases, and of the
    /// evaluation stack only where the procedure keeps to that rule.
    fn shown_rules(&self) -> ShownRules {
        let limit = self.first_case.unwrap_or(usize::MAX);
        let odd_short = self.short.first_beside(&self.starts);
        let odd_by_table = self.by_table.first_beside(&self.starts);
        let has_case = self.first_case.is_some();
        let is_read = (self.is_whole || has_case) && !is_before(odd_short, limit);
        let is_all_read = self.is_whole && odd_short.is_none() && odd_by_table.is_none();
        let is_table_kept = !self.leads_outside && !is_before(odd_by_table, limit);
        let last = if is_all_read { usize::MAX } else { limit };
        ShownRules {
            instructions: Shown::by(true, is_read),
            cases: Shown::by(is_read && has_case, is_all_read),
            table_jumps: Shown::by(is_read && self.has_table_jump, is_table_kept),
            stack: Shown::by(is_read, !is_before(self.first_odd_stack, last)),
        }
    }
}

/// A place was found, and it is before a limit.
fn is_before(place: Option<usize>, limit: usize) -> bool {
    match place {
        Some(place) => place < limit,
        None => false,
    }
}
