//! The rules that the procedures of P-code keep to, and what a procedure shows of each.

/// How many rules there are.
pub(crate) const RULES: usize = 4;

/// What a procedure shows of a rule.
#[derive(Clone, Copy)]
pub(crate) enum Shown {
    /// The procedure has what the rule is about, and keeps to the rule.
    Kept,
    Broken,
    /// The procedure has nothing that the rule is about, or its instructions can't be read.
    Nothing,
}

impl Shown {
    /// What is shown by something that is there and keeps to a rule or not.
    pub(crate) fn by(is_there: bool, is_kept: bool) -> Shown {
        match (is_there, is_kept) {
            (false, _) => Shown::Nothing,
            (true, true) => Shown::Kept,
            (true, false) => Shown::Broken,
        }
    }
}

/// What a procedure shows of each rule. What is not known of a procedure, it keeps to.
///
/// Source: P-code of II.0, *(open)* in FORMAT.md.
#[derive(Clone, Copy)]
pub(crate) struct ShownRules {
    /// Up to its first case an instruction begins where the one before ends, where the procedure is
    /// left, and where a short jump leads to.
    pub(crate) instructions: Shown,
    /// From its first case on an instruction begins there, too, and where a jump by the jump table
    /// leads to.
    pub(crate) cases: Shown,
    /// A jump by the jump table leads to an instruction.
    pub(crate) table_jumps: Shown,
    /// The evaluation stack is empty at jumps, and has what instructions take.
    pub(crate) stack: Shown,
}

impl ShownRules {
    /// What is shown of each rule, in the order of the rules.
    pub(crate) fn in_order(self) -> [Shown; RULES] {
        [self.instructions, self.cases, self.table_jumps, self.stack]
    }

    /// How many rules there are before the first that the procedure breaks, 0 to 4.
    pub(crate) fn rules_kept(self) -> usize {
        let shown = self.in_order();
        shown
            .iter()
            .take_while(|shown| !matches!(shown, Shown::Broken))
            .count()
    }
}
