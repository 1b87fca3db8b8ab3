ghost use Rattle.std.specs.Prelude.{◌≡◌, ℕ, ◌≤◌, ◌+◌, ◌++◌, List, length, map, nat_lt, OnOk, IfOk, IfErr, IsPermutation, None, false};
ghost use Rattle.std.specs.List.{range_with_len, list_any};
ghost use Rattle.std.specs.Result.{result_err};
ghost use Rattle.ps_words.specs.declared.fault.Reason.TheVariants.{OperandTooLarge};
ghost use Rattle.ps_linkinfo.specs.Records.{refs_of};
ghost use Rattle.ps_reading.specs.Searches.{fault_if};
ghost use Rattle.ps_codefile.specs.Procedures.{is_reserved};
ghost use Rattle.ps_resolve.specs.Operands.{width_of as width_of_spec, edit_of, value_of, operands};
ghost use Rattle.ps_resolve.specs.TakenPlaces.{AreTaken};
ghost use Rattle.ps_resolve.specs.EditTables.{IsTableOf, edits_of, is_taken_at};
ghost use Rattle.ps_resolve.specs.Edits.{reason_in, refs_fault_at};
ghost use Rattle.ps_resolve.specs.Stops.{IsStop};

pub(crate) mod names;
pub(crate) mod records;

use crate::edit_table::EditTable;
use crate::linkage::Stop;
use ps_codefile::Procs;
use ps_linkinfo::Body;
use ps_reading::RecordAt;
use ps_words::{Edit, MAX_OPERAND, MAX_WORD, Reason, get_big};
use std::alloc::Allocator;

/// What a reference's operand becomes: the number of a slot, or its displacement and a base.
#[derive(Clone, Copy)]
pub enum Target {
    /// A byte, which becomes the number of the slot.
    Slot(u8),
    /// A BIG operand, which becomes its displacement and this base.
    Base(u16),
}

/// How many bytes the operand has.
fn width_of(target: Target) -> usize
    ensures { result ≡ width_of_spec target }
{
    match target {
        Target::Slot(_) => 1,
        Target::Base(_) => 2,
    }
}

/// Whether one of the places of the operand is taken.
fn is_any_taken<A: Allocator + Copy>(edits: &EditTable<A>, target: Target, x: usize) -> bool
    requires { x + width_of_spec target ≤ length edits.now.states.items }
    ensures { result
        ≡ list_any (is_taken_at edits.now.states.items) (range_with_len x (width_of_spec target)) }
{
    match target {
        Target::Slot(_) => edits.is_taken(x),
        Target::Base(_) => edits.is_taken(x) || edits.is_taken(x + 1),
    }
}

/// Whether one of the places of the operand is reserved.
fn is_any_reserved(procedures: &Procs, target: Target, x: usize) -> bool
    requires { x ≤ MAX_WORD }
    ensures { result ≡ list_any (is_reserved procedures.now.order procedures.now.code)
        (range_with_len x (width_of_spec target)) }
{
    match target {
        Target::Slot(_) => procedures.is_reserved(x),
        Target::Base(_) => procedures.is_reserved(x) || procedures.is_reserved(x + 1),
    }
}

/// What is stored for the operand at x, which lies in the code; a BIG operand has to have room for
/// it.
fn stored_at(code: &[u8], target: Target, x: usize) -> Result<Edit, Reason>
    requires inside { x + width_of_spec target ≤ length code.now }
    ensures edit { IfOk result (λ edit. edit ≡ edit_of code.now target x) }
    ensures reason { result_err result
        ≡ fault_if (nat_lt MAX_OPERAND (value_of code.now target x)) OperandTooLarge }
{
    match target {
        Target::Slot(slot) => Ok(Edit::Byte {
            place: x,
            value: slot,
        }),
        Target::Base(base) => {
            let value = get_big(code, x) as usize + base as usize;
            if value > MAX_OPERAND as usize {
                return Err(Reason::OperandTooLarge);
            }
            Ok(Edit::Big {
                place: x,
                value: value as u16,
            })
        }
    }
}

/// The edits of a segment's references, as they are found.
#[derive(Drop)]
pub(crate) struct ReferenceEdits<'a, A: Allocator> {
    /// The procedure tables of the segment's code, whose places are reserved.
    pub(crate) procedures: Procs<'a>,
    /// The edits so far, and others. The places of the operands so far are taken, and those that
    /// are reserved.
    pub(crate) edits: EditTable<A>,
}

impl<A: Allocator + Copy> ReferenceEdits<'_, A> {
    /// The edit of the operand at x, or why there is none.
    #[tactic(auto, using(crate::proofs::TakenPlaces::overlaps, crate::proofs::TakenPlaces::stands_free))]
    fn edit_at(&self, target: Target, x: usize) -> Result<Edit, Reason>
        requires low { x ≤ MAX_WORD }
        requires len { length self.now.edits.states.items ≡ length self.now.procedures.code }
        ensures inside { IfOk result (λ _. x + width_of_spec target
            ≤ length self.now.procedures.code) }
        ensures edit { IfOk result (λ edit. edit
            ≡ edit_of self.now.procedures.code target x) }
        ensures free { OnOk result (list_any (is_taken_at self.now.edits.states.items)
            (range_with_len x (width_of_spec target)) ≡ false) }
        ensures reason { (os : List (ℕ × ℕ))
            → AreTaken self.now.procedures self.now.edits.states.items os
            → result_err result ≡ reason_in self.now.procedures os target x }
    {
        let code = self.procedures.code();
        if x + width_of(target) > code.len() {
            return Err(Reason::OutsideCode);
        }
        if is_any_taken(&self.edits, target, x) {
            if is_any_reserved(&self.procedures, target, x) {
                return Err(Reason::ReservedPlace);
            }
            return Err(Reason::Overlap);
        }
        stored_at(code, target, x)
    }

    /// Adds the edits of the record that is there, or finds the first fault of its references. A
    /// function by itself, so that its loop has all registers.
    #[inline(never)]
    pub(crate) fn add_record(
        &mut self,
        place: RecordAt,
        target: Target,
        body: &Body,
    ) -> Result<(), Stop>
        requires { IsTableOf self.old.procedures.code self.old.edits.states.items }
        ensures same_procedures { self.new.procedures ≡ self.old.procedures }
        ensures table { OnOk result (IsTableOf self.old.procedures.code
            self.new.edits.states.items) }
        ensures edits { OnOk result (IsPermutation (edits_of self.old.edits.states.items
            ++ map (edit_of self.old.procedures.code target) (refs_of body.now))
            (edits_of self.new.edits.states.items)) }
        ensures sound { (os : List (ℕ × ℕ))
            → AreTaken self.old.procedures self.old.edits.states.items os → OnOk result
            (refs_fault_at place self.old.procedures target os (refs_of body.now) ≡ None) }
        ensures stop { (os : List (ℕ × ℕ))
            → AreTaken self.old.procedures self.old.edits.states.items os → IfErr result
            (IsStop ⊥ (refs_fault_at place self.old.procedures target os (refs_of body.now))) }
        ensures taken { (os : List (ℕ × ℕ))
            → AreTaken self.old.procedures self.old.edits.states.items os → OnOk result
            (AreTaken self.old.procedures self.new.edits.states.items
            (os ++ operands target (refs_of body.now))) }
    {
        let Some(refs) = body.refs() else {
            return Ok(());
        };
        for i in 0..refs.len() {
            let x = refs.get(i) as usize;
            match self.edit_at(target, x) {
                Err(reason) => return Err(Stop::in_reference(place, i, reason)),
                Ok(edit) => self.edits.put(edit),
            }
        }
        Ok(())
    }
}
