ghost use Rattle.std.specs.Prelude.{◌≡◌, ℕ, IfErr, IfOk, IfSome, None, Ok, Err, false, ◌≤◌, ◌-◌, ◌+◌, ◌*◌, ◌==◌, if◌then◌else◌, length, slice_index, slice_index_or};
ghost use Rattle.std.specs.List.{list_any};
ghost use Rattle.std.specs.Option.{ForSome};
ghost use Rattle.ps_codefile.specs.Procedures.{procedures, dictionary_len, dictionary_start, content_of, outer_data_size, table_of as table_of_spec, is_placed as is_placed_spec, numbers, is_in_table as is_in_table_spec, is_reserved as is_reserved_spec, read_tables as read_tables_spec};
ghost use Rattle.ps_codefile.specs.Places.{is_between, passes, HasTables, IsWhole};
ghost use Rattle.ps_codefile.specs.ProcedureFaults.{IsFirstProcedure, IsProcedureFault, is_native as is_native_spec, is_outside, lacks_outer_block as lacks_outer_block_spec, reason_of};

use crate::code_layout::{
    DATA_SIZE_BEFORE_TABLE, NUMBERS, OUTER_BLOCK, TABLE_NUMBERS, TABLE_WORDS,
};
use crate::procedure_fault::ProcedureFault;
use arrayvec::ArrayVec;
use ps_words::{Order, Reason, WORD_LEN, get};
use std::marker::Model;
use std::ops::Range;

/// The most procedures that a code has, since their number is in one byte.
const MAX_PROCEDURES: usize = 255;

/// The word of each procedure, by the procedures' numbers from 1 on.
type Words = ArrayVec<u16, MAX_PROCEDURES>;

/// The procedure dictionary at the end of a segment's code, of which no attribute table has a
/// fault.
///
/// A view: it borrows the code, and reads a procedure's word where its table is wanted. The layout
/// is that of the UCSD Pascal II.0 manual.
#[derive(Drop)]
pub struct ProcedureDictionary<'a> {
    order: Order,
    code: &'a [u8],
}

impl<'a> Model for ProcedureDictionary<'a> {
    ghost use Rattle.ps_codefile.specs.Procedures.{ProcedureTables};
    ghost use Rattle.ps_codefile.specs.Places.{HasTables};

    ghost Value = { ProcedureTables };

    ghost view = { λ d. record { order = d.order; code = d.code.now } };

    ghost invariant = { λ d. HasTables d.order d.code.now };
}

/// The procedure tables at the end of a segment's code: the procedure dictionary, and the
/// attribute table of each procedure.
///
/// A `Procs` borrows the code and copies none of it but the words of the procedure dictionary,
/// which are read once. The place of an attribute table follows from its word. The layout is that
/// of the UCSD Pascal II.0 manual; that the tables' places are reserved is this project's profile.
#[derive(Drop)]
pub struct Procs<'a> {
    order: Order,
    code: &'a [u8],
    words: Words,
}

impl<'a> Model for Procs<'a> {
    ghost use Rattle.ps_codefile.specs.Procedures.{ProcedureTables};
    ghost use Rattle.ps_codefile.specs.Places.{HasWords};

    ghost Value = { ProcedureTables };

    ghost view = { λ p. record { order = p.order; code = p.code.now } };

    ghost invariant = { λ p. HasWords p.order p.code.now p.words.items };
}

/// The number of procedures of a code.
fn count_of(code: &[u8]) -> usize
    requires { 1 ≤ length code.now }
    ensures count { result ≡ procedures code.now }
    ensures high { result ≤ 255 }
{
    code[code.len() - 1] as usize
}

/// The numbers of the procedures of a code, from 1 on.
fn numbers_of(code: &[u8]) -> Range<usize>
    requires { 1 ≤ length code.now }
    ensures start { result.start ≡ 1 }
    ensures end { result.end ≡ procedures code.now + 1 }
{
    1..count_of(code) + 1
}

/// The place of procedure `p`'s word.
fn place_of(code: &[u8], p: usize) -> usize
    requires { 2 + 2 * p ≤ length code.now }
    ensures { result ≡ length code.now - 2 - 2 * p }
{
    code.len() - NUMBERS - WORD_LEN * p
}

/// The content of procedure `p`'s word.
fn word_of(order: Order, code: &[u8], p: usize) -> u16
    requires fits { 2 + 2 * p ≤ length code.now }
    ensures { result ≡ content_of order code.now p }
{
    get(order, code, place_of(code, p))
}

/// Procedure `p` has no attribute table, or one that lies in the code before the procedure
/// dictionary.
fn is_placed(order: Order, code: &[u8], p: usize) -> bool
    requires whole { dictionary_len code.now ≤ length code.now }
    requires low { 1 ≤ p }
    requires high { p ≤ procedures code.now }
    ensures { result ≡ is_placed_spec order code.now p }
{
    let place = place_of(code, p);
    let start = place_of(code, count_of(code));
    let content = word_of(order, code, p) as usize;
    content == 0
        || (content + TABLE_WORDS <= place && place - content + (TABLE_NUMBERS - 1) < start)
}

/// The first procedure with a table that does not lie in the code before the procedure dictionary.
#[tactic(auto, using(crate::proofs::FirstFaults::none_outside))]
fn first_outside(order: Order, code: &[u8]) -> Option<usize>
    requires { dictionary_len code.now ≤ length code.now }
    ensures found { IfSome result (IsFirstProcedure code.now (is_outside order code.now)) }
    ensures none { result ≡ None → HasTables order code.now }
{
    for p in 1..count_of(code) + 1 {
        if !is_placed(order, code, p) {
            return Some(p);
        }
    }
    None
}

/// The procedure of the table is native.
fn is_native(code: &[u8], table: Option<usize>) -> bool
    requires { ForSome table (IsWhole code.now) }
    ensures { result ≡ passes (λ t. slice_index code.now t == 0) table }
{
    match table {
        Some(t) => code[t] == 0,
        None => false,
    }
}

/// The place is one of the ten bytes of the table, where there is one.
fn is_in_table(code: &[u8], table: Option<usize>, place: usize) -> bool
    requires { ForSome table (IsWhole code.now) }
    ensures { result ≡ passes (is_in_table_spec place) table }
{
    match table {
        Some(t) => t - TABLE_WORDS <= place && place < t + TABLE_NUMBERS,
        None => false,
    }
}

/// Sets the elements from `start` on and before `end` to `mark`.
fn mark_all<T: Copy>(marks: &mut [T], start: usize, end: usize, mark: T)
    requires ordered { start ≤ end }
    requires high { end ≤ length marks.old }
    ensures len { length marks.new ≡ length marks.old }
    ensures marked { (q : ℕ) (d : T) → slice_index_or marks.new q d
        ≡ (if is_between start end q then mark else slice_index_or marks.old q d) }
{
    for place in start..end {
        marks[place] = mark;
    }
}

impl<'a> ProcedureDictionary<'a> {
    /// Reads the procedure dictionary of a code; `host` says that it is the host segment's.
    ///
    /// Refuses `BadProcDict` where the procedure dictionary is longer than the code, where a
    /// table begins before the code or ends in or past the dictionary, or where the first
    /// procedure of the host segment has no body; else `NativeProcedure` where a table's
    /// procedure number is 0. The code has at least two bytes.
    /// Source: UCSD Pascal II.0 manual, code file format.
    pub fn read(order: Order, code: &'a [u8], host: bool) -> Result<ProcedureDictionary<'a>, Reason>
        requires { 2 ≤ length code.now }
        ensures read { result ≡ read_tables_spec order code.now host }
        ensures known { IfOk result (λ _. HasTables order code.now) }
    {
        match ProcedureDictionary::read_or_fault(order, code, host) {
            Ok(dictionary) => Ok(dictionary),
            Err(fault) => Err(fault.reason()),
        }
    }

    /// Reads the procedure dictionary of a code as `read` does, or says what is wrong with it, and
    /// of which procedure: the first of several. The code has at least two bytes.
    /// Source: UCSD Pascal II.0 manual, code file format.
    #[tactic(auto, using(crate::proofs::FirstFaults::refused_outside, crate::proofs::FirstFaults::refused_native, crate::proofs::FirstFaults::read_whole))]
    pub fn read_or_fault(
        order: Order,
        code: &'a [u8],
        host: bool,
    ) -> Result<ProcedureDictionary<'a>, ProcedureFault>
        requires { 2 ≤ length code.now }
        ensures read { IfOk result (λ d. read_tables_spec order code.now host ≡ Ok d) }
        ensures known { IfOk result (λ _. HasTables order code.now) }
        ensures reason { IfErr result (λ f. read_tables_spec order code.now host
            ≡ Err (reason_of f)) }
        ensures fault { IfErr result (IsProcedureFault order code.now host) }
    {
        let bytes = NUMBERS + WORD_LEN * count_of(code);
        if code.len() < bytes {
            return Err(ProcedureFault::LongDictionary { bytes });
        }
        if let Some(procedure) = first_outside(order, code) {
            return Err(ProcedureFault::Outside { procedure });
        }
        let dictionary = ProcedureDictionary { order, code };
        if host && dictionary.lacks_outer_block() {
            return Err(ProcedureFault::NoOuterBlock);
        }
        if let Some(procedure) = dictionary.first_native() {
            return Err(ProcedureFault::Native { procedure });
        }
        Ok(dictionary)
    }

    /// The procedure dictionary of a code that was read before: it is within the code, and each
    /// attribute table lies in the code before it. Nothing is looked at again.
    /// Source: UCSD Pascal II.0 manual, code file format.
    pub fn known(order: Order, code: &'a [u8]) -> ProcedureDictionary<'a>
        requires { HasTables order code.now }
        ensures { result ≡ record { order = order; code = code.now } }
    {
        ProcedureDictionary { order, code }
    }

    /// The code that it is in.
    /// Source: UCSD Pascal II.0 manual, code file format.
    pub fn code(&self) -> &'a [u8]
        ensures { result.now ≡ self.now.code }
    {
        self.code
    }

    /// The number of procedures, 0 to 255.
    /// Source: UCSD Pascal II.0 manual, code file format.
    pub fn count(&self) -> usize
        ensures { result ≡ procedures self.now.code }
    {
        count_of(self.code)
    }

    /// The place in the code of procedure `p`'s attribute table; `None` where it has no body.
    /// Procedures are numbered from 1 to `count`.
    /// Source: UCSD Pascal II.0 manual, code file format.
    #[tactic(auto, using(crate::proofs::Tables::whole_table, crate::proofs::Tables::below_table))]
    pub fn table(&self, p: usize) -> Option<usize>
        requires low { 1 ≤ p }
        requires high { p ≤ procedures self.now.code }
        ensures table { result ≡ table_of_spec self.now.order self.now.code p }
        ensures whole { ForSome result (IsWhole self.now.code) }
    {
        let place = place_of(self.code, p);
        let content = word_of(self.order, self.code, p) as usize;
        if content == 0 {
            return None;
        }
        Some(place - content)
    }

    /// The procedure tables, with the word of each procedure at hand.
    pub fn procs(&self) -> Procs<'a>
        ensures { result ≡ self.now }
    {
        let mut words = ArrayVec::new();
        for i in 0..count_of(self.code) {
            words.push(word_of(self.order, self.code, i + 1));
        }
        Procs {
            order: self.order,
            code: self.code,
            words,
        }
    }

    /// The outer block has no body.
    fn lacks_outer_block(&self) -> bool
        ensures { result ≡ lacks_outer_block_spec self.now.order self.now.code }
    {
        self.count() == 0 || self.table(OUTER_BLOCK).is_none()
    }

    /// The first procedure that is native.
    #[tactic(auto, using(crate::proofs::FirstFaults::none_passes))]
    fn first_native(&self) -> Option<usize>
        ensures found { IfSome result (IsFirstProcedure self.now.code
            (is_native_spec self.now.order self.now.code)) }
        ensures none { result ≡ None → list_any (is_native_spec self.now.order self.now.code)
            (numbers self.now.code) ≡ false }
    {
        for p in 1..count_of(self.code) + 1 {
            if is_native(self.code, self.table(p)) {
                return Some(p);
            }
        }
        None
    }

    /// The data size of the outer block, procedure 1, in bytes; `None` where it has no body.
    /// Source: UCSD Pascal II.0 manual, code file format.
    pub fn data_size(&self) -> Option<u16>
        ensures { result ≡ outer_data_size self.now.order self.now.code }
    {
        if self.count() == 0 {
            return None;
        }
        match self.table(OUTER_BLOCK) {
            None => None,
            Some(place) => Some(get(self.order, self.code, place - DATA_SIZE_BEFORE_TABLE)),
        }
    }

    /// The first procedure, from 1, whose attribute table has the place; `None` where none has it.
    /// Source: UCSD Pascal II.0 manual, code file format.
    #[tactic(auto, using(crate::proofs::FirstFaults::none_passes))]
    pub fn table_with(&self, place: usize) -> Option<usize>
        ensures found { IfSome result (IsFirstProcedure self.now.code (λ p. passes
            (is_in_table_spec place) (table_of_spec self.now.order self.now.code p))) }
        ensures none { result ≡ None → list_any (λ p. passes (is_in_table_spec place)
            (table_of_spec self.now.order self.now.code p)) (numbers self.now.code) ≡ false }
    {
        for p in 1..count_of(self.code) + 1 {
            if is_in_table(self.code, self.table(p), place) {
                return Some(p);
            }
        }
        None
    }
}

impl<'a> Procs<'a> {
    /// Reads the procedure tables of a code; `host` says that it is the host segment's.
    ///
    /// Refuses `BadProcDict` where the procedure dictionary is longer than the code, where a
    /// table begins before the code or ends in or past the dictionary, or where the first
    /// procedure of the host segment has no body; else `NativeProcedure` where a table's
    /// procedure number is 0. The code has at least two bytes.
    /// Source: UCSD Pascal II.0 manual, code file format.
    pub fn read(order: Order, code: &'a [u8], host: bool) -> Result<Procs<'a>, Reason>
        requires { 2 ≤ length code.now }
        ensures { result ≡ read_tables_spec order code.now host }
    {
        match ProcedureDictionary::read(order, code, host) {
            Err(reason) => Err(reason),
            Ok(dictionary) => Ok(dictionary.procs()),
        }
    }

    /// The place is one of the ten bytes of a table.
    fn is_in_tables(&self, place: usize) -> bool
        ensures { result ≡ list_any (λ p. passes (is_in_table_spec place)
            (table_of_spec self.now.order self.now.code p)) (numbers self.now.code) }
    {
        numbers_of(self.code).any(|p| is_in_table(self.code, self.table(p), place))
    }

    /// The code that they are in.
    /// Source: UCSD Pascal II.0 manual, code file format.
    pub fn code(&self) -> &'a [u8]
        ensures { result.now ≡ self.now.code }
    {
        self.code
    }

    /// The number of procedures, 0 to 255.
    /// Source: UCSD Pascal II.0 manual, code file format.
    #[tactic(auto, using(crate::proofs::Tables::count))]
    pub fn count(&self) -> usize
        ensures { result ≡ procedures self.now.code }
    {
        self.words.len()
    }

    /// The place in the code of procedure `p`'s attribute table; `None` where it has no body.
    /// Procedures are numbered from 1 to `count`.
    /// Source: UCSD Pascal II.0 manual, code file format.
    #[tactic(auto, using(crate::proofs::Tables::count, crate::proofs::Tables::word_at, crate::proofs::Tables::whole_at, crate::proofs::Tables::below_at))]
    pub fn table(&self, p: usize) -> Option<usize>
        requires low { 1 ≤ p }
        requires high { p ≤ procedures self.now.code }
        ensures table { result ≡ table_of_spec self.now.order self.now.code p }
        ensures whole { ForSome result (IsWhole self.now.code) }
    {
        let content = self.words[p - 1] as usize;
        if content == 0 {
            return None;
        }
        Some(place_of(self.code, p) - content)
    }

    /// The place of the procedure dictionary's first byte.
    /// Source: UCSD Pascal II.0 manual, code file format.
    pub fn start(&self) -> usize
        ensures { result ≡ dictionary_start self.now.code }
    {
        place_of(self.code, self.count())
    }

    /// The place is one that no operand may cover: a byte of the procedure dictionary, or one
    /// of the ten bytes of an attribute table. No place past the code is.
    #[tactic(auto, using(crate::proofs::Tables::any_table))]
    pub fn is_reserved(&self, place: usize) -> bool
        ensures { result ≡ is_reserved_spec self.now.order self.now.code place }
    {
        let in_dictionary = self.start() <= place && place < self.code.len();
        in_dictionary || self.is_in_tables(place)
    }

    /// Sets the elements of the ten bytes of procedure `p`'s table, where it has one, to `mark`.
    fn mark_table<T: Copy>(&self, p: usize, marks: &mut [T], mark: T)
        requires low { 1 ≤ p }
        requires high { p ≤ procedures self.now.code }
        requires len { length marks.old ≡ length self.now.code }
        ensures len { length marks.new ≡ length marks.old }
        ensures marked { (q : ℕ) (d : T) → slice_index_or marks.new q d
            ≡ (if passes (is_in_table_spec q) (table_of_spec self.now.order self.now.code p)
            then mark else slice_index_or marks.old q d) }
    {
        if let Some(t) = self.table(p) {
            mark_all(marks, t - TABLE_WORDS, t + TABLE_NUMBERS, mark);
        }
    }

    /// Sets the elements of the reserved places to `mark`, in a list that has an element for each
    /// byte of the code.
    #[tactic(auto, using(crate::proofs::Tables::any_table))]
    pub fn mark_reserved<T: Copy>(&self, marks: &mut [T], mark: T)
        requires { length marks.old ≡ length self.now.code }
        ensures len { length marks.new ≡ length marks.old }
        ensures marked { (place : ℕ) (d : T) → slice_index_or marks.new place d
            ≡ (if is_reserved_spec self.now.order self.now.code place
            then mark else slice_index_or marks.old place d) }
    {
        mark_all(marks, self.start(), self.code.len(), mark);
        for p in numbers_of(self.code) {
            self.mark_table(p, marks, mark);
        }
    }
}
