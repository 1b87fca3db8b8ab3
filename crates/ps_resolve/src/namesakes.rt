ghost use Rattle.std.specs.Prelude.{◌≡◌, ◌<◌, [], true, false, ◌==◌, IfOk, IfErr};
ghost use Rattle.std.specs.List.{IsDistinct};
ghost use Rattle.std.specs.List.Sorted.{IsStrictlyIncreasing};
ghost use Rattle.indexmap.specs.IndexSet.{hasher_of};
ghost use Rattle.ps_linkinfo.specs.RecordCounts.{digest_of, is_private_reference, privates_in};
ghost use Rattle.ps_resolve.specs.Builders.{HaveNoNamesakes, FindsNamesake, private_numbers};
ghost use Rattle.ps_resolve.specs.declared.linkage.Stop.TheVariants.{Memory};

use crate::linkage::Stop;
use crate::name_hasher::{NameHasher, NameKey};
use indexmap::IndexSet;
use ps_linkinfo::{Body, LinkInformation};
use std::alloc::Allocator;

/// The record requests a private.
#[inline(always)]
fn is_private(body: &Body) -> bool
    ensures { result ≡ is_private_reference body.now }
{
    body.kind().requests_private()
}

/// The names of the privates of these records, each as a number.
fn numbers_of<A: Allocator + Copy>(alloc: A, records: &LinkInformation) -> Result<Vec<u64, A>, Stop>
    ensures numbers { IfOk result (λ numbers. numbers.items ≡ private_numbers records.now) }
    ensures stop { IfErr result (λ stop. stop ≡ Memory) }
{
    let mut numbers = Vec::with_capacity(alloc, records.privates())?;
    for (_, record) in records.records() {
        if is_private(&record.body) {
            numbers.push(u64::from_be_bytes(record.name))?;
        }
    }
    Ok(numbers)
}

/// Each number is below the next.
fn ascend(numbers: &[u64]) -> bool
    ensures rise { result ≡ true → IsStrictlyIncreasing numbers.now }
    ensures do_not { result ≡ false → IsStrictlyIncreasing numbers.now → ⊥ }
{
    numbers.is_sorted_by(|a, b| a < b)
}

/// No private of these records has the name of another: their names, sorted, ascend.
fn have_distinct_names<A: Allocator + Copy>(
    alloc: A,
    records: &LinkInformation,
) -> Result<bool, Stop>
    ensures own { IfOk result (λ own. own ≡ true
        → HaveNoNamesakes is_private_reference records.now) }
    ensures shared { IfOk result (λ own. own ≡ false
        → IsDistinct (λ x y. x == y) (private_numbers records.now) → ⊥) }
    ensures stop { IfErr result (λ stop. stop ≡ Memory) }
{
    let mut numbers = numbers_of(alloc, records)?;
    numbers.sort_unstable();
    Ok(ascend(numbers.as_slice()))
}

/// A set for the names of the privates of these records, by hashes that are keyed by the records.
fn empty_names<A: Allocator + Copy>(
    alloc: A,
    records: &LinkInformation,
) -> Result<IndexSet<NameKey, NameHasher, A>, Stop>
    ensures empty { IfOk result (λ names. names.keys ≡ []) }
    ensures keyed { IfOk result (λ names. hasher_of names ≡ digest_of records.now) }
    ensures stop { IfErr result (λ stop. (stop ≡ Memory) × (0 < privates_in records.now)) }
{
    let hasher = NameHasher::of(records);
    let names = IndexSet::with_capacity_and_hasher(alloc, records.privates(), hasher)?;
    Ok(names)
}

/// The index, from 0, of the first private's record that has the name of an earlier one, in a walk
/// over all, whose names are put into the set. It is empty.
fn first_again<A: Allocator + Copy>(
    names: &mut IndexSet<NameKey, NameHasher, A>,
    records: &LinkInformation,
) -> Result<Option<usize>, Stop>
    requires { names.old.keys ≡ [] }
    ensures found { IfOk result (FindsNamesake is_private_reference records.now) }
    ensures stop { IfErr result (λ stop. stop ≡ Memory) }
{
    for (rec, record) in records.records() {
        if is_private(&record.body) && !names.insert(NameKey(record.name))? {
            return Ok(Some(rec));
        }
    }
    Ok(None)
}

/// The index, from 0, of the first private's record that has the name of an earlier one. It takes a
/// table by hashes, which records without such a one do not need.
fn first_namesake<A: Allocator + Copy>(
    alloc: A,
    records: &LinkInformation,
) -> Result<Option<usize>, Stop>
    ensures found { IfOk result (FindsNamesake is_private_reference records.now) }
    ensures stop { IfErr result (λ stop. stop ≡ Memory) }
{
    let mut names = empty_names(alloc, records)?;
    first_again(&mut names, records)
}

/// The index, from 0, of the first PRIVREF record that has the name of an earlier one.
///
/// Fewer than two take no memory. Of more, sorted numbers report whether any two names are equal far
/// sooner than a table of the names, most of whose places are in no cache. Only where two are, a
/// table finds which of them comes first.
#[tactic(auto, using(crate::proofs::EarlierNames::few_privates))]
pub(crate) fn first_duplicate_private<A: Allocator + Copy>(
    alloc: A,
    records: &LinkInformation,
) -> Result<Option<usize>, Stop>
    ensures found { IfOk result (FindsNamesake is_private_reference records.now) }
    ensures stop { IfErr result (λ stop. stop ≡ Memory) }
{
    if records.privates() < 2 {
        return Ok(None);
    }
    if have_distinct_names(alloc, records)? {
        return Ok(None);
    }
    first_namesake(alloc, records)
}
