//! The search for what looks wrong.
ghost use Rattle.std.specs.Prelude.{◌≡◌, ◌∷◌, [], IfOk, None, OnOk, Some, map};
ghost use Rattle.std.specs.List.{enumerate_from, flat_map, list_any};
ghost use Rattle.std.specs.Option.{option_map};
ghost use Rattle.ps_resolve.specs.Sources.{contents};
ghost use Rattle.ps_warnings.specs.Searches.AllFindings.{all_findings, findings_of_file, findings_of_files};
ghost use Rattle.ps_warnings.specs.Searches.FileFindings.{comes_from as comes_from_spec, host_met};
ghost use Rattle.ps_warnings.specs.Found.{Adds, found_at, found_in_record, about_link, stated_at};
ghost use Rattle.ps_warnings.specs.WarnedFiles.{AreInOrder, AreSaid};
ghost use Rattle.ps_check_segments.specs.Paths.{host_order, paths_in};
ghost use Rattle.ps_check_segments.specs.Seen.{host_records, seen};

mod codes;
mod counts;
mod doubled;
mod entries;
mod extents;
mod files;
mod links;
mod names;
mod numbers;
mod operands;
mod procedures;
mod records;
mod segment_words;

use crate::finding::{Finding, FindingAt, Place, Unsure};
pub use counts::add_other_counts;
use ps_check_segments::{NamedFiles, ReadSegment, host_of, in_slot};
use ps_linkinfo::LinkInformation;
use ps_words::{Fault, Name};
use std::alloc::{AllocError, Allocator};

/// What is looked at, and what a report says of it already.
#[derive(Clone, Copy)]
struct Context<'c, 'a> {
    inputs: &'c NamedFiles<'a>,
    list: &'c [ReadSegment<'a>],
    /// The fault that the report explains.
    fault: Option<Fault>,
    /// No name of an entry has a capital letter.
    are_small: bool,
    /// The records of the host program of the link, if it has one.
    host: Option<&'c LinkInformation<'a>>,
}

impl<'c, 'a> Context<'c, 'a> {
    /// The fault is in the segment that comes from this entry.
    fn is_refused(&self, file: usize, index: u8) -> bool {
        let Some(
            Fault {
                slot: Some(slot),
                ..
            },
        ) = self.fault
        else {
            return false;
        };
        match in_slot(self.list, slot) {
            Some(
                ReadSegment {
                    source: Ok(source),
                    ..
                },
            ) => source.at.file == file && source.at.index == index,
            _ => false,
        }
    }

    /// A segment of the link comes from this file and has this name.
    fn is_taken_from(&self, file: usize, name: &Name) -> bool
        ensures { result ≡ list_any (comes_from_spec file name.now) (map seen self.now.list.now) }
    {
        for segment in self.list {
            if comes_from(segment, file, name) {
                return true;
            }
        }
        false
    }

    /// The records of the host program that the unit of this name in a file meets in the link: none
    /// where the link does not take it.
    fn host_met(&self, file: usize, name: &Name) -> Option<&'c LinkInformation<'a>>
        ensures { option_map (λ h. h.now) result ≡ host_met (map seen self.now.list.now) file
            name.now (option_map (λ h. h.now) self.now.host) }
    {
        if self.is_taken_from(file, name) {
            self.host
        } else {
            None
        }
    }
}

/// A segment of the link comes from this file and has this name.
fn comes_from(segment: &ReadSegment<'_>, file: usize, name: &Name) -> bool
    ensures { result ≡ comes_from_spec file name.now (seen segment.now) }
{
    match segment.source {
        Ok(source) => source.at.file == file && segment.name == *name,
        Err(_) => false,
    }
}

/// What is found in files and is no fault, in its order: in the files, each with its entries, then in
/// the link.
#[derive(Drop)]
pub struct Findings<'a, A: Allocator> {
    pub list: Vec<FindingAt<'a>, A>,
}

impl<'a, A: Allocator> Findings<'a, A> {
    /// Adds a finding, after the others.
    fn push(&mut self, place: Place<'a>, finding: Finding) -> Result<(), AllocError>
        ensures { OnOk result (Adds (about_link self.old)
            (stated_at place.entry.path.now place.entry.segment place.entry.rec finding)
            (about_link self.new)) }
    {
        Ok(self.list.push(FindingAt { place, finding })?)
    }

    /// Adds what was found at a place, if anything was.
    fn add(&mut self, place: Place<'a>, found: Option<Finding>) -> Result<(), AllocError>
        ensures { OnOk result (Adds (about_link self.old)
            (found_at place.entry.path.now place.entry.segment place.entry.rec found)
            (about_link self.new)) }
    {
        match found {
            None => Ok(()),
            Some(finding) => self.push(place, finding),
        }
    }

    /// Adds what was found in a record of a segment, if anything was.
    fn add_of_record(
        &mut self,
        place: Place<'a>,
        found: Option<(usize, Finding)>,
    ) -> Result<(), AllocError>
        ensures { OnOk result (Adds (about_link self.old)
            (found_in_record place.entry.path.now place.entry.segment found)
            (about_link self.new)) }
    {
        match found {
            None => Ok(()),
            Some((rec, finding)) => {
                let rec = Some(rec);
                self.push(Place { rec, ..place }, finding)
            }
        }
    }

    /// Adds what was found at a place and has no definition, if anything was.
    fn add_unsure<T: Unsure>(
        &mut self,
        place: Place<'a>,
        found: Option<T>,
    ) -> Result<(), AllocError>
        ensures { OnOk result (Adds (about_link self.old) [] (about_link self.new)) }
    {
        match found {
            None => Ok(()),
            Some(found) => self.push(place, found.finding()),
        }
    }

    /// Adds what was found in a record of a segment and has no definition, if anything was.
    fn add_unsure_of_record<T: Unsure>(
        &mut self,
        place: Place<'a>,
        found: Option<(usize, T)>,
    ) -> Result<(), AllocError>
        ensures { OnOk result (Adds (about_link self.old) [] (about_link self.new)) }
    {
        match found {
            None => Ok(()),
            Some((rec, found)) => {
                let rec = Some(rec);
                self.add_unsure(Place { rec, ..place }, Some(found))
            }
        }
    }
}

/// A place that is a file as a whole.
fn in_file(path: &str) -> Place<'_>
    ensures { result ≡ record { path = path.entry; segment = None; rec = None } }
{
    Place {
        path,
        segment: None,
        rec: None,
    }
}

/// A place that is a segment of a file as a whole.
fn in_segment(path: &str, name: Name) -> Place<'_>
    ensures { result ≡ record { path = path.entry; segment = Some name; rec = None } }
{
    Place {
        path,
        segment: Some(name),
        rec: None,
    }
}

/// What is found in files and is no fault: in the files in their order, each with its entries, then in
/// the link.
///
/// `list` has the segments of the link, and `fault` is the fault that the report explains, if any:
/// what the explanation says is said once. Each finding about entries, records and the link is so, and
/// whatever is so is said, whatever the fault is. Returns an error where memory was refused.
pub fn findings_of<'a, A: Allocator + Copy>(
    alloc: A,
    inputs: &NamedFiles<'a>,
    list: &[ReadSegment<'a>],
    fault: Option<Fault>,
) -> Result<Findings<'a, A>, AllocError>
    ensures said { IfOk result (λ found. AreSaid (paths_in inputs.now) inputs.now.host.now
        (contents inputs.now.libs.now) (map seen list.now) (about_link found)) }
    ensures ordered { IfOk result (λ found. AreInOrder (paths_in inputs.now) inputs.now.host.now
        (contents inputs.now.libs.now) (map seen list.now) (about_link found)) }
{
    let mut findings = Findings {
        list: Vec::new(alloc),
    };
    let host = records_of_host(list);
    add_all(&mut findings, inputs, list, host, fault)?;
    Ok(findings)
}

/// The records of the host program of a link, if it has one.
fn records_of_host<'l, 'a>(list: &'l [ReadSegment<'a>]) -> Option<&'l LinkInformation<'a>>
    ensures { option_map (λ h. h.now) result ≡ host_records (map seen list.now) }
{
    match host_of(list) {
        None => None,
        Some(host) => Some(&host.records),
    }
}

/// Adds all that looks wrong, where the host program of the link has these records.
fn add_all<'a, A: Allocator>(
    findings: &mut Findings<'a, A>,
    inputs: &NamedFiles<'a>,
    list: &[ReadSegment<'a>],
    host: Option<&LinkInformation<'a>>,
    fault: Option<Fault>,
) -> Result<(), AllocError>
    ensures { OnOk result (Adds (about_link findings.old)
        (all_findings (paths_in inputs.now)
        (option_map (λ h. h.now) host.entry) inputs.now.host.now (contents inputs.now.libs.now)
        (map seen list.now))
        (about_link findings.new)) }
{
    let context = Context {
        inputs,
        list,
        fault,
        are_small: names::are_small(inputs),
        host,
    };
    add_of_files(findings, &context)?;
    segment_words::look_at(findings, &context)?;
    links::look_at(findings, &context)
}

/// Adds what looks wrong in the files.
fn add_of_files<'a, A: Allocator>(
    findings: &mut Findings<'a, A>,
    context: &Context<'_, 'a>,
) -> Result<(), AllocError>
    ensures { OnOk result (Adds (about_link findings.old)
        (findings_of_files (paths_in context.now.inputs.now)
        (option_map (λ h. h.now) context.now.host) (map seen context.now.list.now)
        (host_order context.now.inputs.now.host.now)
        (context.now.inputs.now.host.now ∷ contents context.now.inputs.now.libs.now))
        (about_link findings.new)) }
{
    files::look_at(findings, context, 0, context.inputs.host)?;
    add_of_libraries(findings, context)
}

/// Adds what looks wrong in the libraries.
fn add_of_libraries<'a, A: Allocator>(
    findings: &mut Findings<'a, A>,
    context: &Context<'_, 'a>,
) -> Result<(), AllocError>
    ensures { OnOk result (Adds (about_link findings.old)
        (flat_map (findings_of_file (paths_in context.now.inputs.now)
        (option_map (λ h. h.now) context.now.host) (map seen context.now.list.now)
        (host_order context.now.inputs.now.host.now))
        (enumerate_from 1 (contents context.now.inputs.now.libs.now)))
        (about_link findings.new)) }
{
    for (library, lib) in context.inputs.libs.iter().enumerate() {
        files::look_at(findings, context, library + 1, lib)?;
    }
    Ok(())
}
