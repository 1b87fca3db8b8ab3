//! What a link is asked to write and to print.
ghost use Rattle.std.specs.Prelude.{◌≡◌};
ghost use Rattle.clap.specs.Words.{found_of, rows_of};
ghost use Rattle.ps_arguments.specs.Outputs.{form_of as form_of_spec, link_options as link_options_spec, map_content as map_content_spec, out_by as out_by_spec, telling as telling_spec};
ghost use Rattle.ps_arguments.specs.Requests.{NamesOutputs};

use crate::found::{has_flag, is_given, value_of};
use clap::ArgMatches;
use ps_writing::Form;

/// What a link writes, and where.
#[derive(Clone, Copy)]
pub struct Outputs<'a> {
    /// The path of OUT, the linked file.
    pub out: &'a str,
    /// The path of the file to which the map is written too.
    pub map: Option<&'a str>,
    /// What the options ask for beside these paths.
    pub options: LinkOptions,
}

/// What the options of a link ask for, beside paths.
#[derive(Clone, Copy)]
pub struct LinkOptions {
    /// How OUT is named.
    pub named: OutBy,
    /// What the map has.
    pub content: MapContent,
    /// The summary and the map are lines, or documents.
    pub form: Form,
    /// What the link prints.
    pub telling: Telling,
}

/// How OUT is named.
#[derive(Clone, Copy)]
pub enum OutBy {
    /// By its option.
    Option,
    /// By its place after the host.
    Place,
}

/// What the map of a link has.
#[derive(Clone, Copy)]
pub enum MapContent {
    /// Where the link puts each segment and variable.
    Places,
    /// That, and what the link stores.
    References,
}

/// What a link prints once all is written.
#[derive(Clone, Copy)]
pub enum Telling {
    Summary,
    Nothing,
}

/// What a link with this OUT writes and prints.
pub(crate) fn outputs_of<'a>(found: &ArgMatches<'a>, out: &'a str) -> Outputs<'a>
    ensures out { result.out ≡ out.entry }
    ensures named { NamesOutputs result (rows_of (found_of found.now)) }
{
    Outputs {
        out,
        map: value_of(found, "FILE"),
        options: link_options(found),
    }
}

/// What the options ask for that are given for a link.
fn link_options(found: &ArgMatches<'_>) -> LinkOptions
    ensures { result ≡ link_options_spec (rows_of (found_of found.now)) }
{
    LinkOptions {
        named: out_by(is_given(found, "OUT")),
        content: map_content(has_flag(found, "references")),
        form: form_of(has_flag(found, "json")),
        telling: telling_of(has_flag(found, "quiet")),
    }
}

/// How OUT is named: by its option where that is given.
fn out_by(is_option: bool) -> OutBy
    ensures { result ≡ out_by_spec is_option }
{
    if is_option {
        OutBy::Option
    } else {
        OutBy::Place
    }
}

/// What the map has, with `references` or without.
fn map_content(references: bool) -> MapContent
    ensures { result ≡ map_content_spec references }
{
    if references {
        MapContent::References
    } else {
        MapContent::Places
    }
}

/// What a link prints, which is quiet or not.
fn telling_of(quiet: bool) -> Telling
    ensures { result ≡ telling_spec quiet }
{
    if quiet {
        Telling::Nothing
    } else {
        Telling::Summary
    }
}

/// Lines, or with `json` a document.
pub fn form_of(json: bool) -> Form
    ensures { result ≡ form_of_spec json }
{
    if json { Form::Json } else { Form::Lines }
}
