//! The lists of files, one after another.
ghost use Rattle.std.specs.Prelude.{◌≡◌, IfOk, length};
ghost use Rattle.ps_codefile.specs.Opened.{opened as opened_spec};
ghost use Rattle.ps_writing.specs.Adding.{Adds};
ghost use Rattle.ps_listing.specs.FileLists.{listed, listed_all, listed_units};
ghost use Rattle.ps_listing.specs.Listed.{segments_found as segments_found_spec, values_of as values_of_spec};
ghost use Rattle.ps_listing.specs.ListText.{listed_in};
ghost use Rattle.ps_listing.specs.LoneText.{listed_with_units, lone_text};

use crate::listed_file::{
    FileValues, add_listed, add_listed_with_units, add_unread, is_refused, values_of,
};
use crate::lone::{LoneUnit, add_unit_lines, has_no_sound, lone_units};
use crate::phrases;
use crate::segments::{ListedSegment, segments_found};
use ps_codefile::{Dict, open};
use ps_words::Reason;
use ps_writing::{Form, Text, TextWriter, add_each_row, separator};
use std::alloc::{AllocError, Allocator, Global};
use std::marker::Model;

/// How files are listed.
#[derive(Clone, Copy)]
pub enum ListForm {
    /// A line of each file and of each of its segments.
    Lines,
    /// The values of the lines as one JSON document.
    Json,
    /// The lines, and after those of each file a line of each of its units by itself.
    Units,
    /// The values of these lines, those of the units too, as one JSON document.
    JsonUnits,
}

/// The units of a file by themselves, where they are listed.
fn units_in<A: Allocator + Copy>(
    alloc: A,
    how: ListForm,
    file: &[u8],
) -> Result<Vec<LoneUnit, A>, AllocError>
    ensures { IfOk result (λ units. units.items ≡ listed_units how file.now) }
{
    match how {
        ListForm::Lines | ListForm::Json => Ok(Vec::new(alloc)),
        ListForm::Units | ListForm::JsonUnits => lone_units(alloc, file),
    }
}

/// A file that is listed: its path, what it is, and what it has.
#[derive(Drop)]
pub struct ListedFile<'a, A: Allocator = Global> {
    how: ListForm,
    path: &'a str,
    /// What the file is, where it is no code file as it ought to be.
    phrase: String<A>,
    file: &'a [u8],
    /// The file as it was opened, or why it cannot be.
    opened: Result<Dict<'a>, Reason>,
    /// Its segments, by slot; none where the phrase says that it is something else.
    segments: Vec<ListedSegment<'a>, A>,
    /// The units of the file by themselves, where they are listed.
    units: Vec<LoneUnit, A>,
}

impl<'a, A: Allocator> Model for ListedFile<'a, A> {
    ghost use Rattle.std.specs.Prelude.{◌≡◌, string_bytes};
    ghost use Rattle.ps_listing.specs.FileLists.{IsListing, Listed};

    ghost Value = { Listed };

    ghost view = { λ l. record { how = l.how; path = l.path.now; phrase = string_bytes l.phrase; file = l.file.now } };

    ghost invariant = { λ l. IsListing l.how (string_bytes l.phrase) l.file.now l.opened l.segments.items l.units.items };
}

impl<'a, A: Allocator + Copy> ListedFile<'a, A> {
    ghost use Rattle.std.specs.Prelude.{◌≡◌, IfOk};
    ghost use Rattle.ps_listing.specs.FileLists.{is_refused_in};
    ghost use Rattle.ps_listing.specs.Phrases.{IsPhrase};

    /// What is listed of the file at `path`, a whole file of any contents.
    ///
    /// Refused where memory was.
    pub fn of(
        alloc: A,
        how: ListForm,
        path: &'a str,
        file: &'a [u8],
    ) -> Result<ListedFile<'a, A>, AllocError>
        ensures how { IfOk result (λ l. l.how ≡ how) }
        ensures path { IfOk result (λ l. l.path ≡ path.now) }
        ensures file { IfOk result (λ l. l.file ≡ file.now) }
        ensures phrase { IfOk result (λ l. IsPhrase file.now l.phrase) }
    {
        let phrase = phrases::phrase(alloc, file)?;
        let opened = open(file);
        let segments = segments_found(alloc, phrase.as_str(), &opened)?;
        let units = units_in(alloc, how, file)?;
        Ok(ListedFile {
            how,
            path,
            phrase,
            file,
            opened,
            segments,
            units,
        })
    }

    /// The list says that the file is refused, or one of its segments is, or that it has none; or, with
    /// units, that it has no unit or that one is refused.
    pub fn is_refused(&self) -> bool
        ensures { result ≡ is_refused_in self.now }
    {
        match self.how {
            ListForm::Lines | ListForm::Json => {
                is_refused(self.phrase.as_str(), &self.opened, self.segments.as_slice())
            }
            ListForm::Units | ListForm::JsonUnits => has_no_sound(self.units.as_slice()),
        }
    }

    /// Its values.
    fn values(&self) -> FileValues
        ensures { result ≡ values_of_spec (length self.now.file) (opened_spec self.now.file) }
    {
        values_of(self.file.len(), &self.opened)
    }

    /// Its segments.
    fn segments(&self) -> &[ListedSegment<'a>]
        ensures { result.now
            ≡ segments_found_spec self.now.phrase (opened_spec self.now.file) }
    {
        self.segments.as_slice()
    }

    /// Adds its lines, or its item.
    fn add_in<S: TextWriter>(&self, text: &mut S, form: Form)
        ensures { Adds S.added text.old
            (listed_in form self.now.path self.now.phrase self.now.file) text.new }
    {
        let phrase = self.phrase.as_str();
        add_listed(
            text,
            form,
            self.path,
            phrase,
            self.values(),
            self.segments(),
        );
    }

    /// Adds the lines of its units, where they are listed.
    fn add_units<S: TextWriter>(&self, text: &mut S)
        ensures { Adds S.added text.old
            (lone_text self.now.path (listed_units self.now.how self.now.file)) text.new }
    {
        add_unit_lines(text, self.path, self.units.as_slice());
    }

    /// Adds its item, which has its units too.
    fn add_with_units<S: TextWriter>(&self, text: &mut S)
        ensures { Adds S.added text.old (listed_with_units self.now.path self.now.phrase
            self.now.file (listed_units self.now.how self.now.file)) text.new }
    {
        let phrase = self.phrase.as_str();
        let units = self.units.as_slice();
        add_listed_with_units(
            text,
            self.path,
            phrase,
            self.values(),
            self.segments(),
            units,
        );
    }

    /// Adds what is listed of it, as the first or after another.
    fn add_item<S: TextWriter>(&self, text: &mut S, first: bool)
        ensures { Adds S.added text.old (listed first self.now) text.new }
    {
        match self.how {
            ListForm::Lines => self.add_in(text, Form::Lines),
            ListForm::Json => {
                text.add(separator(first));
                self.add_in(text, Form::Json);
            }
            ListForm::Units => {
                self.add_in(text, Form::Lines);
                self.add_units(text);
            }
            ListForm::JsonUnits => {
                text.add(separator(first));
                self.add_with_units(text);
            }
        }
    }
}

/// What is listed of a file: lines made for grep, or an item of the list of a document.
///
/// The lines: one of the file, with its byte order, its length and what it is for; and one of each
/// slot that is not empty. Each begins with the path, in which a hidden character, as one that could
/// end the line, is a question mark. A segment that is in the file has its kind, its length and the
/// units that its UNITREF records name. One whose kind, code, procedure tables or records are
/// refused ends with the number and the name of its first fault, and with the index of the record.
/// A file that is no code file has one line. With units, a line of each unit follows, with its first
/// fault by itself.
///
/// The item: what is before it, and one object with the values of the lines, of each name the eight
/// characters and all its bytes in hexadecimal digits. With units it has a list of them too.
/// Source: UCSD Pascal II.0 manual, code file format; RFC 8259; the text is this project's profile.
#[derive(Drop)]
pub struct ListItem<'l, 'a, A: Allocator + Copy = Global> {
    /// The item is the first of the list.
    pub first: bool,
    /// The file.
    pub listed: &'l ListedFile<'a, A>,
}

impl<A: Allocator + Copy> Text for ListItem<'_, '_, A> {
    ghost bytes = { λ i. listed i.first i.listed.now };

    fn add_to<S: TextWriter>(&self, text: &mut S) {
        self.listed.add_item(text, self.first);
    }
}

/// The item of the file at a path at which nothing could be read: all its members but the path are
/// `null`, and it has no segments.
#[derive(Drop)]
pub struct UnreadItem<'a> {
    /// The item is the first of the list.
    pub first: bool,
    /// The path.
    pub path: &'a str,
}

impl Text for UnreadItem<'_> {
    ghost use Rattle.ps_listing.specs.FileLists.{unread};

    ghost bytes = { λ i. unread i.first i.path.now };

    fn add_to<S: TextWriter>(&self, text: &mut S) {
        text.add(separator(self.first));
        add_unread(text, self.path);
    }
}

/// The list of several files: that of each, one after another, or one document of their items.
#[derive(Drop)]
pub struct Lists<'a, A: Allocator + Copy = Global> {
    /// How they are listed.
    pub how: ListForm,
    /// The files.
    pub files: Vec<ListedFile<'a, A>, A>,
}

impl<A: Allocator + Copy> Text for Lists<'_, A> {
    ghost use Rattle.ps_listing.specs.FileLists.{lists_in};

    ghost bytes = { λ l. lists_in l.how l.files.items };

    fn add_to<S: TextWriter>(&self, text: &mut S) {
        match self.how {
            ListForm::Lines | ListForm::Units => add_items(text, self.files.as_slice()),
            ListForm::Json | ListForm::JsonUnits => {
                text.add(b"{\"files\":[");
                add_items(text, self.files.as_slice());
                text.add(b"\n]}\n");
            }
        }
    }
}

/// Adds what is listed of each file.
fn add_items<S: TextWriter, A: Allocator + Copy>(text: &mut S, files: &[ListedFile<'_, A>])
    ensures { Adds S.added text.old (listed_all files.now) text.new }
{
    add_each_row(text, files, |text, index, file| {
        file.add_item(text, index == 0);
    });
}

impl<'a, A: Allocator + Copy> Lists<'a, A> {
    ghost use Rattle.std.specs.Prelude.{◌≡◌, ◌∷◌, IfOk};
    ghost use Rattle.ps_resolve.specs.Sources.{contents};
    ghost use Rattle.ps_listing.specs.FileLists.{AreListed};

    /// What is listed of a host, and then of each of `libs` that has a path.
    ///
    /// `host_path` and `paths` name the files, which are whole files of any contents. Refused where memory
    /// was.
    pub fn of(
        alloc: A,
        how: ListForm,
        host_path: &'a str,
        paths: &[&'a str],
        host: &'a [u8],
        libs: &[&'a [u8]],
    ) -> Result<Lists<'a, A>, AllocError>
        ensures how { IfOk result (λ lists. lists.how ≡ how) }
        ensures files { IfOk result (λ lists. AreListed how
            (host_path.now ∷ contents paths.now) (host.now ∷ contents libs.now)
            lists.files.items) }
    {
        let mut files = Vec::new(alloc);
        files.push(ListedFile::of(alloc, how, host_path, host)?)?;
        let count = paths.len().min(libs.len());
        for index in 0..count {
            files.push(ListedFile::of(alloc, how, paths[index], libs[index])?)?;
        }
        Ok(Lists { how, files })
    }
}
