//! Files that are refused, as a line and as a document.
ghost use Rattle.std.specs.Prelude.{◌≡◌, IfOk, OnErr, OnOk, option_map};
ghost use Rattle.std.specs.Io.KnownBytes.{Appends};
ghost use Rattle.ps_texts.specs.Paths.{path_of, paths_in};
ghost use Rattle.ps_writing.specs.Adding.{Adds};
ghost use Rattle.ps_writing.specs.Prefixes.{AppendsPrefix};
ghost use Rattle.ps_command.specs.Failures.{CutsFault};
ghost use Rattle.ps_command.specs.Printed.{PrintsFault, out_json, refusal_json};
ghost use Rattle.ps_command.specs.Told.{TellsFault, refused_line};
ghost use Rattle.ps_words.specs.FaultText.{part_text};

use crate::ended::Ended;
use ps_texts::{NamedFiles, Refusal};
use ps_words::Fault;
use ps_writing::{
    Text, TextWriter, WriteFault, add_json_fault, add_json_text, add_number, write_text,
};
use std::io::Write;

/// The line of files that are refused for this fault.
#[derive(Clone, Copy)]
struct RefusedLine(Fault);

impl Text for RefusedLine {
    ghost bytes = { λ line. refused_line line.0 };

    fn add_to<S: TextWriter>(&self, text: &mut S) {
        let Fault {
            reason,
            file,
            slot,
            rec,
            reference,
        } = self.0;
        text.add(b"pslink: ");
        add_number(text, b"refused ", reason.number());
        text.add(b" ");
        text.add(reason.name().as_bytes());
        add_part(text, b"kind", reason.kind().map(usize::from));
        add_number(text, b" file ", file);
        add_part(text, b"slot", slot.map(usize::from));
        add_part(text, b"record", rec);
        add_part(text, b"reference", reference);
        text.add(b"\n");
    }
}

/// Adds a part of a fault, as ` slot 7`, if the fault has it.
fn add_part<S: TextWriter>(text: &mut S, label: &[u8], number: Option<usize>)
    ensures { Adds S.added text.old (part_text label.now number) text.new }
{
    if let Some(number) = number {
        text.add(b" ");
        text.add(label);
        add_number(text, b" ", number);
    }
}

/// The document of files that are refused: the path of the file that the fault is in, that of OUT, if
/// they were to be linked, and the fault with the name of what it is about.
#[derive(Drop)]
struct RefusedFile<'a> {
    path: &'a str,
    out: Option<&'a str>,
    refusal: Refusal,
}

impl Text for RefusedFile<'_> {
    ghost bytes = { λ r. refusal_json r.path.now (option_map (λ path. path.now) r.out) r.refusal.name r.refusal.fault };

    fn add_to<S: TextWriter>(&self, text: &mut S) {
        text.add(b"{\"path\":\"");
        add_json_text(text, self.path);
        text.add(b"\"");
        add_out(text, self.out);
        text.add(b",\"fault\":");
        add_json_fault(text, self.refusal.fault, self.refusal.name);
        text.add(b"}\n");
    }
}

/// Adds the member of OUT, if there is an OUT.
fn add_out<S: TextWriter>(text: &mut S, out: Option<&str>)
    ensures { Adds S.added text.old (out_json (option_map (λ path. path.now) out.entry)) text.new }
{
    if let Some(path) = out {
        text.add(b",\"out\":\"");
        add_json_text(text, path);
        text.add(b"\"");
    }
}

/// Prints the document of files that are refused, whose link is to be written to this path, if they
/// were to be linked.
#[inline(never)]
fn print_refusal<O: Write>(
    files: &NamedFiles<'_>,
    out_path: Option<&str>,
    refusal: Refusal,
    out: &mut O,
) -> Result<(), WriteFault>
    ensures all { OnOk result (Appends (O.contents out.old) (O.contents out.new) (refusal_json
        (path_of (paths_in files.now) refusal.fault.file) (option_map (λ path. path.now)
        out_path.entry) refusal.name refusal.fault)) }
    ensures prefix { OnErr result (AppendsPrefix (O.contents out.old) (O.contents out.new)
        (refusal_json (path_of (paths_in files.now) refusal.fault.file) (option_map (λ path. path.now)
        out_path.entry) refusal.name refusal.fault)) }
{
    let refused = RefusedFile {
        path: files.path(refusal.fault.file),
        out: out_path,
        refusal,
    };
    write_text(&refused, out)
}

/// Reports files that are refused: by the line of the fault on standard error, and with `json` by its
/// document on standard output too, which names OUT, if they were to be linked. If the line cannot be
/// written, that is ignored. Returns how the command ends.
pub(crate) fn refuse<O: Write, E: Write>(
    files: &NamedFiles<'_>,
    out_path: Option<&str>,
    refusal: Refusal,
    json: bool,
    out: &mut O,
    err: &mut E,
) -> Result<Ended, WriteFault>
    ensures ended { IfOk result (λ ended. ended ≡ Ended.Refused) }
    ensures text { OnOk result (PrintsFault json (paths_in files.now) (option_map (λ path. path.now)
        out_path.entry) refusal.name refusal.fault (out.new ≡ out.old) (O.contents out.old)
        (O.contents out.new)) }
    ensures told { OnOk result (TellsFault refusal.fault (E.contents err.old) (E.contents err.new)) }
    ensures cut { OnErr result (CutsFault json (paths_in files.now) (option_map (λ path. path.now)
        out_path.entry) refusal.name refusal.fault (O.contents out.old) (O.contents out.new)) }
{
    if json {
        print_refusal(files, out_path, refusal, out)?;
    }
    let _ = write_text(&RefusedLine(refusal.fault), err);
    Ok(Ended::Refused)
}
