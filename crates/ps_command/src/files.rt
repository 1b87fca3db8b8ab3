//! Files that are read whole.
ghost use Rattle.std.specs.Prelude.{◌≡◌, ◌≢◌, ◌≤◌, ◌∷◌, Any, length, map, IfErr, IfOk, IfSome};
ghost use Rattle.std.specs.List.{AllZip};
ghost use Rattle.ps_command.specs.Causes.{read_error};
ghost use Rattle.ps_command.specs.Failures.{IsUnreadable};
ghost use Rattle.ps_command.specs.ReadFaults.{IsReadFault, IsTooLong};
ghost use Rattle.ps_output_files.specs.World.{Reads};
ghost use Rattle.ps_command.specs.declared.files.FileFault.TheVariants.{Memory};

use crate::error::{Cause, FileError};
use ps_arguments::{Inputs, SameFile};
use ps_output_files::CodeFiles;
use std::alloc::{AllocError, Allocator};
use std::io::Read;

/// The longest file that is read, in bytes.
pub(crate) const LONGEST: usize = 67_108_864;

/// How many bytes a read requests.
const CHUNK: usize = 16_384;

/// The most reads of a file: each that is not the last gives a byte at least.
const READS: usize = LONGEST + 1;

/// Why a file was not read whole.
#[derive(Clone, Copy)]
pub(crate) enum FileFault {
    Device(Cause),
    TooLong,
    /// It gave bytes in every read that it may take: no file is read so.
    Endless,
    Memory,
}

impl From<AllocError> for FileFault {
    ghost from_gives = { λ _ fault. fault ≡ Memory };

    fn from(_error: AllocError) -> FileFault {
        FileFault::Memory
    }
}

impl FileFault {
    /// The error of this fault, of the file at `path`.
    fn at<'a>(self, path: &'a str) -> FileError<'a>
        ensures { result ≡ read_error path.entry self }
    {
        match self {
            FileFault::Device(cause) => FileError::Read { path, cause },
            FileFault::TooLong => FileError::TooLong { path },
            FileFault::Endless => FileError::Read {
                path,
                cause: Cause::Other,
            },
            FileFault::Memory => FileError::Memory,
        }
    }
}

/// The files of a command, as what reads its arguments sees them.
#[derive(Drop)]
pub(crate) struct Paths<'r, R: CodeFiles>(pub(crate) &'r R);

impl<R: CodeFiles> SameFile for Paths<'_, R> {
    ghost one_file = { λ paths. (R.world paths.0.now).one_file };

    fn lead_to_one_file(&self, path: &str, other: &str) -> bool {
        self.0.lead_to_one_file(path, other)
    }
}

/// What the files of a host and of its libraries hold.
#[derive(Drop)]
pub(crate) struct InputBytes<A: Allocator> {
    pub(crate) host: Vec<u8, A>,
    pub(crate) libraries: Vec<Vec<u8, A>, A>,
}

/// Reads the host and then each library, in their order.
pub(crate) fn read_inputs<'a, R: CodeFiles, A: Allocator + Copy>(
    rt: &R,
    alloc: A,
    inputs: &Inputs<'a, A>,
) -> Result<InputBytes<A>, FileError<'a>>
    ensures host { IfOk result (λ contents. Reads (R.world rt.now)
        inputs.now.host.now contents.host.items) }
    ensures libraries { IfOk result (λ contents. AllZip
        (Reads (R.world rt.now))
        (map (λ path. path.now) inputs.now.libraries.items)
        (map (λ library. library.items) contents.libraries.items)) }
    ensures unread { IfErr result (λ e. e ≢ FileError.Memory → Any (IsUnreadable (R.world rt.now))
        (inputs.now.host.now ∷ map (λ path. path.now) inputs.now.libraries.items)) }
{
    let host = read_at(rt, alloc, inputs.host)?;
    let mut libraries = Vec::new(alloc);
    for path in inputs.libraries.iter() {
        libraries.push(read_at(rt, alloc, *path)?)?;
    }
    Ok(InputBytes { host, libraries })
}

/// Reads the file at `path` to its end.
pub(crate) fn read<R: CodeFiles, A: Allocator + Copy>(
    rt: &R,
    alloc: A,
    path: &str,
) -> Result<Vec<u8, A>, FileFault>
    ensures bound { IfOk result (λ bytes. length bytes.items ≤ LONGEST) }
    ensures whole { IfOk result (λ bytes. Reads (R.world rt.now) path.now
        bytes.items) }

    // No file could be opened; or one was, and a read failed, it is too long or memory ran out.
    ensures why { IfErr result (IsReadFault (R.world rt.now) path.now) }
{
    let mut file = match rt.open(path) {
        Ok(file) => file,
        Err(error) => return Err(FileFault::Device(Cause::of(error.kind()))),
    };
    let hint = R::length_hint(&file);
    read_to_end(&mut file, alloc, hint)
}

/// Reads the file at `path`; an error names the path.
pub(crate) fn read_at<'a, R: CodeFiles, A: Allocator + Copy>(
    rt: &R,
    alloc: A,
    path: &'a str,
) -> Result<Vec<u8, A>, FileError<'a>>
    ensures whole { IfOk result (λ bytes. Reads (R.world rt.now) path.entry.now
        bytes.items) }
    ensures unread { IfErr result (λ e. e ≢ FileError.Memory
        → IsUnreadable (R.world rt.now) path.entry.now) }
{
    match read(rt, alloc, path) {
        Ok(bytes) => Ok(bytes),
        Err(fault) => Err(fault.at(path)),
    }
}

/// Reads what is left, in at most `READS` reads. No read is repeated after an error. There is
/// room for `hint` bytes from the start, so that no more memory is taken where so many are left: a
/// read that finds the end takes none.
fn read_to_end<F: Read, A: Allocator + Copy>(
    file: &mut F,
    alloc: A,
    hint: usize,
) -> Result<Vec<u8, A>, FileFault>
    ensures bound { IfOk result (λ bytes. length bytes.items ≤ LONGEST) }
    ensures whole { IfOk result (λ bytes. IfSome (F.remaining file.old)
        (λ left. bytes.items ≡ left)) }
    ensures long { IfErr result (λ fault. fault ≡ FileFault.TooLong
        → IsTooLong (F.remaining file.old)) }
    ensures ended { IfErr result (λ fault. fault ≢ FileFault.Endless) }
{
    let mut all = Vec::with_capacity(alloc, hint.min(LONGEST))?;
    let mut chunk = [0u8; CHUNK];
    'read: for turn in 0..READS {
        prove!(turn <= all.len());
        let n = match file.read(&mut chunk) {
            Ok(n) => n,
            Err(error) => return Err(FileFault::Device(Cause::of(error.kind()))),
        };
        if n == 0 {
            return Ok(all);
        }
        if LONGEST - all.len() < n {
            return Err(FileFault::TooLong);
        }
        all.extend_from_slice(&chunk[..n])?;
    }
    Err(FileFault::Endless)
}
