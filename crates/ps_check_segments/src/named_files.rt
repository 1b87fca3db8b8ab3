//! The files that are checked, and how they are named in a report.
ghost use Rattle.std.specs.Prelude.{◌≡◌, ◌∷◌};
ghost use Rattle.std.specs.Result.{result_ok};
ghost use Rattle.ps_codefile.specs.Dictionary.{opened_beside};
ghost use Rattle.ps_filetype.specs.TypeWords.{IsTypeOf};
ghost use Rattle.ps_resolve.specs.Sources.{contents, file_at};
ghost use Rattle.ps_check_segments.specs.Paths.{host_order, path_of};

use ps_codefile::Dict;
use ps_filetype::FileType;
use ps_words::Order;

/// The files of a check, each with its path: 0 is the host, k the k-th library.
///
/// `host` and each of `libs` are whole code files, the libraries in the order in which units are
/// looked up in them.
#[derive(Clone, Copy)]
pub struct NamedFiles<'a> {
    pub host_path: &'a str,
    pub paths: &'a [&'a str],
    pub host: &'a [u8],
    pub libs: &'a [&'a [u8]],
}

impl<'a> NamedFiles<'a> {
    /// The path of a file; none where there is no such file.
    #[tactic(auto, using(crate::proofs::Paths::path_past, crate::proofs::Paths::path_rest))]
    pub fn path(&self, file: usize) -> &'a str
        ensures { result.now
            ≡ path_of (self.now.host_path.now ∷ contents self.now.paths.now) file }
    {
        if file == 0 {
            return self.host_path;
        }
        match self.paths.get(file - 1) {
            Some(path) => *path,
            None => "",
        }
    }

    /// What a file is.
    pub fn file_type(&self, file: usize) -> FileType
        ensures { IsTypeOf (file_at self.now.host.now (contents self.now.libs.now) file) result }
    {
        FileType::of(self.bytes(file))
    }

    /// The bytes of a file; none where there is no such file.
    #[tactic(auto, using(crate::proofs::Paths::path_past, crate::proofs::Paths::path_rest))]
    pub fn bytes(&self, file: usize) -> &'a [u8]
        ensures { result.now ≡ file_at self.now.host.now (contents self.now.libs.now) file }
    {
        if file == 0 {
            return self.host;
        }
        match self.libs.get(file - 1) {
            Some(bytes) => *bytes,
            None => &[],
        }
    }

    /// The dictionary of a file, whose words are read in the host's order where it shows none;
    /// `None` where it cannot be read.
    /// Source: UCSD Pascal II.0 manual, code file format.
    pub fn dict(&self, file: usize) -> Option<Dict<'a>>
        ensures { result ≡ result_ok (opened_beside (host_order self.now.host.now)
            (file_at self.now.host.now (contents self.now.libs.now) file)) }
    {
        Dict::read_beside(self.bytes(file), self.order()).ok()
    }

    /// The byte order of the host; little-endian where it shows none.
    pub fn order(&self) -> Order
        ensures { result ≡ host_order self.now.host.now }
    {
        match Dict::read(self.host) {
            Ok(dict) => dict.order(),
            Err(_) => Order::Little,
        }
    }
}
