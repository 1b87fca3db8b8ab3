ghost use Rattle.std.specs.Prelude.{◌≡◌, ◌++◌, List, ℕ};
ghost use Rattle.ps_resolve.specs.Standing.{IsFirst};
ghost use Rattle.ps_words.specs.declared.fault.Fault.{Fault};
ghost use Rattle.ps_words.specs.declared.order.Order.{Order};
ghost use Rattle.ps_linkinfo.specs.Records.{reading, Spells};
ghost use Rattle.ps_linkinfo.specs.declared.record.LinkRecord.{LinkRecord};
ghost use Rattle.ps_linkfile.specs.LinkedFile.{LinkedFile};
ghost use Rattle.ps_rebuild_laws.specs.Alike.{AreFilesAlike};

use crate::same_segments::link_is_its_segments;
use ps_laws::first_of_all;
use ps_linkinfo::one_reading;

/// What is not read does not matter. Two hosts, and their libraries one by one, that are read alike
/// link to the same bytes, or have the same first fault. Files that are read alike are both opened, or
/// refused for the same reason. Hosts are read alike if the byte order, the names and the roles of
/// their slots, the codes and records of the segments in place, and the bytes after the text
/// addresses are the same. Libraries are read alike if the names and kinds of their filled slots,
/// and the codes and records of their units are. Addresses, the text of an interface, and blocks
/// that no entry has may differ. So may what follows an end mark: the records are the same with
/// anything behind it.
pub fn what_is_not_read()
    ensures linked { (host other : List ℕ) (libs others : List (List ℕ)) (file : List ℕ)
        → AreFilesAlike host other libs others
        → LinkedFile host libs file → LinkedFile other others file }
    ensures refused { (host other : List ℕ) (libs others : List (List ℕ)) (f : Fault)
        → AreFilesAlike host other libs others
        → IsFirst host libs f → IsFirst other others f }
    ensures after_end_mark { (order : Order) (read rest more : List ℕ) (rs : List LinkRecord)
        → Spells order read rs → reading order (read ++ rest) ≡ reading order (read ++ more) }
{
    first_of_all();
    link_is_its_segments();
    one_reading();
}
