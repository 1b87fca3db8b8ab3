ghost use Rattle.std.specs.Prelude.{List, ℕ};
ghost use Rattle.ps_resolve.specs.LinkedBytes.{HaveApartPlaces, HaveLinkedBytes, HaveOneLinkedByte, HaveSummedOffsets};
ghost use Rattle.ps_resolve.specs.Standing.{NoneStands};

use ps_linkinfo::one_reading;

/// Where no fault applies, each byte that the edits of a link make is the linked byte, as this is
/// said plainly: the number of the slot, the data size of the host's outer block, what a reference
/// becomes, or else the input's byte. There is one linked byte at each place, and no place of a
/// segment is covered twice, by two references or by a reference and the number or the data size.
pub fn bytes_are_linked()
    ensures made { (host : List ℕ) (libs : List (List ℕ)) → NoneStands host libs
        → HaveLinkedBytes host libs }
    ensures one { (host : List ℕ) (libs : List (List ℕ)) → NoneStands host libs
        → HaveOneLinkedByte host libs }
    ensures apart { (host : List ℕ) (libs : List (List ℕ)) → NoneStands host libs
        → HaveApartPlaces host libs }
{
    one_reading();
}

/// The offset that runs along with the records of a link is, at each record, the base offset of the
/// host's end mark and the words of all privates before it, by slot and then by record.
pub fn offsets_are_sums()
    ensures { (host : List ℕ) (libs : List (List ℕ)) → HaveSummedOffsets host libs }
{}
