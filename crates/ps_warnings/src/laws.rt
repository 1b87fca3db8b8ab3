//! Laws of the warnings: what their definitions compute is what the pages say. Functions that do
//! nothing, whose clauses are the laws.
ghost use Rattle.std.specs.Prelude.{◌≡◌, ◌↔◌, ◌*◌, ◌<◌, ◌∷◌, [], ℕ, Bool, List, None, Some, false, length, true};
ghost use Rattle.ps_words.specs.declared.order.Order.{Order as ByteOrder};
ghost use Rattle.ps_check_segments.specs.Paths.{path_of};
ghost use Rattle.ps_check_segments.specs.Seen.{Seen};
ghost use Rattle.ps_check_segments.specs.SeenSegments.{seen_segments};
ghost use Rattle.ps_check_segments.specs.SegmentParts.{is_added};
ghost use Rattle.ps_check_segments.specs.declared.segments.SegmentPart.{SegmentPart as Part};
ghost use Rattle.ps_check_segments.specs.declared.segments.SegmentPart.TheVariants as part;
ghost use Rattle.ps_codefile.specs.declared.entry.Entry.{Entry as EntryOf};
ghost use Rattle.ps_filetype.specs.CodeTypes.{is_code_type};
ghost use Rattle.ps_filetype.specs.Names.{is_respelled};
ghost use Rattle.ps_linkinfo.specs.Numbered.{numbered_records};
ghost use Rattle.ps_linkinfo.specs.declared.record.LinkRecord.{LinkRecord as Record};
ghost use Rattle.ps_warnings.specs.Searches.AllFindings.{link_findings_of};
ghost use Rattle.ps_warnings.specs.Searches.EntryFindings.{empty_slot, overlap, shares};
ghost use Rattle.ps_warnings.specs.Searches.FileFindings.{extent};
ghost use Rattle.ps_warnings.specs.Found.{Stated, is_warning, warnings_among};
ghost use Rattle.ps_warnings.specs.Searches.LinkFindings.{other_spelling, taken_slot};
ghost use Rattle.ps_warnings.specs.Searches.RecordFindings.{end_mark, first_above, first_definition, first_past, first_public, low_mark};
ghost use Rattle.ps_warnings.specs.SmallEntries.{blank, empty_entry, other_util, segment_of, small_util, util, zero_util};
ghost use Rattle.ps_warnings.specs.SmallFiles.{demo, low_host, pair_until, small_host, small_library};
ghost use Rattle.ps_warnings.specs.SmallRecords.{count, cut_after, defining, defining_none, having, no_records, owning, referring, with_operand};
ghost use Rattle.ps_warnings.specs.Warned.{IsEndMark, IsFoundUpTo, IsHigh, IsOwnDefinition, IsPast, IsPastMark, IsRespelled, ShareByte, names_segment};
ghost use Rattle.ps_warnings.specs.WarnedFiles.{AreSaid, IsSo};
ghost use Rattle.ps_warnings.specs.declared.finding.EntryFinding.TheVariants as entry;
ghost use Rattle.ps_warnings.specs.declared.finding.Finding.{Finding as FindingOf};
ghost use Rattle.ps_warnings.specs.declared.finding.Finding.TheVariants as which;
ghost use Rattle.ps_warnings.specs.declared.finding.LinkFinding.TheVariants as link;
ghost use Rattle.ps_warnings.specs.declared.finding.RecordFinding.TheVariants as finding;
ghost use Rattle.ps_warnings.specs.declared.findings.extents.Extent.{Extent as Bytes};

/// An end mark is compared with exactly where the records have one, and it is the first of them.
pub fn end_marks_are_read()
    ensures { (rs : List Record) (next : ℕ) → (end_mark rs ≡ Some next) ↔ IsEndMark rs next }
{}

/// An end mark is told of exactly where the records have it and two times its value is below the data
/// size: where no end mark is read nothing is said of it.
pub fn low_marks_are_told()
    ensures found { (rs : List Record) (size : ℕ) (f : FindingOf)
        → low_mark (end_mark rs) (Some size) ≡ Some f
        → (next : ℕ) × (f ≡ which.Record (finding.LowMark next size)) × IsEndMark rs next
        × (2 * next < size) }
    ensures each { (rs : List Record) (size next : ℕ) → IsEndMark rs next → 2 * next < size
        → low_mark (end_mark rs) (Some size) ≡ Some (which.Record (finding.LowMark next size)) }
{}

/// A definition is told of exactly where a record defines a variable above the end mark: what is told
/// is one, and one is told where there is one.
pub fn high_definitions_are_told()
    ensures found { (rs : List Record) (i : ℕ) (f : FindingOf) → first_above rs ≡ Some (i, f)
        → (next : ℕ) × (value : ℕ) × (name : List ℕ)
        × (f ≡ which.Record (finding.HighDefinition name value next)) × IsEndMark rs next
        × IsHigh rs i name value next }
    ensures each { (rs : List Record) (i : ℕ) (name : List ℕ) (value next : ℕ)
        → IsEndMark rs next → IsHigh rs i name value next → IsFoundUpTo (first_above rs) i }
{}

/// An operand of a private variable is told of exactly where one is outside its variable.
pub fn past_privates_are_told()
    ensures found { (code : List ℕ) (rs : List Record) (i : ℕ) (f : FindingOf)
        → first_past code (numbered_records 0 rs) ≡ Some (i, f)
        → (place : ℕ) × (displacement : ℕ) × (words : ℕ) × (f ≡ which.Record (finding.PastPrivate place displacement words))
        × IsPast code rs i place displacement words }
    ensures each { (code : List ℕ) (rs : List Record) (i place displacement words : ℕ)
        → IsPast code rs i place displacement words
        → IsFoundUpTo (first_past code (numbered_records 0 rs)) i }
{}

/// An operand of a public variable is told of exactly where one leads to the end mark of the host or
/// past it.
pub fn past_publics_are_told()
    ensures found { (code : List ℕ) (host rs : List Record) (i : ℕ) (f : FindingOf)
        → first_public code (Some host) (numbered_records 0 rs) ≡ Some (i, f)
        → (place : ℕ) × (name : List ℕ) × (displacement : ℕ) × (value : ℕ) × (next : ℕ) × (f ≡ which.Record (finding.PastPublic place name displacement value next))
        × IsPastMark code host rs i place name displacement value next }
    ensures each { (code : List ℕ) (host rs : List Record) (i place : ℕ) (name : List ℕ)
        (displacement value next : ℕ)
        → IsPastMark code host rs i place name displacement value next
        → IsFoundUpTo (first_public code (Some host) (numbered_records 0 rs)) i }
{}

/// A unit's own definition is told of exactly where the unit refers to the name and the host, whose end
/// mark is read, does not define it.
pub fn own_definitions_are_told()
    ensures found { (host rs : List Record) (i : ℕ) (f : FindingOf)
        → first_definition true rs (Some host) (numbered_records 0 rs) ≡ Some (i, f)
        → (name : List ℕ) × (f ≡ which.Record (finding.OwnDefinition name))
        × IsOwnDefinition host rs i name }
    ensures each { (host rs : List Record) (i : ℕ) (name : List ℕ) → IsOwnDefinition host rs i name
        → IsFoundUpTo (first_definition true rs (Some host) (numbered_records 0 rs)) i }
{}

/// Two entries that have bytes overlap exactly where they have a byte in common.
pub fn overlaps_are_told()
    ensures found { (e o : Bytes) → o.start < o.end → e.start < e.end → shares e o ≡ true
        → (o.slot < e.slot) × ShareByte e o }
    ensures each { (e o : Bytes) → o.slot < e.slot → ShareByte e o → shares e o ≡ true }
{}

/// An empty slot that no unit takes, and one that an added unit takes, is told of exactly where its entry
/// has a name or a kind that a compiler does not leave there.
pub fn named_slots_are_told()
    ensures empty { (slot : ℕ) (taken : Bool) (e : EntryOf) (f : FindingOf)
        → empty_slot slot taken e ≡ Some f
        → (f ≡ which.Entry (entry.EmptySlot slot e.name e.kind)) × (taken ≡ false)
        × (names_segment e ≡ true) }
    ensures each_empty { (slot : ℕ) (taken : Bool) (e : EntryOf) → taken ≡ false
        → names_segment e ≡ true → empty_slot slot taken e ≡ Some (which.Entry (entry.EmptySlot slot e.name e.kind)) }
    ensures taken { (slot : ℕ) (what : Part) (e : EntryOf) (f : FindingOf)
        → taken_slot slot what e ≡ Some f
        → (f ≡ which.Link (link.TakenSlot slot e.name)) × (is_added what ≡ true)
        × (names_segment e ≡ true) }
    ensures each_taken { (slot : ℕ) (what : Part) (e : EntryOf) → is_added what ≡ true
        → names_segment e ≡ true → taken_slot slot what e ≡ Some (which.Link (link.TakenSlot slot e.name)) }
{}

/// Two names are nearly the same exactly where they differ in capitals A to Z or in padding alone.
pub fn near_names_are_told()
    ensures { (a b : List ℕ) → (is_respelled a b ≡ true) ↔ IsRespelled a b }
{}

/// Of findings that are said there is a warning among them exactly where something is so that a warning
/// says.
pub fn warnings_are_of_things()
    ensures { (paths : List (List ℕ)) (host : List ℕ) (libs : List (List ℕ)) (list : List Seen)
        (found : List Stated) → AreSaid paths host libs list found
        → (0 < length (warnings_among found)) ↔ ((thing : Stated) × (is_warning thing ≡ true)
        × IsSo paths host libs list thing thing.finding) }
{}

/// Each warning of records is found on small files, and not found on files beside them.
pub fn each_warning_is_found_once()
    ensures high { first_above (defining 9 8)
        ≡ Some (0, which.Record (finding.HighDefinition count 9 8)) }
    ensures not_high { first_above (defining 8 8) ≡ None }
    ensures high_unread { first_above (cut_after 9) ≡ None }
    ensures low { low_mark (end_mark (defining 3 5)) (Some 11)
        ≡ Some (which.Record (finding.LowMark 5 11)) }
    ensures not_low { low_mark (end_mark (defining 3 5)) (Some 10) ≡ None }
    ensures low_unread { low_mark (end_mark (cut_after 3)) (Some 10) ≡ None }
    ensures past { first_past (with_operand 4) (numbered_records 0 (having 4))
        ≡ Some (0, which.Record (finding.PastPrivate 1 4 4)) }
    ensures not_past { first_past (with_operand 3) (numbered_records 0 (having 4)) ≡ None }
    ensures no_words { first_past (with_operand 0) (numbered_records 0 (having 0)) ≡ None }
    ensures public { first_public (with_operand 5) (Some (defining 3 8))
        (numbered_records 0 referring)
        ≡ Some (0, which.Record (finding.PastPublic 1 count 5 3 8)) }
    ensures not_public { first_public (with_operand 4) (Some (defining 3 8))
        (numbered_records 0 referring) ≡ None }
    ensures at_mark { first_public (with_operand 0) (Some (defining 8 8))
        (numbered_records 0 referring) ≡ None }
    ensures public_unread { first_public (with_operand 5) (Some (cut_after 3))
        (numbered_records 0 referring) ≡ None }
    ensures own { first_definition true owning (Some (defining_none 8))
        (numbered_records 0 owning) ≡ Some (0, which.Record (finding.OwnDefinition count)) }
    ensures not_own { first_definition true owning (Some (defining 3 8))
        (numbered_records 0 owning) ≡ None }
    ensures own_unread { first_definition true owning (Some no_records)
        (numbered_records 0 owning) ≡ None }
{}

/// Each warning of entries and of units is found on small ones, and not found on those beside them.
#[tactic(auto, unfolding(ps_filetype::specs::Names::is_respelled))]
pub fn each_warning_of_slots_is_found_once()
    ensures named { empty_slot 8 false (empty_entry util 0)
        ≡ Some (which.Entry (entry.EmptySlot 8 util 0)) }
    ensures of_kind { empty_slot 8 false (empty_entry blank 1)
        ≡ Some (which.Entry (entry.EmptySlot 8 blank 1)) }
    ensures not_named { empty_slot 8 false (empty_entry blank 3) ≡ None }
    ensures not_free { empty_slot 8 true (empty_entry util 0) ≡ None }
    ensures shared { overlap (extent 1 512 1024 ∷ extent 2 1023 1042 ∷ []) (extent 2 1023 1042)
        ≡ Some (which.Entry (entry.Overlap 1)) }
    ensures shared_later { overlap (extent 1 512 1024 ∷ extent 2 1023 1042 ∷ [])
        (extent 1 512 1024) ≡ None }
    ensures not_shared { overlap (extent 1 512 1024 ∷ extent 2 1024 1042 ∷ [])
        (extent 2 1024 1042) ≡ None }
    ensures taken { taken_slot 8 (part.Added util 0) (empty_entry util 0)
        ≡ Some (which.Link (link.TakenSlot 8 util)) }
    ensures not_taken { taken_slot 8 (part.Added util 0) (empty_entry blank 3) ≡ None }
    ensures not_added { taken_slot 8 part.Wanted (empty_entry util 0) ≡ None }
    ensures spelled { other_spelling (segment_of util part.Unit ∷ [])
        (segment_of small_util part.Wanted) ≡ Some (which.Link (link.OtherSpelling util)) }
    ensures padded { other_spelling (segment_of util part.Unit ∷ [])
        (segment_of zero_util part.Wanted) ≡ Some (which.Link (link.OtherSpelling util)) }
    ensures not_spelled { other_spelling (segment_of util part.Unit ∷ [])
        (segment_of util part.Wanted) ≡ None }
    ensures not_near { other_spelling (segment_of util part.Unit ∷ [])
        (segment_of other_util part.Wanted) ≡ None }
    ensures no_unit { other_spelling (segment_of util part.Plain ∷ [])
        (segment_of small_util part.Wanted) ≡ None }
{}

/// Nothing is found about the link of a small host and a library, in either byte order and whatever
/// their paths are. Both files are looked at, and both segments are seen. Where the end mark of the
/// host is low, that alone is found.
pub fn nothing_is_found_in_good_files()
    ensures host { (order : ByteOrder) → is_code_type (small_host order) ≡ true }
    ensures library { (order : ByteOrder) → is_code_type (small_library order) ≡ true }
    ensures segments { (order : ByteOrder)
        → seen_segments (small_host order) (small_library order ∷ []) ≡ pair_until 8 }
    ensures nothing { (order : ByteOrder) (paths : List (List ℕ))
        → link_findings_of paths (small_host order) (small_library order ∷ [])
        (seen_segments (small_host order) (small_library order ∷ [])) ≡ [] }
    ensures low { (order : ByteOrder) (paths : List (List ℕ))
        → link_findings_of paths (low_host order) (small_library order ∷ [])
        (seen_segments (low_host order) (small_library order ∷ []))
        ≡ record {
          path = path_of paths 0;
          segment = Some demo;
          rec = None;
          finding = which.Record (finding.LowMark 4 10);
        } ∷ [] }
{}
