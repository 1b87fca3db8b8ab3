//! Laws of link information, of all bytes: functions that do nothing, whose clauses are the laws. A
//! caller that needs them calls the function.
ghost use Rattle.std.specs.Prelude.{◌≡◌, ◌≤◌, ◌/◌, ◌↔◌, ◌++◌, ◌∷◌, [], ℕ, List, All, length};
ghost use Rattle.ps_words.specs.declared.order.Order.{Order as ByteOrder};
ghost use Rattle.ps_words.specs.declared.fault.Reason.{Reason as FaultReason};
ghost use Rattle.ps_linkinfo.specs.declared.record.LinkRecord.{LinkRecord as Record};
ghost use Rattle.ps_linkinfo.specs.Records.{Spells, Stops, reading};
ghost use Rattle.ps_linkinfo.specs.Walk.{Walk, Advances, HasGiven, whole_walk, left_of};
ghost use Rattle.ps_linkinfo.specs.Left.{items_of, items_left, records_left, fault_left};

/// Bytes spell one list of records at most, and none where a fault stops their reading; and
/// `reading` computes which of the two it is.
pub fn one_reading()
    ensures one { (order : ByteOrder) (bytes : List ℕ) (rs others : List Record)
        → Spells order bytes rs → Spells order bytes others → others ≡ rs }
    ensures never_both { (order : ByteOrder) (bytes : List ℕ) (rs before : List Record)
        (why : FaultReason)
        → Spells order bytes rs → Stops order bytes before why → ⊥ }
    ensures spells { (order : ByteOrder) (bytes : List ℕ) (rs : List Record)
        → Spells order bytes rs ↔ (reading order bytes ≡ (rs, None)) }
    ensures stops { (order : ByteOrder) (bytes : List ℕ) (rs : List Record) (why : FaultReason)
        → Stops order bytes rs why ↔ (reading order bytes ≡ (rs, Some why)) }
{}

/// The name of each record that is read has eight bytes.
pub fn names_are_whole()
    ensures { (order : ByteOrder) (bytes : List ℕ)
        → All (λ r. length r.name ≡ 8) (reading order bytes).0 }
{}

/// A walk from the start has all items of the reading to give: its records, then its fault, if any.
/// A walk has one item at most for each 16 bytes, and one for a fault.
pub fn walk_from_start()
    ensures items { (order : ByteOrder) (bytes : List ℕ)
        → items_left (whole_walk order bytes) ≡ items_of (reading order bytes) }
    ensures records { (order : ByteOrder) (bytes : List ℕ)
        → records_left (whole_walk order bytes) ≡ (reading order bytes).0 }
    ensures fault { (order : ByteOrder) (bytes : List ℕ)
        → fault_left (whole_walk order bytes) ≡ (reading order bytes).1 }
    ensures few_records { (order : ByteOrder) (bytes : List ℕ)
        → length (reading order bytes).0 ≤ length bytes / 16 }
    ensures few_items { (walk : Walk) → length (items_left walk) ≤ left_of walk }
{}

/// The records that a walk has given are those whose spellings, one after another, are the first
/// `used` of its bytes.
pub fn walk_so_far()
    ensures start { (order : ByteOrder) (bytes : List ℕ) → HasGiven (whole_walk order bytes) [] }
    ensures more { (old new : Walk) (rs : List Record) (r : Record)
        → HasGiven old rs → Advances old (Some (Ok r)) new → HasGiven new (rs ++ r ∷ []) }
    ensures fault { (old new : Walk) (rs : List Record) (why : FaultReason)
        → HasGiven old rs → Advances old (Some (Err why)) new → HasGiven new rs }
    ensures one { (walk : Walk) (rs others : List Record) → HasGiven walk rs → HasGiven walk others
        → others ≡ rs }
{}
