//! Laws of words, operands and edits: each function is a theorem, its contract the statement.

ghost use Rattle.std.specs.Prelude.{◌≡◌, ◌<◌, ◌≤◌, ◌-◌, ◌*◌, ℕ, List, [], ◌∷◌, All, Contains, IsPermutation, IsTrue, slice_index};
ghost use Rattle.ps_words.specs.Edits.{AreApart, covers, patched_byte, place_of, stored_bytes};
ghost use Rattle.ps_words.specs.Words.{blocks, displacement_at, operand_bytes, word, word_at, word_bytes};
ghost use Rattle.ps_words.specs.declared.edit.Edit.{Edit as AnEdit};
ghost use Rattle.ps_words.specs.declared.order.Order.{Order as AnOrder};
ghost use Rattle.ps_words.specs.declared.words.TheConstants.{MAX_OPERAND, MAX_WORD};

/// A law: the two bytes of a word, 0 to `MAX_WORD`, are read back as that word, in either byte order,
/// and two bytes are those of the word that they are read as.
/// Source: UCSD Pascal II.0 manual, code file format.
pub fn words_read_back()
    ensures word { (order : AnOrder) (v : ℕ) → v ≤ MAX_WORD
        → word_at order (word_bytes order v) 0 ≡ v }
    ensures bytes { (order : AnOrder) (a b : ℕ) → a < 256 → b < 256
        → word_bytes order (word order a b) ≡ a ∷ b ∷ [] }
{}

/// A law: the two bytes of a BIG operand are read back as its displacement, 0 to
/// `MAX_OPERAND`.
/// Source: UCSD Pascal II.0 manual, code file format.
pub fn operands_read_back()
    ensures { (v : ℕ) → v ≤ MAX_OPERAND → displacement_at (operand_bytes v) 0 ≡ v }
{}

/// A law: edits that are apart patch a code alike in whatever order they are listed.
pub fn edits_patch_alike_in_any_order()
    ensures { (order : AnOrder) (code : List ℕ) (edits listed : List AnEdit) (p : ℕ)
        → AreApart 0 edits → IsPermutation edits listed
        → patched_byte order code edits p ≡ patched_byte order code listed p }
{}

/// A law: of edits that are apart, each stores its bytes at the places that it covers.
pub fn edits_store_where_they_cover()
    ensures { (order : AnOrder) (code : List ℕ) (edits : List AnEdit) (edit : AnEdit) (p : ℕ)
        → AreApart 0 edits → Contains edits edit → IsTrue (covers p edit)
        → patched_byte order code edits p ≡ slice_index (stored_bytes order edit) (p - place_of edit) }
{}

/// A law: a place that no edit covers keeps its byte.
pub fn edits_keep_what_they_do_not_cover()
    ensures { (order : AnOrder) (code : List ℕ) (edits : List AnEdit) (p : ℕ)
        → All (λ edit. ¬ IsTrue (covers p edit)) edits
        → patched_byte order code edits p ≡ slice_index code p }
{}

/// A law: the blocks of n bytes hold them, and fewer blocks do not.
/// Source: UCSD Pascal II.0 manual, code file format.
pub fn blocks_hold_the_bytes()
    ensures enough { (n : ℕ) → n ≤ 512 * blocks n }
    ensures fewest { (n count : ℕ) → n ≤ 512 * count → blocks n ≤ count }
{}
