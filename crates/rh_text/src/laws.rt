//! Laws of lines and their parts: what is written is what is read. Each function does nothing: its
//! contract is the law.

ghost use Rattle.std.specs.Prelude.{◌≡◌, ◌≢◌, ◌↔◌, ℕ, ℤ, ◌+◌, ◌<◌, ◌≤◌, true, false, List, [], ◌∷◌, ◌++◌, Some, Contains, decimal, length, slice_get};
ghost use Rattle.std.specs.Fmt.{signed_decimal};
ghost use Rattle.std.specs.List.{AllByRecursion, flat_map};
ghost use Rattle.rh_layout.specs.declared.command.RootId.{RootId};
ghost use Rattle.rh_text.specs.Number.{IsI64, IsU32, integer_of, number_of};
ghost use Rattle.rh_text.specs.Parts.{begins_with_digit, cut_at, has_dot, is_formed, one_part, parts_of, six_parts, three_parts, two_parts};
ghost use Rattle.rh_text.specs.RawLine.{RawLine, lines_of, raw_text};
ghost use Rattle.rh_text.specs.Root.{RootFits, root_of, root_text};

/// A part says a number exactly where it is the one decimal of a number that fits, and so with
/// whole numbers and roots.
pub fn parts_say_what_they_spell()
    ensures number { (part : List ℕ) (n : ℕ)
        → (number_of part ≡ Some n) ↔ ((part ≡ decimal n) × IsU32 n) }
    ensures integer { (part : List ℕ) (n : ℤ)
        → (integer_of part ≡ Some n) ↔ ((part ≡ signed_decimal n) × IsI64 n) }
    ensures root { (part : List ℕ) (r : RootId)
        → (root_of part ≡ Some r) ↔ ((part ≡ root_text r) × RootFits r) }
{}

/// A line is found to be formed exactly where all its bytes are from 32 to 126 and none of its
/// parts is empty.
pub fn formed_lines_are_well_formed()
    ensures { (line : List ℕ) → (is_formed line ≡ true)
        ↔ (AllByRecursion (λ b. (32 ≤ b) × (b ≤ 126)) line
        × AllByRecursion (λ part. part ≢ []) (parts_of line)) }
{}

/// The raw lines of a text, each with its line end where it has one, are the text. They are cut at
/// line ends alone: no raw line has a line end among its bytes, each but the last is ended, and one
/// that isn't ended has a byte.
pub fn raw_lines_make_up_the_text()
    ensures text { (bytes : List ℕ) → flat_map raw_text (lines_of bytes) ≡ bytes }
    ensures within { (bytes : List ℕ) (l : RawLine) → Contains (lines_of bytes) l
        → ¬ Contains l.bytes 10 }
    ensures ended { (bytes : List ℕ) (i : ℕ) (l : RawLine)
        → slice_get (lines_of bytes) i ≡ Some l → i + 1 < length (lines_of bytes)
        → l.ended ≡ true }
    ensures filled { (bytes : List ℕ) (l : RawLine) → Contains (lines_of bytes) l
        → l.ended ≡ false → 0 < length l.bytes }
{}

/// Just one, two, three or six parts are told in their order. A cut is at the first byte of its
/// kind. A part has a dot where a byte is 46, and begins with a digit where its first byte is 48 to
/// 57.
pub fn parts_are_told_in_order()
    ensures one { (parts : List (List ℕ)) (a : List ℕ)
        → (one_part parts ≡ Some a) ↔ (parts ≡ a ∷ []) }
    ensures two { (parts : List (List ℕ)) (a b : List ℕ)
        → (two_parts parts ≡ Some (a, b)) ↔ (parts ≡ a ∷ b ∷ []) }
    ensures three { (parts : List (List ℕ)) (a b c : List ℕ)
        → (three_parts parts ≡ Some (a, b, c)) ↔ (parts ≡ a ∷ b ∷ c ∷ []) }
    ensures six { (parts : List (List ℕ)) (a b c d e f : List ℕ)
        → (six_parts parts ≡ Some (a, b, c, d, e, f))
        ↔ (parts ≡ a ∷ b ∷ c ∷ d ∷ e ∷ f ∷ []) }
    ensures cut { (byte : ℕ) (bytes before after : List ℕ)
        → (cut_at byte bytes ≡ Some (before, after))
        ↔ ((bytes ≡ before ++ byte ∷ after) × ¬ Contains before byte) }
    ensures dot { (part : List ℕ) → (has_dot part ≡ true) ↔ Contains part 46 }
    ensures digit { (part : List ℕ) → (begins_with_digit part ≡ true)
        ↔ ((d : ℕ) × (rest : List ℕ) × (part ≡ d ∷ rest) × (48 ≤ d) × (d ≤ 57)) }
{}
