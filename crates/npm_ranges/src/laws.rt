// What follows from the definitions alone, each as the contract of a function with nothing to do.
ghost use Rattle.std.specs.Prelude.{◌≡◌, ◌↔◌, ◌++◌, [], ℕ, List, codes};
ghost use Rattle.std.specs.Cmp.{IsTotalOrder};
ghost use Rattle.std.specs.declared.cmp.Ordering.TheVariants.{Equal};
ghost use Rattle.npm_ranges.specs.Laws.{HasVersionBytes, IsBetween, IsPlain, IsWithin, SpelledIsRead, caret_end, tilde_end};
ghost use Rattle.npm_ranges.specs.Ranges.{IsRange, IsInRange};
ghost use Rattle.npm_ranges.specs.Versions.{IsVersion, parts_in, precedence, version_order};

/// The order of versions is total, two versions that tie are the same text, and a version's text has no slash.
pub fn order_of_versions()
    ensures total { IsTotalOrder version_order }
    ensures bytes { HasVersionBytes }
    ensures tells_apart { (a b : List ℕ) → IsVersion a → IsVersion b → version_order a b ≡ Equal → a ≡ b }
{}

/// No range holds a version and refuses one of equal precedence, so build text has no effect.
pub fn build_text_has_no_effect()
    ensures { (range version other : List ℕ) → precedence (parts_in version) (parts_in other) ≡ Equal → IsInRange version range → IsInRange other range }
{}

/// The empty range holds exactly the versions without a pre-release.
pub fn empty_range_holds_plain_versions()
    ensures { (version : List ℕ) → IsInRange version [] ↔ ((parts_in version).3 ≡ []) }
{}

/// `>=a <b`, for versions a and b without a pre-release, holds exactly what lies between them and has none.
pub fn two_bounds_hold_what_lies_between()
    ensures { (a b version : List ℕ) → IsPlain a → IsPlain b → IsInRange version (codes ">=" ++ a ++ codes " <" ++ b) ↔ IsBetween version a b }
{}

/// `^a` and `~a`, for a version a without a pre-release, hold exactly the versions without one from a up to an end: for
/// `^` where the leftmost number that is not 0 is one more, for `~` where the minor number is.
pub fn caret_and_tilde_hold_intervals()
    ensures caret { (a version : List ℕ) → IsPlain a → IsInRange version (codes "^" ++ a) ↔ IsWithin (parts_in version) (parts_in a) (caret_end (parts_in a)) }
    ensures tilde { (a version : List ℕ) → IsPlain a → IsInRange version (codes "~" ++ a) ↔ IsWithin (parts_in version) (parts_in a) (tilde_end (parts_in a)) }
{}

/// A text that is spelled as comparators are, sign, blanks and partial with blanks between, reads as these, and `*` is a
/// range.
pub fn spelled_comparators_are_read()
    ensures spelled { SpelledIsRead }
    ensures any { IsRange (codes "*") }
{}
