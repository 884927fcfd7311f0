//! Laws of pages.

ghost use Rattle.std.specs.Prelude.{◌≡◌, ℕ, ◌+◌, ◌<◌, ◌≤◌, false, bytes_eq, if◌then◌else◌, List, ◌++◌, length, Some, None};
ghost use Rattle.std.specs.Option.{option_map};
ghost use Rattle.bx_page.specs.Contents.{Contents, IsPage, size, value_of, first as first_of, with_value, without_key, first_half, other_half};
ghost use Rattle.bx_page.specs.Keys.{is_below, IsBelow};
ghost use Rattle.bx_page.specs.Spelling.{Spells, page_bytes};

/// What is written is a page's bytes, so that it is read again.
pub fn written_reads()
    ensures { (page : Contents) → IsPage page → Spells page (page_bytes page) }
{}

/// Bytes are one page's at most: so what is read of what was written is the page, and two pages have different bytes.
pub fn one_reading()
    ensures spelled { (a b : Contents) (bytes : List ℕ) → Spells a bytes → Spells b bytes → a ≡ b }
    ensures written { (a b : Contents) → IsPage a → IsPage b → page_bytes a ≡ page_bytes b → a ≡ b }
{}

/// A page with at least 544 bytes left takes any entry, and then any other.
pub fn room_for_two()
    ensures one { (page : Contents) (key value : List ℕ) → size page + 544 ≤ 4096 → length key + length value ≤ 268
        → size (with_value page key value) ≤ 4096 }
    ensures two { (page : Contents) (key value other another : List ℕ) → size page + 544 ≤ 4096
        → length key + length value ≤ 268 → length other + length another ≤ 268
        → size (with_value (with_value page key value) other another) ≤ 4096 }
{}

/// A page with less than 544 bytes left has at least thirteen entries, so it can be halved.
pub fn full_pages_have_entries()
    ensures { (page : Contents) → IsPage page → 4096 < size page + 544 → 13 ≤ length page.entries }
{}

/// A page is a map: a value that is put is its key's, one that is taken is gone, and those of other keys stay, as does all
/// of the page but its entries.
pub fn is_a_map()
    ensures put { (page : Contents) (key value other : List ℕ) → value_of (with_value page key value).entries other
        ≡ (if bytes_eq other key then Some value else value_of page.entries other) }
    ensures taken { (page : Contents) (key other : List ℕ) → value_of (without_key page key).entries other
        ≡ (if bytes_eq other key then None else value_of page.entries other) }
    ensures stays { (page : Contents) (key value : List ℕ) → (record (with_value page key value) { entries = page.entries } ≡ page)
        × (record (without_key page key) { entries = page.entries } ≡ page) }
{}

/// The halves of a page have its values: those of keys below the first half's high key, and those of the others.
pub fn halves_are_the_page()
    ensures first { (page : Contents) (right : ℕ) (key middle : List ℕ) → IsPage page → (first_half page right).high ≡ Some middle
        → IsBelow key middle → value_of (first_half page right).entries key ≡ value_of page.entries key }
    ensures other { (page : Contents) (right : ℕ) (key middle : List ℕ) → IsPage page → (first_half page right).high ≡ Some middle
        → is_below key middle ≡ false → value_of (other_half page).entries key ≡ value_of page.entries key }
{}

/// The halves of a page have its entries, as many each, or the other half one more. The first half leads to where it is
/// told to, and ends where the other begins, which leads and ends as the page did. Both are of the page's level.
pub fn halves_are_linked()
    ensures entries { (page : Contents) (right : ℕ) → (first_half page right).entries ++ (other_half page).entries ≡ page.entries }
    ensures shared { (page : Contents) (right : ℕ) → let kept = length (first_half page right).entries in
        let given = length (other_half page).entries in (kept ≤ given) × (given ≤ kept + 1) }
    ensures right { (page : Contents) (right : ℕ) → ((first_half page right).right ≡ right) × ((other_half page).right ≡ page.right) }
    ensures high { (page : Contents) (right : ℕ) → ((first_half page right).high
        ≡ option_map (λ entry. entry.key) (first_of (other_half page).entries)) × ((other_half page).high ≡ page.high) }
    ensures level { (page : Contents) (right : ℕ) → ((first_half page right).level ≡ page.level) × ((other_half page).level ≡ page.level) }
{}
