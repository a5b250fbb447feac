//! Laws of what is collected and asked for. Each is the contract of a function that does nothing.

ghost use Rattle.std.specs.Prelude.{◌≡◌, ◌↔◌, ℕ, ◌<◌, ◌≤◌, List, Option, None, Some, length, slice_index_or, is_none, IsTrue};
ghost use Rattle.std.specs.Int.{bit_at};
ghost use Rattle.arrayvec.specs.ArrayVec.{ArrayVec};
ghost use Rattle.capsule_exchange.specs.Happenings.{Happening, heard_since, target_version, collected_image, gaps, mask_of};
ghost use Rattle.capsule_exchange.specs.Laws.{IsPutTogether, AreFragmentsOf};

/// A complete image is made of the fragments of one version of its handler, of one count and one kind, all of them
/// received since the handler's last install or forgetting. If all fragments of this version that were received since
/// then are of one image, it is that image.
pub fn fragments_go_together()
    ensures together { (h : ℕ) (hs : List Happening) (image : ArrayVec ℕ) → collected_image h hs ≡ Some image
        → IsPutTogether h hs image.items }
    ensures image { (h : ℕ) (hs : List Happening) (image : List ℕ) (made : ArrayVec ℕ)
        → AreFragmentsOf h (target_version h hs) image (heard_since h hs)
        → collected_image h hs ≡ Some made → made.items ≡ image }
{}

/// The mask of a request has exactly the bits of the places that are empty: what is asked for is what is missing.
pub fn gaps_are_asked_for()
    ensures empty { (places : List (Option (ArrayVec ℕ))) (i : ℕ) → i < length places
        → (bit_at (mask_of (gaps places)) i ≡ 1) ↔ IsTrue (is_none (slice_index_or places i None)) }
    ensures beyond { (places : List (Option (ArrayVec ℕ))) (i : ℕ) → length places ≤ i → bit_at (mask_of (gaps places)) i ≡ 0 }
{}
