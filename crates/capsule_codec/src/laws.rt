//! Laws of images and of their pieces. Each is the contract of a call that does nothing.

ghost use Rattle.std.specs.Prelude.{◌≡◌, ℕ, ◌<◌, ◌≤◌, List, length, Ok};
ghost use Rattle.std.specs.List.{concat};
ghost use Rattle.mate_num.specs.declared.bounds.TheConstants.{FRAGMENTS_MAX, SHORT_IMAGE};
ghost use Rattle.hex.specs.Hex.{IsBytes};
ghost use Rattle.vm_shape.specs.declared.description.Description.{Description};
ghost use Rattle.capsule_codec.specs.Image.{CapsuleParts, capsule_image, IsCapsule, IsOfMachine};
ghost use Rattle.capsule_codec.specs.Reading.{capsule_in};
ghost use Rattle.capsule_codec.specs.declared.fragments.TheConstants.{PIECE_MAX, SHORT_PIECE};
ghost use Rattle.capsule_codec.specs.Fragments.{piece_len, pieces_of, AreCut};

/// A machine reads the image of one of its capsules as that capsule; and bytes that it reads as a capsule are this
/// capsule's one image.
pub fn one_image()
    ensures again { (d : Description) (c : CapsuleParts) → IsCapsule c → IsOfMachine d c → capsule_in d (capsule_image c) ≡ Ok c }
    ensures only { (d : Description) (bytes : List ℕ) (c : CapsuleParts) → IsBytes bytes → capsule_in d bytes ≡ Ok c
        → (bytes ≡ capsule_image c) × IsCapsule c × IsOfMachine d c }
{}

/// The pieces of an image, put together in order, are the image. So a list of pieces belongs to one image at most;
/// and a list of pieces of the right lengths belongs to the image that they make.
pub fn pieces_make_the_image()
    ensures whole { (image : List ℕ) → concat (pieces_of image) ≡ image }
    ensures cut { (image : List ℕ) → AreCut (piece_len (length image)) (pieces_of image) }
    ensures one { (a b : List ℕ) → pieces_of a ≡ pieces_of b → a ≡ b }
    ensures short { (pieces : List (List ℕ)) → AreCut SHORT_PIECE pieces → length pieces ≤ FRAGMENTS_MAX
        → pieces_of (concat pieces) ≡ pieces }
    ensures long { (pieces : List (List ℕ)) → AreCut PIECE_MAX pieces → SHORT_IMAGE < length (concat pieces)
        → pieces_of (concat pieces) ≡ pieces }
{}
