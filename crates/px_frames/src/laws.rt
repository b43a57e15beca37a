//! The laws of spellings.
ghost use Rattle.std.specs.Prelude.{◌≡◌, ℕ, List, ◌++◌, All, flat_map};
ghost use Rattle.px_base.specs.declared.frame.Frame.{Frame as FrameData};
ghost use Rattle.px_base.specs.Frames.{spelling};
ghost use Rattle.px_base.specs.FrameFits.{FrameFits, Spells, AreFramesOf};

/// Each frame has one spelling, and each spelling is that of one frame. No spelling begins another's, so bytes begin with
/// one list of frames alone, and every other list of frames that they begin with is the front of it.
#[tactic(auto, using(crate::proofs::Apart::one_spelling, crate::proofs::Apart::spellings_apart, crate::proofs::Apart::one_reading, crate::proofs::Apart::longest))]
pub fn spellings_are_apart()
    ensures one { (f : FrameData) (a b : List ℕ) → Spells f a → Spells f b → a ≡ b }
    ensures apart { (f g : FrameData) (xs ys : List ℕ) → FrameFits f → FrameFits g → spelling f ++ xs ≡ spelling g ++ ys → (f ≡ g) × (xs ≡ ys) }
    ensures reading { (bytes rest more : List ℕ) (fs gs : List FrameData) → AreFramesOf bytes fs rest → AreFramesOf bytes gs more → (fs ≡ gs) × (rest ≡ more) }
    ensures longest { (bytes rest more : List ℕ) (fs gs : List FrameData) → AreFramesOf bytes fs rest → All FrameFits gs → bytes ≡ flat_map spelling gs ++ more → (others : List FrameData) × (fs ≡ gs ++ others) }
{}
