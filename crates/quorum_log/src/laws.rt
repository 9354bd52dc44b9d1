//! Laws of the definitions, each the contract of a function that does nothing.
ghost use Rattle.std.specs.Prelude.{◌≡◌, ◌≤◌, ◌⊎◌, List, ℕ};
ghost use Rattle.quorum_log.specs.declared.found.Found.{Found};
ghost use Rattle.quorum_log.specs.Checks.{IsBadImage};
ghost use Rattle.quorum_log.specs.Image.{Holds};
ghost use Rattle.quorum_log.specs.Layout.{image_size, most_record};
ghost use Rattle.quorum_log.specs.Logs.{LogValue, Fits, begun};

/// An image holds one log at most.
pub fn held_log_is_one()
    ensures { (image : List ℕ) (x y : Found) → Holds image x → Holds image y → x ≡ y }
{}

/// The checks of an image fail at one place at most.
pub fn image_has_one_fault()
    ensures { (image : List ℕ) (size a b : ℕ) → IsBadImage image size a → IsBadImage image size b → a ≡ b }
{}

/// An image that holds a log, on a disk that is large enough, fails none of its checks.
pub fn held_log_is_good()
    ensures { (image : List ℕ) (size place : ℕ) (x : Found) → Holds image x → image_size x.cap ≤ size → IsBadImage image size place → ⊥ }
{}

/// A record fits behind a checkpoint.
pub fn record_fits_after_checkpoint()
    ensures { (log : LogValue) (state last count : ℕ) → (log.half ≡ 0) ⊎ (log.half ≡ 1) → state ≤ log.cap → last ≤ most_record → count ≤ most_record
        → Fits (begun log state last) count }
{}
