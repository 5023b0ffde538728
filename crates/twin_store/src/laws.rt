//! Laws of what two files say.
ghost use Rattle.std.specs.Prelude.{◌≡◌, ◌<◌, ◌+◌, ◌/◌, ◌^◌, ℕ, List, length};
ghost use Rattle.gate_log.specs.Format.{opening_of, opened, new_file, says};
ghost use Rattle.gate_log.specs.Log.{Mark};
ghost use Rattle.gate_log.specs.Making.{IsBeingMade};
ghost use Rattle.twin_store.specs.Pairs.{store_says, in_log, is_bad, other_of, store_in};
ghost use Rattle.twin_store.specs.Stores.{IsCurrent, IsTurning};

/// Of two logs that of the greater generation speaks for both files, whatever records the other has. Two of one generation
/// are a fault of the second, where its generation stands.
pub fn greater_generation_speaks()
    ensures first { (one two : List ℕ) (a b m n : ℕ) → opening_of one ≡ opened a m → opening_of two ≡ opened b n → b < a → store_says one two ≡ in_log 0 (says one) }
    ensures second { (one two : List ℕ) (a b m n : ℕ) → opening_of one ≡ opened a m → opening_of two ≡ opened b n → a < b → store_says one two ≡ in_log 1 (says two) }
    ensures equal { (one two : List ℕ) (a m n : ℕ) → opening_of one ≡ opened a m → opening_of two ≡ opened a n → store_says one two ≡ is_bad 1 10 }
{}

/// While the other file is made the log of the next generation, and the current one stays, a pair says what it said or the
/// next store, and nothing between.
pub fn turn_says_old_or_next()
    ensures { (log : Mark) (snapshot : List ℕ) (old files : ℕ → List ℕ) → log.file < 4 → log.generation + 1 < 2 ^ 64 → length snapshot < 2 ^ 64 → IsCurrent log old → files log.file ≡ old log.file → IsBeingMade (old (other_of log.file)) (new_file (log.generation + 1) snapshot) (files (other_of log.file)) → IsTurning (store_in (log.file / 2) old) log.generation snapshot (store_in (log.file / 2) files) }
{}
