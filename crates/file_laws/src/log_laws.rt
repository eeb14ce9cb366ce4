//! Laws of logs.

ghost use Rattle.std.specs.Prelude.{◌≡◌, ◌≢◌, ◌⊎◌, ◌<◌, ◌≤◌, ◌++◌, ◌∷◌, [], ℕ, List, Ok, Err, Result, length, replicate};
ghost use Rattle.std.specs.List.{All};
ghost use Rattle.file_laws.specs.Files.{AreBodies};
ghost use Rattle.file_laws.specs.declared.log_fault.LogFault.{LogFault};
ghost use Rattle.file_laws.specs.declared.log_fault.LogFault.TheVariants.{Broken};
ghost use Rattle.file_laws.specs.Digests.{Collide};
ghost use Rattle.file_laws.specs.LogReading.{AreEntries, IsReading};
ghost use Rattle.file_laws.specs.Texts.{entry_text, last_digest, log_text};

/// The log of some entries is read as these entries, with nothing behind them.
pub fn a_log_is_read_as_its_entries()
    ensures { (book : List ℕ) (entries : List (List (List ℕ))) → AreEntries entries → IsReading book (log_text book entries) (Ok (entries, [])) }
{}

/// Bytes are read in one way alone: as the same entries with the same tail, or with the same fault.
pub fn a_reading_is_the_only_one()
    ensures { (book bytes : List ℕ) (reading other : Result (List (List (List ℕ)) × List ℕ) LogFault) → length book ≡ 32
        → IsReading book bytes reading → IsReading book bytes other → reading ≡ other }
{}

/// Whatever bytes a file has, they are read: as entries and a torn tail, or with a fault.
pub fn every_file_has_a_reading()
    ensures { (book bytes : List ℕ) → length book ≡ 32 → All (λ byte. byte < 256) bytes
        → (reading : Result (List (List (List ℕ)) × List ℕ) LogFault) × IsReading book bytes reading }
{}

/// Whatever stands behind the log of some entries, reading gives at least these entries, first and unchanged: what is read has them in
/// front, or it is broken behind them.
pub fn what_was_synced_is_read()
    ensures read { (book behind : List ℕ) (entries others : List (List (List ℕ))) (tail : List ℕ) → length book ≡ 32 → AreEntries entries
        → IsReading book (log_text book entries ++ behind) (Ok (others, tail))
        → (more : List (List (List ℕ))) × (others ≡ entries ++ more) }
    ensures broken { (book behind : List ℕ) (entries : List (List (List ℕ))) (fault : LogFault) → length book ≡ 32 → AreEntries entries
        → IsReading book (log_text book entries ++ behind) (Err fault)
        → (number : ℕ) × (fault ≡ Broken number) × (length entries ≤ number) }
{}

/// Behind the log of some entries a proper beginning of one further entry is a torn tail, and so are zeros: reading gives these entries.
pub fn what_was_torn_is_cut()
    ensures beginning { (book : List ℕ) (entries : List (List (List ℕ))) (bodies : List (List ℕ)) (front rest : List ℕ) → AreEntries entries
        → AreBodies bodies → rest ≢ [] → entry_text (last_digest book entries) bodies ≡ front ++ rest
        → IsReading book (log_text book entries ++ front) (Ok (entries, front)) }
    ensures zeros { (book : List ℕ) (entries : List (List (List ℕ))) (count : ℕ) → AreEntries entries
        → IsReading book (log_text book entries ++ replicate count 0) (Ok (entries, replicate count 0)) }
{}

/// Two logs of one book that end with the same digest have the same entries; or a digest of the one and a digest of the other are taken
/// over two texts that differ, and are equal. So where SHA-256 has no such collision, an entry that was changed, left out or exchanged
/// is found by whoever knows the last digest. Not claimed: that damage to the last entry alone, after it was synced, is told from a torn
/// tail.
pub fn one_digest_is_one_log()
    ensures { (book : List ℕ) (entries others : List (List (List ℕ))) → length book ≡ 32 → AreEntries entries → AreEntries others
        → last_digest book entries ≡ last_digest book others → (entries ≡ others) ⊎ Collide book entries others }
{}
