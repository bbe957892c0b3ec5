//! The laws of the definitions, as contracts of functions that do nothing.
ghost use Rattle.std.specs.Prelude.{◌≡◌, ◌≢◌, ◌↔◌, ◌⊎◌, AllPairs, ℕ, ℤ, Bool, true, List, [], ◌∷◌, ◌++◌, Contains, Result, Ok};
ghost use Rattle.sq_value.specs.Relation.{Relation};
ghost use Rattle.sq_value.specs.declared.value.Value.{Value};
ghost use Rattle.sq_value.specs.declared.value.Truth.{Truth};
ghost use Rattle.sq_expr.specs.declared.block.Block.{Block};
ghost use Rattle.bag_meaning.specs.Bag.{bag, uses_of};
ghost use Rattle.bag_meaning.specs.Answer.{answer, answer_text};
ghost use Rattle.sq_expr.specs.Reach.{IsReachable};
ghost use Rattle.remote_lookup.specs.Thinned.{thinned, are_left};
ghost use Rattle.remote_lookup.specs.Filled.{exchanged, tables_for, keys_at, KeysRise, AreInOrder};
ghost use Rattle.remote_lookup.specs.Needed.{AreNeeded, AreRemotes, IsAskedFor, IsAskedByFile};
ghost use Rattle.remote_lookup.specs.KeyFiles.{KeyBytes, key_file_of};
ghost use Rattle.remote_lookup.specs.Loaded.{remote_tables};
ghost use Rattle.remote_lookup.specs.Rounds.{Cause, Comes, lists_key, rows_of_file};
ghost use Rattle.remote_lookup.specs.declared.remote.RemoteFault.{RemoteFault as Refused};

use crate::remote::{Remote, RemoteKey};

/// The law of thinning: rows that are part of no match may be left out, and the text of the answer
/// stays. It does nothing.
pub fn thinning_law()
    ensures { (gives : ℕ → Value → Value → Truth) (block : Block) (tables : List Relation)
        (test : ℕ → List Value → Bool)
        → ((rows : List ℕ) → Contains (bag gives block tables) rows → are_left test tables (uses_of block) rows ≡ true)
        → answer_text block (thinned test tables) (answer gives block (thinned test tables))
        ≡ answer_text block tables (answer gives block tables) }
{}

/// The law of remote look-ups: a finite set of keys that holds the needed ones, and whose files are in
/// order, gives the text of the answer that the needed ones give. It does nothing.
///
/// The block is reachable, and each alias of a remote is reached by a look-up in its column alone.
pub fn needed_law()
    ensures { (gives : ℕ → Value → Value → Truth) (block : Block) (tables : List Relation) (remotes : List Remote)
        (rows : ℕ → ℤ → List (List Value)) (needed keys : List RemoteKey)
        → IsReachable block → AreRemotes block remotes → AreNeeded gives block tables remotes rows needed
        → KeysRise keys → AreInOrder remotes rows keys
        → ((remote : ℕ) (k : ℤ) → Contains (keys_at needed remote) k → Contains (keys_at keys remote) k)
        → answer_text block (tables_for remotes rows tables keys)
        (answer gives block (tables_for remotes rows tables keys))
        ≡ answer_text block (tables_for remotes rows tables needed)
        (answer gives block (tables_for remotes rows tables needed)) }
{}

/// The laws of the rounds in which needed keys are found: what comes of them is one thing, `one`, and
/// where it is a set of keys, these are the needed ones, `needed`; one key more adds what the rows of its
/// file ask for, `grows`; from no keys on they come to something, `some`; and it goes by what each key's
/// file is, `alike`. It does nothing.
pub fn rounds_law()
    ensures one { (gives : ℕ → Value → Value → Truth) (block : Block) (tables : List Relation) (remotes : List Remote)
        (file : ℕ → ℤ → Result (List (List Value)) Cause) (known : List RemoteKey)
        (a b : Result (List RemoteKey) Refused)
        → Comes gives block tables remotes file known a → Comes gives block tables remotes file known b → a ≡ b }
    ensures needed { (gives : ℕ → Value → Value → Truth) (block : Block) (tables : List Relation)
        (remotes : List Remote)
        (file : ℕ → ℤ → Result (List (List Value)) Cause) (keys : List RemoteKey)
        → Comes gives block tables remotes file [] (Ok keys)
        → AreNeeded gives block tables remotes (λ r k. rows_of_file (file r k)) keys }
    ensures grows { (gives : ℕ → Value → Value → Truth) (block : Block) (tables : List Relation) (remotes : List Remote)
        (rows : ℕ → ℤ → List (List Value)) (known : List RemoteKey) (k : RemoteKey) (remote : ℕ) (key : ℤ)
        → (IsAskedFor gives block tables remotes rows (lists_key (known ++ k ∷ [])) remote key
        ↔ (IsAskedFor gives block tables remotes rows (lists_key known) remote key
        ⊎ IsAskedByFile gives block remotes rows k remote key)) }
    ensures some { (gives : ℕ → Value → Value → Truth) (block : Block) (tables : List Relation) (remotes : List Remote)
        (file : ℕ → ℤ → Result (List (List Value)) Cause)
        → (due : Result (List RemoteKey) Refused) × Comes gives block tables remotes file [] due }
    ensures alike { (gives : ℕ → Value → Value → Truth) (block : Block) (tables : List Relation)
        (remotes : List Remote)
        (file other : ℕ → ℤ → Result (List (List Value)) Cause) (known : List RemoteKey)
        (due : Result (List RemoteKey) Refused)
        → ((remote : ℕ) (key : ℤ) → file remote key ≡ other remote key)
        → Comes gives block tables remotes file known due → Comes gives block tables remotes other known due }
{}

/// The law of filled tables: each remote's table for some keys, put in its place, gives the tables for these
/// keys. It does nothing.
pub fn filling_law()
    ensures { (tables : List Relation) (remotes : List Remote) (rows : ℕ → ℤ → List (List Value))
        (keys : List RemoteKey) → AllPairs (λ one other. one.table ≢ other.table) remotes
        → exchanged tables remotes (remote_tables rows tables keys remotes) ≡ tables_for remotes rows tables keys }
{}

/// The law of key files: whatever is given of keys' files, their rows have their file's key in the look-up
/// column. It does nothing.
pub fn file_law()
    ensures { (tables : List Relation) (remotes : List Remote) (found : KeyBytes) (keys : List RemoteKey)
        → AreInOrder remotes (λ r k. rows_of_file (key_file_of tables remotes found r k)) keys }
{}
